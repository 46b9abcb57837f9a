// What the rows of a table mean.
#![tactic(auto)]

mod examples;

pub use examples::example_session;
