// Sittings: the states of one learner, recorded one by one.
#![tactic(auto)]

mod fault;
mod list;
mod sitting;

pub use fault::SittingFault;
pub use list::StateList;
pub use sitting::{Closed, ClosedSitting, Open, Sitting};
