// Marking a session by a table.
#![tactic(auto)]

mod fault;
mod marks;
mod straight;
mod strip;
#[cfg(test)]
mod tests;

pub use fault::MarkingFault;
pub use strip::Strip;
