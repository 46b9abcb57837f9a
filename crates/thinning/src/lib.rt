// A session thinned to the states that are in a scope.
#![tactic(auto)]

mod memory;
mod thinned;

pub use memory::ThinnedMemory;
pub use thinned::Thinned;
