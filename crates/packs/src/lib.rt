// Packs of rules: a checked view of a pack's bytes, and what is refused of a pack.
#![tactic(auto)]

mod fault;
mod look;
mod pack;
mod reader;
mod summary;

pub use fault::{PackFault, read_rule};
pub use look::LookAhead;
pub use pack::Pack;
pub use reader::PackReader;
pub use summary::Summary;
