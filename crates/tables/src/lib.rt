// Rules and plain tables: their types, which hold lawful tables only, and their readers.
#![tactic(auto)]

mod check;
mod fault;
mod form;
mod homes;
mod memory;
mod plain;
mod read;
mod rule;
mod table;
mod write;

pub use fault::TableFault;
pub use form::Form;
pub use memory::{PlainMemory, RuleMemory};
pub use plain::PlainTable;
pub use rule::Rule;
pub use table::Table;
