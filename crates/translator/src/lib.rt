// Translates rules to plain tables.
#![tactic(auto)]

mod draft;
mod gates;
mod memory;
mod plain;
mod standing;
mod steps;
#[cfg(test)]
mod tests;
mod write;

pub use memory::TranslatorMemory;
pub use plain::{Translation, translate};
