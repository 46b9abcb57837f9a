// The lines that programs print.
#![tactic(auto)]

mod line;
mod listing;
mod plain;
#[cfg(test)]
mod round_trips;
#[cfg(test)]
mod tests;

pub use line::{refused_file_line, refused_rule_line, rule_line, summary_line};
pub use listing::pack_listing;
pub use plain::{plain_listing, plain_row_line};
