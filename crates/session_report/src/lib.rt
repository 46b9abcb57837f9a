// What programs print of sessions.
#![tactic(auto)]

mod listing;
mod state;
#[cfg(test)]
mod tests;

pub use listing::{session_listing, sheet_listing};
pub use state::state_line;
