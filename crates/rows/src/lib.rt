// Rows of a table, the constant tables by kind, and where a row of a rule stands.
#![tactic(auto)]

mod half;
mod home;
mod kind;
mod row;

pub use half::Half;
pub use home::Home;
pub use kind::{HalfUse, Kind, UnknownKind};
pub use row::Row;
