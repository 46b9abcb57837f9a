// Scopes: whether a state is in the scope of an in row of a rule, and scopes by themselves.
#![tactic(auto)]

mod rule;
mod scope;

pub use rule::{in_scope, in_scope_at};
pub use scope::Scope;
