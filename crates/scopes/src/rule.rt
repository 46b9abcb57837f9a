// Whether a state is in the scope of an in row of a rule.
ghost use Rattle.std.specs.Prelude.{◌≡◌};
ghost use Rattle.meaning.specs.Logic.{Satisfaction};
ghost use Rattle.scopes.specs.Answered.{scope_answer, answer_at, HoldsAlone};

use crate::scope::holds;
use sessions::{Session, State, state_at};
use tables::Rule;

// Whether a state is in the scope of the in row of this number, if there is such an in row.
pub fn in_scope(rule: &Rule, in_row: usize, state: &State) -> Option<bool>
    ensures { result ≡ scope_answer rule.now.table.rows.items in_row state.now }
{
    let rows = rule.table().rows.as_slice();
    let row = rule.table().row(in_row)?;
    if !row.kind.is_in() {
        return None;
    }
    Some(holds(rows, usize::from(row.right), state))
}

// The same of the state at a position of a session, if there is such a state.
pub fn in_scope_at<S: Session>(
    rule: &Rule,
    in_row: usize,
    session: &S,
    position: u16,
) -> Option<bool>
    ensures value { result ≡ answer_at rule.now.table.rows.items in_row (S.Session.states session.now) position }
    ensures alone { HoldsAlone rule.now.table.rows.items in_row (S.Session.states session.now) position result }
    ensures logic { Satisfaction rule.now.table.rows.items (S.Session.states session.now) }
{
    if position >= session.len() {
        return None;
    }
    in_scope(rule, in_row, &state_at(session, position))
}
