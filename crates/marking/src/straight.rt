// The marks of all rows of a rule, worked out from the last state of a session to the first. They lie as those of a plain table
// do, but each row's mark is on the states that the in rows above it leave.
ghost use Rattle.std.specs.Prelude.{◌≡◌, ℕ, ◌+◌, ◌-◌, ◌*◌, ◌<◌, ◌≤◌, false, ◌||◌, [], ◌∷◌, length, drop, slice_index_or};
ghost use Rattle.sessions.specs.States.{no_state};
ghost use Rattle.meaning.specs.Meaning.{row_mark};
ghost use Rattle.marking.specs.Bodies.{at_home, Held, Bodies, Passing, heres, laters};
ghost use Rattle.marking.specs.Marks.{Filled, MarksOn};
ghost use Rattle.marking.specs.Straight.{straight_mark};

use crate::marks::{last_mark, start, state_mark};
use rows::Home;
use scales::Scale;
use scopes::in_scope;
use sessions::{Session, State, state_at};
use tables::Rule;

// What is left of a session: whether the state at hand is, and whether a later one is.
#[derive(Clone, Copy, Debug, Default, PartialEq, Eq, Hash)]
struct Left {
    here: bool,
    later: bool,
}

// What is left for a row that stands here: what `bodies` says of the in row in whose body it is, `elsewhere` if it is in none.
fn left_at(home: Home, bodies: &[Left], elsewhere: Left) -> Left
    requires { Held home (length bodies.now) }
    ensures here { result.here ≡ at_home home (heres bodies.now) elsewhere.here }
    ensures later { result.later ≡ at_home home (laters bodies.now) elsewhere.later }
{
    match home {
        Home::Body(in_row) => bodies[usize::from(in_row)],
        Home::Outside | Home::Scope(_) => elsewhere,
    }
}

// Stores for each in row whether this state is left for its body: it is in the scope of that row and of all in rows above.
fn find_here(rule: &Rule, state: &State, bodies: &mut [Left])
    requires { length rule.now.table.rows.items ≤ length bodies.old }
    ensures here { Passing rule.now.table.rows.items state.now.flags (heres bodies.new) }
    ensures later { laters bodies.new ≡ laters bodies.old }
{
    let whole = Left {
        here: true,
        later: true,
    };
    for (number, home) in rule.homes.iter().enumerate().rev() {
        let above = left_at(*home, bodies, whole);
        let here = above.here && in_scope(rule, number, state).unwrap_or(false);
        bodies[number].here = here;
    }
}

// Adds the bodies for which the state at hand is left to those for which a later one is.
fn add_later(bodies: &mut [Left])
    ensures { (k : ℕ) → slice_index_or (laters bodies.new) k false ≡ (slice_index_or (laters bodies.old) k false || slice_index_or (heres bodies.old) k false) }
{
    for left in bodies.iter_mut() {
        left.later |= left.here;
    }
}

// From the marks on the session after a position to those on the session from it. The former are stored too. `bodies` says of
// each in row whether a later state is left for its body, and then also whether this one is. Not one function with the step of
// `mark_rows`: what holds before and after it is another fact, and the marks are two slices for the reason told there.
fn step<M: Scale, S: Session>(
    rule: &Rule,
    session: &S,
    position: u16,
    bodies: &mut [Left],
    marks: &mut [M],
    after: &mut [M],
)
    requires even { (length marks.old ≡ length rule.now.table.rows.items) × (length after.old ≡ length rule.now.table.rows.items) }
    requires room { length rule.now.table.rows.items ≤ length bodies.old }
    requires within { position < length (S.Session.states session.now) }
    requires marked { MarksOn M.Scale.ops (straight_mark M.Scale.ops rule.now.table.rows.items) (drop (position + 1) (S.Session.states session.now)) (length rule.now.table.rows.items) marks.old }
    requires later { Bodies rule.now.table.rows.items (drop (position + 1) (S.Session.states session.now)) (laters bodies.old) }
    ensures marked { MarksOn M.Scale.ops (straight_mark M.Scale.ops rule.now.table.rows.items) (drop position (S.Session.states session.now)) (length rule.now.table.rows.items) marks.new }
    ensures stored { after.new ≡ marks.old }
    ensures here { Bodies rule.now.table.rows.items (slice_index_or (S.Session.states session.now) position no_state ∷ []) (heres bodies.new) }
    ensures later { laters bodies.new ≡ laters bodies.old }
{
    let state = state_at(session, position);
    let whole = Left {
        here: true,
        later: position < session.len() - 1,
    };
    find_here(rule, &state, bodies);
    after.copy_from_slice(marks);
    for (number, (row, home)) in rule.table.rows.iter().zip(&rule.homes).enumerate() {
        let left = left_at(*home, bodies, whole);
        if left.here {
            marks[number] = state_mark(*row, number, &state, left.later, marks, after);
        }
    }
}

// The marks of all rows on what is left of the session for them, and of the session from 1; tells the last row's mark, for which
// all of it is left.
pub(crate) fn mark_rule_rows<M: Scale, S: Session>(rule: &Rule, session: &S, strip: &mut [M]) -> M
    requires { 2 * length rule.now.table.rows.items ≤ length strip.old }
    ensures value { result ≡ row_mark M.Scale.ops rule.now.table.rows.items (length rule.now.table.rows.items - 1) (S.Session.states session.now) }
    ensures filled { Filled M.Scale.ops (length rule.now.table.rows.items) (straight_mark M.Scale.ops rule.now.table.rows.items) (S.Session.states session.now) (drop 1 (S.Session.states session.now)) (length rule.now.table.rows.items) strip.old strip.new }
{
    let rows = rule.table.rows.as_slice();
    let (marks, rest) = strip.split_at_mut(rows.len());
    let after = &mut rest[..rows.len()];
    let mut lefts = [Left::default(); 1024];
    // Those of the rule's rows alone: a state costs no more than they need.
    let bodies = &mut lefts[..rows.len()];
    start(rows, marks, after);
    for position in (0..session.len()).rev() {
        step(rule, session, position, bodies, marks, after);
        add_later(bodies);
    }
    last_mark(marks)
}
