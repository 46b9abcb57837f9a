// The marks of all rows of a plain table, worked out from the last state of a session to the first. A strip has the rows' marks on
// the session from a position, and after them those on the session from the position after it.
ghost use Rattle.std.specs.Prelude.{◌≡◌, ◌+◌, ◌-◌, ◌*◌, ◌<◌, ◌≤◌, [], length, drop, slice_index_or};
ghost use Rattle.meaning.specs.Meaning.{row_mark};
ghost use Rattle.marking.specs.Marks.{Fits, Sound, NoIn, Filled, MarksOn, empty_by, state_by};

use rows::{Kind, Row};
use scales::Scale;
use sessions::{Session, State, state_at};

// The mark of a row on the empty session, from the marks of the rows below it. An in row has that of its body.
fn empty_mark<M: Scale>(row: Row, number: usize, marks: &[M]) -> M
    requires { (Fits row.kind number row.left row.right) × (number < length marks.now) }
    ensures { result ≡ empty_by M.Scale.ops row.kind (slice_index_or marks.now row.left M.Scale.ops.top) (slice_index_or marks.now row.right M.Scale.ops.top) }
{
    let left = usize::from(row.left);
    let right = usize::from(row.right);
    match row.kind {
        Kind::Top | Kind::Always => M::top(),
        Kind::Not => marks[left].complement(),
        Kind::And => marks[left].meet(marks[right]),
        Kind::Or => marks[left].join(marks[right]),
        Kind::In => marks[left],
        _ => M::bottom(),
    }
}

// The mark of a row on a session with this state in front, from the marks on it of the rows below and the marks of all rows on the
// session without the state. That session is not empty if `later` is true.
pub(crate) fn state_mark<M: Scale>(
    row: Row,
    number: usize,
    state: &State,
    later: bool,
    marks: &[M],
    after: &[M],
) -> M
    requires fits { (Fits row.kind number row.left row.right) × (number < length after.now) }
    requires even { length marks.now ≡ length after.now }
    ensures { result ≡ state_by M.Scale.ops row.kind row.left state.now later (slice_index_or marks.now row.left M.Scale.ops.top) (slice_index_or marks.now row.right M.Scale.ops.top) (slice_index_or after.now row.left M.Scale.ops.top) (slice_index_or after.now number M.Scale.ops.top) }
{
    let left = usize::from(row.left);
    let right = usize::from(row.right);
    match row.kind {
        Kind::Top => M::top(),
        Kind::Flag if state.has_flag(row.left) => M::top(),
        Kind::Code => M::reading(state.code(row.left)),
        Kind::Not => marks[left].complement(),
        Kind::And => marks[left].meet(marks[right]),
        Kind::Or => marks[left].join(marks[right]),
        Kind::Next if later => after[left],
        Kind::Until => marks[right].join(marks[left].meet(after[number])),
        Kind::Always => marks[left].meet(after[number]),
        Kind::Eventually => marks[left].join(after[number]),
        Kind::In => marks[left], // The mark of its body.
        Kind::Flag | Kind::Next => M::bottom(),
    }
}

// The marks on the empty session, twice. That the rows are sound stands in each contract here: rows of rules and of plain tables come
// to this function, and have no type in common.
pub(crate) fn start<M: Scale>(rows: &[Row], marks: &mut [M], after: &mut [M])
    requires sound { Sound rows.now }
    requires even { (length marks.old ≡ length rows.now) × (length after.old ≡ length rows.now) }
    ensures marked { MarksOn M.Scale.ops (row_mark M.Scale.ops rows.now) [] (length rows.now) marks.new }
    ensures stored { after.new ≡ marks.new }
{
    for (number, row) in rows.iter().enumerate() {
        marks[number] = empty_mark(*row, number, marks);
    }
    after.copy_from_slice(marks);
}

// From the marks on the session after a position to those on the session from it. The former are stored too. Both are slices, and
// no struct: each of its methods would have to promise that it keeps both borrows.
fn step<M: Scale, S: Session>(
    rows: &[Row],
    session: &S,
    position: u16,
    marks: &mut [M],
    after: &mut [M],
)
    requires sound { (Sound rows.now) × (NoIn rows.now) }
    requires even { (length marks.old ≡ length rows.now) × (length after.old ≡ length rows.now) }
    requires within { position < length (S.Session.states session.now) }
    requires marked { MarksOn M.Scale.ops (row_mark M.Scale.ops rows.now) (drop (position + 1) (S.Session.states session.now)) (length rows.now) marks.old }
    ensures marked { MarksOn M.Scale.ops (row_mark M.Scale.ops rows.now) (drop position (S.Session.states session.now)) (length rows.now) marks.new }
    ensures stored { after.new ≡ marks.old }
{
    let state = state_at(session, position);
    let later = position < session.len() - 1;
    after.copy_from_slice(marks);
    for (number, row) in rows.iter().enumerate() {
        marks[number] = state_mark(*row, number, &state, later, marks, after);
    }
}

// The mark of the last of the rows.
pub(crate) fn last_mark<M: Scale>(marks: &[M]) -> M
    requires { 0 < length marks.now }
    ensures { result ≡ slice_index_or marks.now (length marks.now - 1) M.Scale.ops.top }
{
    marks[marks.len() - 1]
}

// The marks of all rows on the session, and on the session from 1; tells the last row's mark on the session.
pub(crate) fn mark_rows<M: Scale, S: Session>(rows: &[Row], session: &S, strip: &mut [M]) -> M
    requires sound { (Sound rows.now) × ((NoIn rows.now) × (0 < length rows.now)) }
    requires room { (length rows.now ≤ 5120) × (2 * length rows.now ≤ length strip.old) }
    ensures value { result ≡ row_mark M.Scale.ops rows.now (length rows.now - 1) (S.Session.states session.now) }
    ensures filled { Filled M.Scale.ops (length rows.now) (row_mark M.Scale.ops rows.now) (S.Session.states session.now) (drop 1 (S.Session.states session.now)) (length rows.now) strip.old strip.new }
{
    let (marks, rest) = strip.split_at_mut(rows.len());
    let after = &mut rest[..rows.len()];
    start(rows, marks, after);
    for position in (0..session.len()).rev() {
        step(rows, session, position, marks, after);
    }
    last_mark(marks)
}
