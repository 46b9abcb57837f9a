// A run of marks that a session is marked on.
ghost use Rattle.std.specs.Prelude.{◌≡◌, ◌-◌, ◌≤◌, length};
ghost use Rattle.refusals.specs.Answers.{Answers, Checks};
ghost use Rattle.rows.specs.Rows.{item_of};
ghost use Rattle.meaning.specs.Meaning.{row_mark};
ghost use Rattle.marking.specs.Straight.{after_straight};
ghost use Rattle.marking.specs.Strips.{strip_fault, after_marking};

use crate::fault::MarkingFault;
use crate::marks::mark_rows;
use crate::straight::mark_rule_rows;
use scales::Scale;
use sessions::Session;
use tables::{PlainTable, Rule};

// Lent marks of any scale: two for each row of a table, or more.
#[derive(Drop)]
pub struct Strip<'a, M> {
    marks: &'a mut [M],
}

impl<'a, M: Scale> Strip<'a, M> {
    pub fn new(marks: &'a mut [M]) -> Strip<'a, M>
        ensures marks { result.marks.now ≡ marks.old }
        ensures name { result.marks.ghost_name ≡ marks.entry.ghost_name }
    {
        Strip { marks }
    }

    // The number of marks.
    pub fn len(&self) -> usize
        ensures { result ≡ length self.now.marks.now }
    {
        self.marks.len()
    }

    // The mark at this place, if there is one.
    pub fn mark(&self, number: usize) -> Option<M>
        ensures { result ≡ item_of self.now.marks.now number M.Scale.ops.top }
    {
        self.marks.get(number).copied()
    }

    // Refuses a strip that is too short for so many rows.
    fn check_len(&self, rows: usize) -> Result<(), MarkingFault>
        requires { rows ≤ 5120 }
        ensures { Checks (strip_fault rows (length self.now.marks.now)) result }
    {
        let needed = 2 * rows;
        if self.len() < needed {
            return Err(MarkingFault::StripShort(needed));
        }
        Ok(())
    }

    // What the last row of a plain table means on a session. The strip then holds each row's mark on the session, and after
    // those each row's mark on the session from 1. One that is too short stays as it was.
    pub fn mark_plain<S: Session>(
        &mut self,
        table: &PlainTable,
        session: &S,
    ) -> Result<M, MarkingFault>
        ensures value { Answers (strip_fault (length table.now.table.rows.items) (length self.old.marks.now)) result (λ m. m ≡ row_mark M.Scale.ops table.now.table.rows.items (length table.now.table.rows.items - 1) (S.Session.states session.now)) }
        ensures strip { self.new.marks.now ≡ after_marking M.Scale.ops table.now.table.rows.items (S.Session.states session.now) self.old.marks.now }
        ensures name { self.new.marks.ghost_name ≡ self.old.marks.ghost_name }
    {
        let rows = table.table().rows.as_slice();
        self.check_len(rows.len())?;
        Ok(mark_rows(rows, session, self.marks))
    }

    // What the last row of a rule means on a session, worked out in one pass over its states. The strip then holds each row's
    // mark on the states of the session that the in rows above it leave, and after those the same for the session from 1. One
    // that is too short stays as it was.
    pub fn mark_rule<S: Session>(&mut self, rule: &Rule, session: &S) -> Result<M, MarkingFault>
        ensures value { Answers (strip_fault (length rule.now.table.rows.items) (length self.old.marks.now)) result (λ m. m ≡ row_mark M.Scale.ops rule.now.table.rows.items (length rule.now.table.rows.items - 1) (S.Session.states session.now)) }
        ensures strip { self.new.marks.now ≡ after_straight M.Scale.ops rule.now.table.rows.items (S.Session.states session.now) self.old.marks.now }
        ensures name { self.new.marks.ghost_name ≡ self.old.marks.ghost_name }
    {
        self.check_len(rule.table().len())?;
        Ok(mark_rule_rows(rule, session, self.marks))
    }
}
