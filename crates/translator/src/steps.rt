// The three steps, one loop each: what a loop keeps is another fact for each step, so one loop over a closure would have to be told it.
// A step takes a row as the definition does: its home, its number and itself. Room is asked for as the step writes (write.rt).
ghost use Rattle.std.specs.Prelude.{◌≡◌, ◌-◌, ◌<◌, ◌≤◌, length};
ghost use Rattle.translation.specs.Translation.{scope_step, write_step, empty_draft, after_scopes, after_gates, after_rows};
ghost use Rattle.translator.specs.Drafts.{drafted, placed};

use crate::draft::Draft;
use rows::{Home, Row};
use tables::Rule;

impl Draft {
    // The row that was written last is the result of the row of this number.
    fn settle(&mut self, number: usize)
        requires { 0 < length (drafted self.old).written }
        ensures { drafted self.new ≡ placed number (length (drafted self.old).written - 1) (drafted self.old) }
    {
        let last = self.written.len() - 1;
        self.set_place(number, last as u16);
    }

    // The first step at a row: a row that stands in a scope is copied.
    fn copy_scope(&mut self, home: Home, number: usize, row: Row)
        requires { length (scope_step home number row (drafted self.old)).written ≤ 5120 }
        ensures { drafted self.new ≡ scope_step home number row (drafted self.old) }
    {
        if home.in_scope() {
            self.copy(row);
            self.settle(number);
        }
    }

    // The third step at a row: one that stands in no scope is written.
    fn write_row(&mut self, home: Home, number: usize, row: Row)
        requires { length (write_step home number row (drafted self.old)).written ≤ 5120 }
        ensures { drafted self.new ≡ write_step home number row (drafted self.old) }
    {
        match (home, row.kind.is_in()) {
            (Home::Scope(_), _) => {}
            (_, true) => {
                let body = self.standing(row.left);
                self.set_place(number, body.place);
            }
            (Home::Outside, false) => {
                self.copy(row);
                self.settle(number);
            }
            (Home::Body(around), false) => {
                self.write_in_body(around, row);
                self.settle(number);
            }
        }
    }

    // The rows of scopes are copied.
    pub(crate) fn copy_scopes(&mut self, rule: &Rule)
        requires { drafted self.old ≡ empty_draft (length rule.now.table.rows.items) }
        ensures { drafted self.new ≡ after_scopes rule.now.table.rows.items }
    {
        for (number, (row, home)) in rule.table.rows.iter().zip(&rule.homes).enumerate() {
            self.copy_scope(*home, number, *row);
        }
    }

    // Each in row gets its gate and its bar, the outer ones first.
    pub(crate) fn write_gates(&mut self, rule: &Rule)
        requires { drafted self.old ≡ after_scopes rule.now.table.rows.items }
        ensures { drafted self.new ≡ after_gates rule.now.table.rows.items }
    {
        for (number, (row, home)) in rule.table.rows.iter().zip(&rule.homes).enumerate().rev() {
            self.write_gate(*home, number, *row);
        }
    }

    // All other rows are written.
    pub(crate) fn write_rows(&mut self, rule: &Rule)
        requires { drafted self.old ≡ after_gates rule.now.table.rows.items }
        ensures { drafted self.new ≡ after_rows rule.now.table.rows.items }
    {
        for (number, (row, home)) in rule.table.rows.iter().zip(&rule.homes).enumerate() {
            self.write_row(*home, number, *row);
        }
    }
}
