// Writing rows into a draft. Each function asks for room for the rows that it writes: a number of its own, so no field says it.
ghost use Rattle.std.specs.Prelude.{◌≡◌, ◌+◌, ◌<◌, ◌≤◌, [], ◌∷◌, length};
ghost use Rattle.translation.specs.Counts.{rows_in_body};
ghost use Rattle.translation.specs.Translation.{place_of, moved_half, two_operands};
ghost use Rattle.translator.specs.Drafts.{drafted, added, copy_of, first_rows, rows_for};

use crate::draft::Draft;
use crate::standing::Standing;
use rows::{Half, HalfUse, Kind, Row};

impl Draft {
    // Writes a row, and tells its place.
    pub(crate) fn write(&mut self, kind: Kind, left: u16, right: u16) -> u16
        requires { length (drafted self.old).written < 5120 }
        ensures draft { drafted self.new ≡ added (two_operands kind left right ∷ []) (drafted self.old) }
        ensures place { result ≡ length (drafted self.old).written }
    {
        let place = self.written.len() as u16;
        self.written.push_reserved(Row { kind, left, right });
        place
    }

    // A half of a copy: an operand is named by its place.
    fn moved(&self, half: Half) -> u16
        ensures { result ≡ moved_half half.of half.value (place_of (drafted self.now) half.value) }
    {
        match half.of {
            HalfUse::Operand => self.standing(half.value).place,
            HalfUse::Zero | HalfUse::FlagNumber | HalfUse::CodeNumber => half.value,
        }
    }

    // Writes a copy of a row with its operands at their places, and tells its place.
    pub(crate) fn copy(&mut self, row: Row) -> u16
        requires { length (drafted self.old).written < 5120 }
        ensures draft { drafted self.new ≡ added (copy_of row (drafted self.old) ∷ []) (drafted self.old) }
        ensures place { result ≡ length (drafted self.old).written }
    {
        let (left, right) = row.halves();
        self.write(row.kind, self.moved(left), self.moved(right))
    }

    // Writes the rows that read another at the first position from here on at which the gate is true, and tells the place of the last.
    fn write_first(&mut self, gate: u16, bar: u16, at: u16) -> u16
        requires { length (drafted self.old).written + 2 ≤ 5120 }
        ensures draft { drafted self.new ≡ added (first_rows (length (drafted self.old).written) gate bar at) (drafted self.old) }
        ensures place { result ≡ length (drafted self.old).written + 1 }
    {
        let both = self.write(Kind::And, gate, at);
        self.write(Kind::Until, bar, both)
    }

    // Writes the rows for a row in the body of the in row `around`.
    pub(crate) fn write_in_body(&mut self, around: u16, row: Row)
        requires { length (drafted self.old).written + rows_in_body row.kind ≤ 5120 }
        ensures { drafted self.new ≡ added (rows_for around row (drafted self.old)) (drafted self.old) }
    {
        let Standing { gate, bar, .. } = self.standing(around);
        let left = self.standing(row.left).place;
        let right = self.standing(row.right).place;
        match row.kind {
            Kind::Top | Kind::Not | Kind::And | Kind::Or => {
                self.copy(row);
            }
            Kind::Flag | Kind::Code => {
                let copy = self.copy(row);
                self.write_first(gate, bar, copy);
            }
            Kind::Next => {
                let first = self.write_first(gate, bar, left);
                let next = self.write(Kind::Next, first, 0);
                self.write_first(gate, bar, next);
            }
            Kind::Until => {
                let held = self.write(Kind::Or, bar, left);
                let reached = self.write(Kind::And, gate, right);
                self.write(Kind::Until, held, reached);
            }
            Kind::Always => {
                let held = self.write(Kind::Or, bar, left);
                self.write(Kind::Always, held, 0);
            }
            Kind::Eventually => {
                let reached = self.write(Kind::And, gate, left);
                self.write(Kind::Eventually, reached, 0);
            }
            Kind::In => {}
        }
    }
}
