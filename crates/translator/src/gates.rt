// The gates and bars of in rows.
ghost use Rattle.std.specs.Prelude.{◌≡◌, ◌<◌, ◌≤◌, length};
ghost use Rattle.translation.specs.Translation.{barred, gate_step};
ghost use Rattle.translator.specs.Drafts.{drafted};

use crate::draft::Draft;
use rows::{Home, Kind, Row};

impl Draft {
    // The gate of the in row of this number is at this place. Writes its bar.
    fn write_bar(&mut self, number: usize, gate: u16)
        requires { length (drafted self.old).written < 5120 }
        ensures { drafted self.new ≡ barred number gate (drafted self.old) }
    {
        let bar = self.write(Kind::Not, gate, 0);
        self.set_gate(number, gate, bar);
    }

    // The second step at a row: an in row gets its gate and its bar.
    pub(crate) fn write_gate(&mut self, home: Home, number: usize, row: Row)
        requires { length (gate_step home number row (drafted self.old)).written ≤ 5120 }
        ensures { drafted self.new ≡ gate_step home number row (drafted self.old) }
    {
        if !row.kind.is_in() {
            return;
        }
        let scope = self.standing(row.right).place;
        match home {
            Home::Outside => self.write_bar(number, scope),
            Home::Body(around) => {
                let outer = self.standing(around).gate;
                let gate = self.write(Kind::And, outer, scope);
                self.write_bar(number, gate);
            }
            Home::Scope(_) => {}
        }
    }
}
