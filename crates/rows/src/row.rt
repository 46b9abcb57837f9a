// One row of a table.
ghost use Rattle.std.specs.Prelude.{◌≡◌, Some};
ghost use Rattle.rows.specs.Printed.{row_text};
ghost use Rattle.rows.specs.Rows.{halves_of, uses_by};

use crate::half::Half;
use crate::kind::Kind;
use std::fmt;

#[derive(Clone, Copy, Debug, PartialEq, Eq, Hash)]
pub struct Row {
    pub kind: Kind,
    pub left: u16,
    pub right: u16,
}

impl Row {
    // Its left and its right half.
    pub fn halves(self) -> (Half, Half)
        ensures { result ≡ halves_of self }
    {
        let (left, right) = self.kind.halves();
        (
            Half {
                of: left,
                value: self.left,
            },
            Half {
                of: right,
                value: self.right,
            },
        )
    }

    // How many of this row's operands are the row of this number. A small number, so that a sum over many rows has a bound.
    pub fn uses(self, number: usize) -> u8
        ensures { result ≡ uses_by self number }
    {
        let (left, right) = self.halves();
        u8::from(left.names(number)) + u8::from(right.names(number))
    }
}

// The word of the row's kind, and the halves that the kind uses.
impl fmt::Display for Row {
    ghost output = { λ row. Some (row_text row) };

    fn fmt<W: fmt::Write>(&self, f: &mut fmt::Formatter<W>) -> fmt::Result {
        let (left, right) = self.halves();
        write!(f, "{}{left}{right}", self.kind)
    }
}
