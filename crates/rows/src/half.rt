// One half of a row's argument: what it is for the row's kind, and its value.
ghost use Rattle.std.specs.Prelude.{◌≡◌, Some};
ghost use Rattle.rows.specs.Kinds.{zero_kept, number_kept, order_kept, names_row};
ghost use Rattle.rows.specs.Printed.{half_text};

use crate::kind::HalfUse;
use std::fmt;

#[derive(Clone, Copy, Debug, PartialEq, Eq, Hash)]
pub struct Half {
    pub of: HalfUse,
    pub value: u16,
}

impl Half {
    // Whether a half that has to be 0 is 0.
    pub fn keeps_zero(self) -> bool
        ensures { result ≡ zero_kept self.of self.value }
    {
        match self.of {
            HalfUse::Zero => self.value == 0,
            HalfUse::FlagNumber | HalfUse::CodeNumber | HalfUse::Operand => true,
        }
    }

    // Whether a flag or code number is below the number used.
    pub fn keeps_number(self, flags: u8, codes: u8) -> bool
        ensures { result ≡ number_kept flags codes self.of self.value }
    {
        match self.of {
            HalfUse::FlagNumber => self.value < u16::from(flags),
            HalfUse::CodeNumber => self.value < u16::from(codes),
            HalfUse::Zero | HalfUse::Operand => true,
        }
    }

    // Whether an operand is below its row.
    pub fn keeps_order(self, row: usize) -> bool
        ensures { result ≡ order_kept row self.of self.value }
    {
        match self.of {
            HalfUse::Operand => usize::from(self.value) < row,
            HalfUse::Zero | HalfUse::FlagNumber | HalfUse::CodeNumber => true,
        }
    }

    // Whether the half names this row as an operand.
    pub fn names(self, row: usize) -> bool
        ensures { result ≡ names_row self.of self.value row }
    {
        match self.of {
            HalfUse::Operand => usize::from(self.value) == row,
            HalfUse::Zero | HalfUse::FlagNumber | HalfUse::CodeNumber => false,
        }
    }
}

// A half that its kind uses stands after a space.
impl fmt::Display for Half {
    ghost output = { λ half. Some (half_text half.of half.value) };

    fn fmt<W: fmt::Write>(&self, f: &mut fmt::Formatter<W>) -> fmt::Result {
        match self.of {
            HalfUse::Zero => Ok(()),
            HalfUse::FlagNumber | HalfUse::CodeNumber | HalfUse::Operand => {
                write!(f, " {}", self.value)
            }
        }
    }
}
