// Where a row of a rule stands.
ghost use Rattle.std.specs.Prelude.{◌≡◌};
ghost use Rattle.rows.specs.Homes.{operand_home, left_home, right_home, in_scope, in_scope_of};

use crate::kind::Kind;

// Outside every in row, or in the body or the scope of the in row of this number.
#[derive(Clone, Copy, Debug, PartialEq, Eq, Hash)]
pub enum Home {
    Outside,
    Body(u16),
    Scope(u16),
}

impl Home {
    // The home of an operand of a row of this kind that stands here, if an in row has that operand in `inner`.
    fn operand(self, kind: Kind, inner: Home) -> Home
        ensures { result ≡ operand_home kind inner self }
    {
        match self {
            Home::Outside | Home::Body(_) if kind.is_in() => inner,
            _ => self,
        }
    }

    // The home of the left operand of a row of this kind and number that stands here.
    pub fn left_operand(self, kind: Kind, number: u16) -> Home
        ensures { result ≡ left_home kind number self }
    {
        self.operand(kind, Home::Body(number))
    }

    // The home of its right operand.
    pub fn right_operand(self, kind: Kind, number: u16) -> Home
        ensures { result ≡ right_home kind number self }
    {
        self.operand(kind, Home::Scope(number))
    }

    // A pattern, and no `==`: in the scope of any in row.
    pub fn in_scope(self) -> bool
        ensures { result ≡ in_scope self }
    {
        matches!(self, Home::Scope(_))
    }

    // Whether this is the scope of the in row of this number.
    pub fn in_scope_of(self, number: usize) -> bool
        ensures { result ≡ in_scope_of number self }
    {
        // No `==`, since the two numbers are of different widths.
        matches!(self, Home::Scope(of) if usize::from(of) == number)
    }
}
