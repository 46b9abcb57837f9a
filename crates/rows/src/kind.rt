// The eleven kinds of row, and what each half of a row's argument is for each kind.
ghost use Rattle.std.specs.Prelude.{◌≡◌, Some};
ghost use Rattle.rows.specs.Kinds.{number, word_of, kind_read, left_use, right_use, is_in, may_scope};

use std::fmt;

#[derive(Clone, Copy, Debug, PartialEq, Eq, Hash)]
pub enum Kind {
    Top,
    Flag,
    Code,
    Not,
    And,
    Or,
    Next,
    Until,
    Always,
    Eventually,
    In,
}

// A number that no kind has.
#[derive(Clone, Copy, Debug, PartialEq, Eq, Hash)]
pub struct UnknownKind(pub u8);

// What one half of a row's argument is.
#[derive(Clone, Copy, Debug, PartialEq, Eq, Hash)]
pub enum HalfUse {
    // It has to be 0.
    Zero,
    FlagNumber,
    CodeNumber,
    // The number of an operand row.
    Operand,
}

// The left and the right half by kind, in the order of the kinds' numbers: one of the project's two constant tables by kind.
const HALVES: [(HalfUse, HalfUse); 11] = [
    (HalfUse::Zero, HalfUse::Zero),
    (HalfUse::FlagNumber, HalfUse::Zero),
    (HalfUse::CodeNumber, HalfUse::Zero),
    (HalfUse::Operand, HalfUse::Zero),
    (HalfUse::Operand, HalfUse::Operand),
    (HalfUse::Operand, HalfUse::Operand),
    (HalfUse::Operand, HalfUse::Zero),
    (HalfUse::Operand, HalfUse::Operand),
    (HalfUse::Operand, HalfUse::Zero),
    (HalfUse::Operand, HalfUse::Zero),
    (HalfUse::Operand, HalfUse::Operand),
];

impl TryFrom<u8> for Kind {
    type Error = UnknownKind;

    ghost try_from_gives = { λ number kind. kind ≡ kind_read number };

    fn try_from(number: u8) -> Result<Kind, UnknownKind> {
        match number {
            1 => Ok(Kind::Top),
            2 => Ok(Kind::Flag),
            3 => Ok(Kind::Code),
            4 => Ok(Kind::Not),
            5 => Ok(Kind::And),
            6 => Ok(Kind::Or),
            7 => Ok(Kind::Next),
            8 => Ok(Kind::Until),
            9 => Ok(Kind::Always),
            10 => Ok(Kind::Eventually),
            11 => Ok(Kind::In),
            _ => Err(UnknownKind(number)),
        }
    }
}

impl From<Kind> for u8 {
    ghost from_gives = { λ kind n. n ≡ number kind };

    fn from(kind: Kind) -> u8 {
        kind as u8 + 1
    }
}

impl fmt::Display for Kind {
    ghost output = { λ kind. Some (word_of kind) };

    fn fmt<W: fmt::Write>(&self, f: &mut fmt::Formatter<W>) -> fmt::Result {
        f.write_str(self.word())
    }
}

impl Kind {
    // Beside `Display`, which can fail.
    pub fn word(self) -> &'static str
        ensures { result.now ≡ word_of self }
    {
        match self {
            Kind::Top => "top",
            Kind::Flag => "flag",
            Kind::Code => "code",
            Kind::Not => "not",
            Kind::And => "and",
            Kind::Or => "or",
            Kind::Next => "next",
            Kind::Until => "until",
            Kind::Always => "always",
            Kind::Eventually => "eventually",
            Kind::In => "in",
        }
    }

    // What the left and the right half of a row of this kind are.
    pub fn halves(self) -> (HalfUse, HalfUse)
        ensures left { result.0 ≡ left_use self }
        ensures right { result.1 ≡ right_use self }
    {
        HALVES[self as usize]
    }

    pub fn is_in(self) -> bool
        ensures { result ≡ is_in self }
    {
        self == Kind::In
    }

    // Whether a row of this kind may stand in a scope. Five kinds in one pattern, where `==` would stand five times.
    pub fn may_scope(self) -> bool
        ensures { result ≡ may_scope self }
    {
        matches!(
            self,
            Kind::Top | Kind::Flag | Kind::Not | Kind::And | Kind::Or
        )
    }
}
