// The yes/no scale.
ghost use Rattle.std.specs.Prelude.{◌≡◌};
ghost use Rattle.scales.specs.YesNo.{yes_no, yes_no_laws, is_yes, answer};

use crate::scale::Scale;

// The marks, rising.
#[derive(Clone, Copy, Debug, PartialEq, Eq, PartialOrd, Ord, Hash)]
pub enum YesNo {
    No,
    Yes,
}

impl YesNo {
    pub fn is_yes(self) -> bool
        ensures { result ≡ is_yes self }
    {
        self == YesNo::Yes
    }
}

impl From<bool> for YesNo {
    ghost from_gives = { λ yes mark. mark ≡ answer yes };

    fn from(yes: bool) -> YesNo {
        if yes { YesNo::Yes } else { YesNo::No }
    }
}

impl Scale for YesNo {
    ghost ops = { yes_no };

    ghost kept = { yes_no_laws };

    fn bottom() -> Self {
        Self::No
    }

    fn top() -> Self {
        Self::Yes
    }

    fn complement(self) -> YesNo {
        YesNo::from(!self.is_yes())
    }

    fn meet(self, other: YesNo) -> YesNo {
        self.min(other)
    }

    fn join(self, other: YesNo) -> YesNo {
        self.max(other)
    }

    fn reading(code: i8) -> YesNo {
        YesNo::from(code > 0)
    }
}
