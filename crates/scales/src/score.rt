// A score: a whole number from -100 to 100.
ghost use Rattle.std.specs.Prelude.{◌≡◌, pos, negsuc, ◌≤ℤ◌};

#[derive(Clone, Copy, Debug, PartialEq, Eq, PartialOrd, Ord, Hash)]
pub struct Score {
    pub(crate) value: i8,
    ghost low: { negsuc 99 ≤ℤ value },
    ghost high: { value ≤ℤ pos 100 },
}

impl Score {
    pub fn value(self) -> i8
        ensures { result ≡ self.value }
    {
        self.value
    }
}
