// The three-way scale.
ghost use Rattle.scales.specs.ThreeWay.{three_way, three_way_laws};

use crate::scale::Scale;

// The marks, rising.
#[derive(Clone, Copy, Debug, PartialEq, Eq, PartialOrd, Ord, Hash)]
pub enum ThreeWay {
    No,
    Unknown,
    Yes,
}

impl Scale for ThreeWay {
    ghost ops = { three_way };

    ghost kept = { three_way_laws };

    fn bottom() -> Self {
        Self::No
    }

    fn top() -> Self {
        Self::Yes
    }

    fn complement(self) -> ThreeWay {
        match self {
            ThreeWay::No => ThreeWay::Yes,
            ThreeWay::Unknown => ThreeWay::Unknown,
            ThreeWay::Yes => ThreeWay::No,
        }
    }

    fn meet(self, other: ThreeWay) -> ThreeWay {
        self.min(other)
    }

    fn join(self, other: ThreeWay) -> ThreeWay {
        self.max(other)
    }

    fn reading(code: i8) -> ThreeWay {
        match code {
            1.. => ThreeWay::Yes,
            0 => ThreeWay::Unknown,
            _ => ThreeWay::No,
        }
    }
}
