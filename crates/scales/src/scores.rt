// The scale of scores.
ghost use Rattle.scales.specs.Scores.{scores};
ghost use Rattle.scales.specs.SameScore.{score_laws};

use crate::scale::Scale;
use crate::score::Score;

impl Scale for Score {
    ghost ops = { scores };

    ghost kept = { score_laws };

    fn bottom() -> Score {
        Score { value: -100 }
    }

    fn top() -> Score {
        Score { value: 100 }
    }

    fn complement(self) -> Score {
        Score { value: -self.value }
    }

    fn meet(self, other: Score) -> Score {
        self.min(other)
    }

    fn join(self, other: Score) -> Score {
        self.max(other)
    }

    fn reading(code: i8) -> Score {
        Score {
            value: code.clamp(-100, 100),
        }
    }
}
