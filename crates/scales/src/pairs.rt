// The scale of pairs: each part goes by its own scale.
ghost use Rattle.scales.specs.Pairs.{pairs};
ghost use Rattle.scales.specs.Paired.{pair_laws};

use crate::pair::Pair;
use crate::scale::Scale;

impl<A: Scale, B: Scale> Scale for Pair<A, B> {
    ghost ops = { pairs A.Scale.ops B.Scale.ops };

    ghost kept = { pair_laws A.Scale.kept B.Scale.kept };

    fn bottom() -> Pair<A, B> {
        Pair {
            first: A::bottom(),
            second: B::bottom(),
        }
    }

    fn top() -> Pair<A, B> {
        Pair {
            first: A::top(),
            second: B::top(),
        }
    }

    fn complement(self) -> Pair<A, B> {
        Pair {
            first: self.first.complement(),
            second: self.second.complement(),
        }
    }

    fn meet(self, other: Pair<A, B>) -> Pair<A, B> {
        Pair {
            first: self.first.meet(other.first),
            second: self.second.meet(other.second),
        }
    }

    fn join(self, other: Pair<A, B>) -> Pair<A, B> {
        Pair {
            first: self.first.join(other.first),
            second: self.second.join(other.second),
        }
    }

    fn reading(code: i8) -> Pair<A, B> {
        Pair {
            first: A::reading(code),
            second: B::reading(code),
        }
    }
}
