// Why a marking is refused.
ghost use Rattle.std.specs.Prelude.{◌≡◌};
ghost use Rattle.marking.specs.Told.{told};

use refusals::{Layer, Refusal};

#[derive(Clone, Copy, Debug, PartialEq, Eq, Hash)]
pub enum MarkingFault {
    // The strip has fewer marks than this, two for each row.
    StripShort(usize),
}

impl From<MarkingFault> for Refusal {
    ghost from_gives = { λ fault refusal. refusal ≡ told fault };

    fn from(fault: MarkingFault) -> Refusal {
        match fault {
            MarkingFault::StripShort(needed) => Refusal {
                number: 20,
                place: needed,
                layer: Layer::Marking,
            },
        }
    }
}
