// Why a call on a sitting is refused.
ghost use Rattle.std.specs.Prelude.{◌≡◌};
ghost use Rattle.sittings.specs.Told.{told};

use refusals::{Layer, Refusal};

#[derive(Clone, Copy, Debug, PartialEq, Eq, Hash)]
pub enum SittingFault {
    // It has 1,024 states already.
    Full,
    // It has no state to take back.
    NoState,
}

impl From<SittingFault> for Refusal {
    ghost from_gives = { λ fault refusal. refusal ≡ told fault };

    fn from(fault: SittingFault) -> Refusal {
        let (number, place) = match fault {
            SittingFault::Full => (18, 1024),
            SittingFault::NoState => (19, 0),
        };
        let layer = Layer::Sitting;
        Refusal {
            number,
            place,
            layer,
        }
    }
}
