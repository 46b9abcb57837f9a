// Why a sheet or a switch log is refused.
ghost use Rattle.std.specs.Prelude.{◌≡◌};
ghost use Rattle.sessions.specs.Told.{told};

use refusals::{Layer, Refusal};

#[derive(Clone, Copy, Debug, PartialEq, Eq, Hash)]
pub enum SessionFault {
    // The sheet has fewer than two bytes, or not as many as its number of states needs.
    SheetLength,
    // The log's arrays differ in length.
    LogLengths,
    // The flag of this entry is above 31.
    LogFlag(usize),
    // The tick of this entry is below the one before, or not below the number of states.
    LogTick(usize),
}

impl From<SessionFault> for Refusal {
    ghost from_gives = { λ fault refusal. refusal ≡ told fault };

    fn from(fault: SessionFault) -> Refusal {
        let (number, place) = match fault {
            SessionFault::SheetLength => (14, 0),
            SessionFault::LogLengths => (15, 0),
            SessionFault::LogFlag(entry) => (16, entry),
            SessionFault::LogTick(entry) => (17, entry),
        };
        let layer = Layer::Session;
        Refusal {
            number,
            place,
            layer,
        }
    }
}
