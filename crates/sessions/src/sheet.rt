// A session on a sheet of bytes, which are borrowed.
ghost use Rattle.std.specs.Prelude.{◌≡◌};
ghost use Rattle.refusals.specs.Answers.{Answers};
ghost use Rattle.sessions.specs.Faults.{sheet_fault};
ghost use Rattle.sessions.specs.Sheets.{sheet_states};

use crate::fault::SessionFault;
use crate::session::Session;
use big_endian::{byte_at, long_at, word_at};

#[derive(Clone, Copy, Debug, PartialEq, Eq, Hash)]
pub struct Sheet<'a> {
    bytes: &'a [u8],
}

impl<'a> Sheet<'a> {
    // A view of these bytes, if they are a sheet.
    pub fn check(bytes: &'a [u8]) -> Result<Sheet<'a>, SessionFault>
        ensures { Answers (sheet_fault bytes.now) result (λ sheet. sheet.bytes.now ≡ bytes.now) }
    {
        if bytes.len() < 2 || bytes.len() != 2 + 8 * usize::from(word_at(bytes, 0)) {
            return Err(SessionFault::SheetLength);
        }
        Ok(Sheet { bytes })
    }
}

impl<'a> Session for Sheet<'a> {
    ghost states = { λ sheet. sheet_states sheet.bytes.now };

    fn len(&self) -> u16 {
        word_at(self.bytes, 0)
    }

    fn flags(&self, position: u16) -> u32 {
        if position >= self.len() {
            return 0;
        }
        long_at(self.bytes, 2 + 4 * usize::from(position))
    }

    fn code(&self, position: u16, number: u16) -> i8 {
        let count = self.len();
        if position >= count || number > 3 {
            return 0;
        }
        let codes = 2 + 4 * usize::from(count);
        let at = codes + 4 * usize::from(position) + usize::from(number);
        i8::from_be_bytes([byte_at(self.bytes, at)])
    }
}
