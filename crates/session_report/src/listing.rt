// What is in a session, state by state.
ghost use Rattle.std.specs.Prelude.{◌≡◌, IfOk, string_bytes};
ghost use Rattle.session_report.specs.Listing.{session_lines, listing as listing_of};

use crate::state::append_state_line;
use files::LONGEST;
use report::refused_file_line;
use sessions::{Session, SessionFault, Sheet, state_at};
use std::alloc::{AllocError, Global};

// A line for each state of a session.
pub fn session_listing<S: Session>(heap: Global, session: &S) -> Result<String, AllocError>
    ensures { IfOk result (λ s. string_bytes s ≡ session_lines (S.Session.states session.now)) }
{
    let mut text = String::new(heap);
    for number in 0..session.len() {
        let state = state_at(session, number);
        append_state_line(&mut text, number, &state)?;
    }
    Ok(text)
}

// What the file of these bytes has: a line for each state of the sheet, or the one line of a refused sheet. In the form of
// `report::pack_listing`.
pub fn sheet_listing(heap: Global, file: &[u8]) -> Result<String, AllocError>
    ensures { IfOk result (λ s. string_bytes s ≡ listing_of file.now) }
{
    if file.len() > LONGEST {
        return refused_file_line(heap, SessionFault::SheetLength.into());
    }
    match Sheet::check(file) {
        Ok(sheet) => session_listing(heap, &sheet),
        Err(fault) => refused_file_line(heap, fault.into()),
    }
}
