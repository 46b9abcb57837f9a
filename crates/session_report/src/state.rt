// The line of one state.
ghost use Rattle.std.specs.Prelude.{◌≡◌, ◌++◌, IfOk, OnOk, string_bytes};
ghost use Rattle.session_report.specs.Listing.{state_line};

use sessions::State;
use std::alloc::{AllocError, Global};

// Appends the line of a state, so that a listing takes no text of its own for it: its number, the flags that it has, and its four codes.
pub(crate) fn append_state_line(
    text: &mut String,
    number: u16,
    state: &State,
) -> Result<(), AllocError>
    ensures { OnOk result (string_bytes text.new ≡ string_bytes text.old ++ state_line number state.now) }
{
    writeln!(text, "{number} {state}")
}

// The line of a state.
pub fn state_line(heap: Global, number: u16, state: &State) -> Result<String, AllocError>
    ensures { IfOk result (λ s. string_bytes s ≡ state_line number state.now) }
{
    let mut text = String::new(heap);
    append_state_line(&mut text, number, state)?;
    Ok(text)
}
