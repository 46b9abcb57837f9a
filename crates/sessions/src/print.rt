// How a state is printed.
ghost use Rattle.std.specs.Prelude.{Some};
ghost use Rattle.sessions.specs.Printed.{flags_or_none, state_text};

use crate::state::State;
use std::fmt;

// Prints the flags that a state has, each after a space.
#[derive(Clone, Copy)]
struct Flags<'a>(&'a State);

impl fmt::Display for Flags<'_> {
    ghost output = { λ flags. Some (flags_or_none flags.0.now) };

    fn fmt<W: fmt::Write>(&self, f: &mut fmt::Formatter<W>) -> fmt::Result {
        let state = self.0;
        if state.flags == 0 {
            return write!(f, " none");
        }
        for flag in 0..32 {
            if state.has_flag(flag) {
                write!(f, " {flag}")?;
            }
        }
        Ok(())
    }
}

// The flags that a state has, and its four codes.
impl fmt::Display for State {
    ghost output = { λ state. Some (state_text state) };

    fn fmt<W: fmt::Write>(&self, f: &mut fmt::Formatter<W>) -> fmt::Result {
        write!(
            f,
            "flags{} codes {} {} {} {}",
            Flags(self),
            self.code(0),
            self.code(1),
            self.code(2),
            self.code(3)
        )
    }
}
