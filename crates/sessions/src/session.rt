// What a session source is.
ghost use Rattle.std.specs.Prelude.{◌≡◌, List, length, slice_index_or};
ghost use Rattle.sessions.specs.States.{no_state, flags_at, code_at, Alike};
ghost use Rattle.sessions.specs.declared.state.State.{State as StateRecord};

use crate::state::State;

// A source of the states of one session, of which there are at most 65,535. It is asked by position, so who goes through a session
// goes over its positions.
pub trait Session {
    ghost states: { Self → List StateRecord };

    // The number of states.
    fn len(&self) -> u16
        ensures { result ≡ length (states self.now) };

    // The flag word at a position, 0 past the end.
    fn flags(&self, position: u16) -> u32
        ensures { result ≡ flags_at (states self.now) position };

    // The code of this number at a position, 0 past the end or for a number above 3.
    fn code(&self, position: u16, number: u16) -> i8
        ensures { result ≡ code_at (states self.now) position number };
}

// The state at a position, all 0 past the end.
pub fn state_at<S: Session>(session: &S, position: u16) -> State
    ensures { Alike result (slice_index_or (S.Session.states session.now) position no_state) }
{
    State {
        flags: session.flags(position),
        codes: [
            session.code(position, 0),
            session.code(position, 1),
            session.code(position, 2),
            session.code(position, 3),
        ],
    }
}
