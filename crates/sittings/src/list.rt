// The states of a sitting, open or closed.
ghost use Rattle.std.specs.Prelude.{◌≡◌};
ghost use Rattle.sessions.specs.States.{flags_at, code_at};

use sessions::State;

#[derive(Debug, Drop)]
pub struct StateList {
    pub states: Vec<State>,
}

impl StateList {
    // The flag word at a position, 0 past the end.
    pub fn flags(&self, position: u16) -> u32
        ensures { result ≡ flags_at self.now.states.items position }
    {
        let state = self.states.get(usize::from(position));
        state.map_or(0, |state| state.flags)
    }

    // The code of this number at a position, 0 past the end or for a number above 3.
    pub fn code(&self, position: u16, number: u16) -> i8
        ensures { result ≡ code_at self.now.states.items position number }
    {
        let state = self.states.get(usize::from(position));
        state.map_or(0, |state| state.code(number))
    }
}
