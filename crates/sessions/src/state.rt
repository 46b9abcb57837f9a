// One state of a session.
ghost use Rattle.std.specs.Prelude.{◌≡◌};
ghost use Rattle.sessions.specs.States.{has_flag, code_of};

// A flag word, of which flag p is bit p, and four codes.
#[derive(Clone, Copy, Debug, PartialEq, Eq, Hash)]
pub struct State {
    pub flags: u32,
    pub codes: [i8; 4],
}

impl State {
    // Whether the state has this flag.
    pub fn has_flag(&self, flag: u16) -> bool
        ensures { result ≡ has_flag flag self.now }
    {
        flag < 32 && (self.flags >> flag) % 2 == 1
    }

    // The code of this number, 0 where there is none.
    pub fn code(&self, number: u16) -> i8
        ensures { result ≡ code_of number self.now }
    {
        self.codes.get(usize::from(number)).copied().unwrap_or(0)
    }
}
