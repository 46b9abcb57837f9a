// A session source over another: its states are those below that are in a scope.
ghost use Rattle.std.specs.Prelude.{◌≡◌, ◌≤◌, length};
ghost use Rattle.rows.specs.Rows.{item_of};
ghost use Rattle.meaning.specs.Meaning.{thinned};
ghost use Rattle.scopes.specs.Answered.{whole};
ghost use Rattle.thinning.specs.Thinned.{states_at};

use crate::memory::ThinnedMemory;
use scopes::Scope;
use sessions::{Session, state_at};

// The positions of the states in scope are found once, when it is made.
#[derive(Drop)]
pub struct Thinned<'a, S> {
    session: &'a S,
    positions: Vec<u16>,
    ghost few: { length positions.items ≤ 65535 },
}

// The positions of the states that are in scope. A filtered range would hold the same test in a closure, and be no plainer.
fn find<S: Session>(session: &S, scope: &Scope, memory: ThinnedMemory) -> Vec<u16>
    ensures states { states_at (S.Session.states session.now) result.items ≡ thinned (whole scope.now.table.rows.items) (S.Session.states session.now) }
    ensures few { length result.items ≤ 65535 }
{
    let mut positions = memory.into_list();
    for position in 0..session.len() {
        let kept = scope.contains(&state_at(session, position));
        if kept {
            positions.push_reserved(position);
        }
    }
    positions
}

impl<'a, S: Session> Thinned<'a, S> {
    pub fn new(session: &'a S, scope: &Scope, memory: ThinnedMemory) -> Thinned<'a, S>
        ensures below { result.session.now ≡ session.now }
        ensures states { states_at (S.Session.states session.now) result.positions.items ≡ thinned (whole scope.now.table.rows.items) (S.Session.states session.now) }
    {
        let positions = find(session, scope, memory);
        Thinned { session, positions }
    }

    // The position below of the state at this position, if there is one.
    fn below(&self, position: u16) -> Option<u16>
        ensures { result ≡ item_of self.now.positions.items position 0 }
    {
        self.positions.get(usize::from(position)).copied()
    }
}

impl<'a, S: Session> Session for Thinned<'a, S> {
    ghost states = { λ t. states_at (S.Session.states t.session.now) t.positions.items };

    fn len(&self) -> u16 {
        self.positions.len() as u16
    }

    fn flags(&self, position: u16) -> u32 {
        self.below(position)
            .map_or(0, |below| self.session.flags(below))
    }

    fn code(&self, position: u16, number: u16) -> i8 {
        self.below(position)
            .map_or(0, |below| self.session.code(below, number))
    }
}
