// A sitting: the states of one learner, recorded one by one.
ghost use Rattle.std.specs.Prelude.{◌≡◌, ◌≤◌, [], length, IfOk, vec_capacity};
ghost use Rattle.refusals.specs.Answers.{Checks};
ghost use Rattle.sittings.specs.Sittings.{record_fault, recorded, take_back_fault, taken_back};

use crate::fault::SittingFault;
use crate::list::StateList;
use sessions::{Session, State};
use std::alloc::{AllocError, Global};

const MOST: usize = 1024;

// The sitting is going on.
#[derive(Clone, Copy, Debug, PartialEq, Eq, Hash)]
pub struct Open;

// It is over: it is only marked and read, and there is no call that records into it.
#[derive(Clone, Copy, Debug, PartialEq, Eq, Hash)]
pub struct Closed;

// The memory for all states is taken at opening, so that no later call can run out of it.
#[derive(Debug, Drop)]
pub struct Sitting<P = Open> {
    list: StateList,
    phase: P,
    ghost few: { length list.states.items ≤ 1024 },
    ghost room: { 1024 ≤ vec_capacity list.states },
}

pub type ClosedSitting = Sitting<Closed>;

impl Sitting {
    pub fn open(heap: Global) -> Result<Sitting, AllocError>
        ensures { IfOk result (λ sitting. sitting.list.states.items ≡ []) }
    {
        let states = Vec::with_capacity(heap, MOST)?;
        Ok(Sitting {
            list: StateList { states },
            phase: Open,
        })
    }

    // Adds a state at the end.
    pub fn record(&mut self, state: State) -> Result<(), SittingFault>
        ensures value { Checks (record_fault self.old.list.states.items) result }
        ensures after { self.new.list.states.items ≡ recorded state self.old.list.states.items }
    {
        if self.list.states.len() >= MOST {
            return Err(SittingFault::Full);
        }
        self.list.states.push_reserved(state);
        Ok(())
    }

    // Removes the last state.
    pub fn take_back(&mut self) -> Result<(), SittingFault>
        ensures value { Checks (take_back_fault self.old.list.states.items) result }
        ensures after { self.new.list.states.items ≡ taken_back self.old.list.states.items }
    {
        self.list.states.pop().ok_or(SittingFault::NoState)?;
        Ok(())
    }

    // The same states, to be marked and read only.
    pub fn close(self) -> ClosedSitting
        ensures { result.list.states.items ≡ self.list.states.items }
    {
        let Sitting { list, .. } = self;
        Sitting {
            list,
            phase: Closed,
        }
    }
}

impl<P> Session for Sitting<P> {
    ghost states = { λ sitting. sitting.list.states.items };

    fn len(&self) -> u16 {
        self.list.states.len() as u16
    }

    fn flags(&self, position: u16) -> u32 {
        self.list.flags(position)
    }

    fn code(&self, position: u16, number: u16) -> i8 {
        self.list.code(position, number)
    }
}
