// What is told of every refusal: its number, the place it names, and the layer that refuses.
#![tactic(auto)]

ghost use Rattle.std.specs.Prelude.{ℕ, ◌<◌, Some, Option};
ghost use Rattle.refusals.specs.Answers.{Checks};
ghost use Rattle.refusals.specs.First.{Tells, first_from};
ghost use Rattle.refusals.specs.Printed.{printed};

use std::fmt;

#[derive(Clone, Copy, Debug, PartialEq, Eq, Hash)]
pub enum Layer {
    Table,
    Pack,
    Session,
    Sitting,
    Marking,
}

// The number is told and printed, and means nothing in code: which refusal it is, is a case of a fault.
#[derive(Clone, Copy, Debug, PartialEq, Eq, Hash)]
pub struct Refusal {
    pub number: u8,
    pub place: usize,
    pub layer: Layer,
}

// The number and the place, as the programs print them.
impl fmt::Display for Refusal {
    ghost output = { λ refusal. Some (printed refusal) };

    fn fmt<W: fmt::Write>(&self, f: &mut fmt::Formatter<W>) -> fmt::Result {
        write!(f, "! {} {}", self.number, self.place)
    }
}

// Refuses where a check finds a fault at one of the places from 0 on, `count` in all, with the first that it finds.
pub fn refuse_first<F, C: Fn(usize) -> Option<F>>(count: usize, check: C) -> Result<(), F>
    requires { (place : ℕ) → place < count → C.pre check place }
    ensures { (found : ℕ → Option F) → Tells (C.post check) count found → Checks (first_from found 0 count) result }
{
    for place in 0..count {
        if let Some(fault) = check(place) {
            return Err(fault);
        }
    }
    Ok(())
}
