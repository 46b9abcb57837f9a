// Goes through the rules of a checked pack, one after the other.
ghost use Rattle.std.specs.Prelude.{◌≡◌, nat_lt};
ghost use Rattle.std.specs.Option.{option_map};
ghost use Rattle.refusals.specs.Answers.{Answers};
ghost use Rattle.packs.specs.Format.{rule_count, label_if, table_if};
ghost use Rattle.packs.specs.Reader.{moved, load_fault, loaded, Loaded};

use crate::fault::{PackFault, read_rule};
use crate::pack::Pack;
use tables::{Rule, RuleMemory};

// The place is the number of the rule that comes next.
#[derive(Debug, Drop)]
pub struct PackReader<'a> {
    pub pack: Pack<'a>,
    pub place: usize,
}

impl<'a> PackReader<'a> {
    pub fn new(pack: Pack<'a>) -> PackReader<'a>
        ensures pack { result.pack ≡ pack.entry }
        ensures place { result.place ≡ 0 }
    {
        PackReader { pack, place: 0 }
    }

    // The label of the rule at the place, if there is one.
    pub fn label(&self) -> Option<u16>
        ensures { result ≡ label_if self.now.pack.bytes.now self.now.place }
    {
        self.pack.label(self.place)
    }

    // The bytes of the table of the rule at the place, if there is one: a part of the pack.
    pub fn table(&self) -> Option<&'a [u8]>
        ensures { option_map (λ x. x.now) result ≡ table_if self.now.pack.bytes.now self.now.place }
    {
        self.pack.table(self.place)
    }

    // Goes on by one rule, and tells whether there was one.
    pub fn skip(&mut self) -> bool
        ensures value { result ≡ nat_lt self.old.place (rule_count self.old.pack.bytes.now) }
        ensures place { self.new.place ≡ moved self.old.pack.bytes.now self.old.place }
        ensures pack { self.new.pack ≡ self.old.pack }
    {
        self.pack.step(&mut self.place)
    }

    // Reads the rule at the place and goes on by one. There may be no more; a refused rule leaves the place.
    pub fn load(&mut self, memory: RuleMemory) -> Result<Option<Rule>, PackFault>
        ensures value { Answers (load_fault self.old.pack.bytes.now self.old.place) result (Loaded self.old.pack.bytes.now self.old.place) }
        ensures place { self.new.place ≡ loaded self.old.pack.bytes.now self.old.place }
        ensures pack { self.new.pack ≡ self.old.pack }
    {
        let Some(table) = self.table() else {
            return Ok(None);
        };
        let rule = read_rule(table, self.place, memory)?;
        self.skip();
        Ok(Some(rule))
    }
}
