// How much a pack has, counted in a look ahead.
ghost use Rattle.std.specs.Prelude.{◌≡◌, ◌≤◌, true, false, Some, IfOk, MatchOption};
ghost use Rattle.packs.specs.Summary.{lawful_rows_in, is_refused, summary_of, printed};

use crate::look::LookAhead;
use crate::reader::PackReader;
use std::alloc::{AllocError, Global};
use std::fmt;
use tables::{Rule, RuleMemory};

#[derive(Clone, Copy, Debug, PartialEq, Eq, Hash)]
pub struct Summary {
    pub rules: usize,
    // The rows of the lawful rules.
    pub rows: usize,
    pub refused: usize,
}

impl fmt::Display for Summary {
    ghost output = { λ summary. Some (printed summary) };

    fn fmt<W: fmt::Write>(&self, f: &mut fmt::Formatter<W>) -> fmt::Result {
        let Summary {
            rules,
            rows,
            refused,
        } = self;
        write!(f, "{rules} rules, {rows} rows, {refused} refused")
    }
}

// The rows of a lawful rule of these bytes, if they are one.
fn lawful_rows(heap: Global, table: &[u8]) -> Result<Option<usize>, AllocError>
    ensures { IfOk result (λ rows. MatchOption rows
        (is_refused table.now ≡ true × lawful_rows_in table.now ≡ 0)
        (λ n. is_refused table.now ≡ false × n ≡ lawful_rows_in table.now × n ≤ 1024)) }
{
    let memory = RuleMemory::reserve(heap)?;
    match Rule::read(table, memory) {
        Ok(rule) => Ok(Some(rule.table().len())),
        Err(_) => Ok(None),
    }
}

impl PackReader<'_> {
    // What there is from the place on. The place stays.
    pub fn summary(&mut self, heap: Global) -> Result<Summary, AllocError>
        ensures value { IfOk result (λ s. s ≡ summary_of self.old.pack.bytes.now self.old.place) }
        ensures place { self.new.place ≡ self.old.place }
        ensures pack { self.new.pack ≡ self.old.pack }
    {
        let pack = self.pack;
        let rules = pack.count().saturating_sub(self.place);
        let mut look = LookAhead::new(&mut self.place);
        let mut rows = 0;
        let mut refused = 0;
        while let Some(table) = look.table(&pack) {
            match lawful_rows(heap, table)? {
                Some(more) => rows += more,
                None => refused += 1,
            }
            look.skip(&pack);
        }
        Ok(Summary {
            rules,
            rows,
            refused,
        })
    }
}
