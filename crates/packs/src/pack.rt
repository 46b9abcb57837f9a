// A checked pack, which borrows its bytes.
ghost use Rattle.std.specs.Prelude.{◌≡◌, ◌<◌, ◌≤◌, nat_lt};
ghost use Rattle.std.specs.List.{between};
ghost use Rattle.std.specs.Option.{option_map};
ghost use Rattle.refusals.specs.Answers.{Answers};
ghost use Rattle.packs.specs.Format.{rule_count, length_of, start_of, label_if, table_if, pack_fault};
ghost use Rattle.packs.specs.Reader.{moved};

use crate::fault::PackFault;
use big_endian::word_at;

#[derive(Clone, Copy, Debug, PartialEq, Eq, Hash)]
pub struct Pack<'a> {
    bytes: &'a [u8],
}

// The bytes from one place to another, as far as there are any.
fn part(bytes: &[u8], start: usize, end: usize) -> &[u8]
    requires { start ≤ end }
    ensures { result.now ≡ between start end bytes.now }
{
    let end = end.min(bytes.len());
    let start = start.min(end);
    &bytes[start..end]
}

impl<'a> Pack<'a> {
    // A view of these bytes, if they are a pack.
    pub fn check(bytes: &'a [u8]) -> Result<Pack<'a>, PackFault>
        ensures { Answers (pack_fault bytes.now) result (λ pack. pack.bytes.now ≡ bytes.now) }
    {
        if bytes.len() < 2 {
            return Err(PackFault::RuleCount);
        }
        let pack = Pack { bytes };
        let count = pack.count();
        if count == 0 || count > 64 {
            return Err(PackFault::RuleCount);
        }
        if bytes.len() < 2 + 4 * count || bytes.len() != pack.start(count) {
            return Err(PackFault::Length);
        }
        Ok(pack)
    }

    // The number of rules.
    pub fn count(&self) -> usize
        ensures value { result ≡ rule_count self.now.bytes.now }
        ensures bound { result < 65536 }
    {
        usize::from(word_at(self.bytes, 0))
    }

    // The length of the table of a rule.
    fn length(&self, rule: usize) -> u16
        requires { rule < 65536 }
        ensures { result ≡ length_of self.now.bytes.now rule }
    {
        word_at(self.bytes, 2 + 2 * self.count() + 2 * rule)
    }

    // Where the table of a rule begins.
    fn start(&self, rule: usize) -> usize
        requires { rule ≤ 65536 }
        ensures value { result ≡ start_of self.now.bytes.now rule }
        ensures bound { result < 8000000000 }
    {
        let tables: usize = (0..rule).map(|k| usize::from(self.length(k))).sum();
        2 + 4 * self.count() + tables
    }

    // The label of a rule, if there is one of this number.
    pub fn label(&self, rule: usize) -> Option<u16>
        ensures { result ≡ label_if self.now.bytes.now rule }
    {
        (rule < self.count()).then(|| word_at(self.bytes, 2 + 2 * rule))
    }

    // The bytes of a rule's table, if there is a rule of this number: a part of the pack.
    pub fn table(&self, rule: usize) -> Option<&'a [u8]>
        ensures { option_map (λ x. x.now) result ≡ table_if self.now.bytes.now rule }
    {
        // `then` was tried: no clause says what the reference is that its closure makes.
        if rule >= self.count() {
            return None;
        }
        let start = self.start(rule);
        let end = start + usize::from(self.length(rule));
        Some(part(self.bytes, start, end))
    }

    // Moves a place on by one rule, and tells whether there was one.
    pub(crate) fn step(&self, place: &mut usize) -> bool
        ensures value { result ≡ nat_lt place.old (rule_count self.now.bytes.now) }
        ensures place { place.new ≡ moved self.now.bytes.now place.old }
    {
        if *place >= self.count() {
            return false;
        }
        *place += 1;
        true
    }
}
