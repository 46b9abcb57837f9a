// A look ahead in a pack, which ends where it began.
ghost use Rattle.std.specs.Prelude.{◌≡◌, nat_lt};
ghost use Rattle.std.specs.Option.{option_map};
ghost use Rattle.packs.specs.Format.{rule_count, label_if, table_if};
ghost use Rattle.packs.specs.Reader.{moved};

use crate::pack::Pack;

// Holds a pack reader's place, and puts it back when it ends. A type of its own beside the reader, by a rule of the project: it borrows
// the place alone, and is lent the pack.
pub struct LookAhead<'b> {
    place: &'b mut usize,
    start: usize,
}

impl Drop for LookAhead<'_> {
    fn drop(self)
        ensures { self.exit.0.now ≡ self.entry.start }
    {
        let LookAhead { place, start } = self;
        *place = start;
    }
}

impl<'b> LookAhead<'b> {
    pub fn new(place: &'b mut usize) -> LookAhead<'b>
        ensures start { result.start ≡ place.old }
        ensures place { result.place.now ≡ place.old }
        ensures name { result.place.ghost_name ≡ place.entry.ghost_name }
    {
        let start = *place;
        LookAhead { place, start }
    }

    // The label of the rule at the place, if there is one.
    pub fn label(&self, pack: &Pack<'_>) -> Option<u16>
        ensures { result ≡ label_if pack.now.bytes.now self.now.place.now }
    {
        pack.label(*self.place)
    }

    // The bytes of the table of the rule at the place, if there is one: a part of the pack.
    pub fn table<'a>(&self, pack: &Pack<'a>) -> Option<&'a [u8]>
        ensures { option_map (λ x. x.now) result ≡ table_if pack.now.bytes.now self.now.place.now }
    {
        pack.table(*self.place)
    }

    // Goes on by one rule, and tells whether there was one.
    pub fn skip(&mut self, pack: &Pack<'_>) -> bool
        ensures value { result ≡ nat_lt self.old.place.now (rule_count pack.now.bytes.now) }
        ensures place { self.new.place.now ≡ moved pack.now.bytes.now self.old.place.now }
        ensures start { self.new.start ≡ self.old.start }
        ensures name { self.new.place.ghost_name ≡ self.old.place.ghost_name }
    {
        pack.step(self.place)
    }
}
