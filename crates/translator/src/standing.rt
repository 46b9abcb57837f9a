// Where the rows of a rule stand in a draft.
ghost use Rattle.std.specs.Prelude.{◌≡◌, length};
ghost use Rattle.translation.specs.Translation.{empty_draft};
ghost use Rattle.translator.specs.Drafts.{drafted, standing_of, placed, gated};

use crate::draft::Draft;
use crate::memory::TranslatorMemory;
use tables::Rule;

// Where the result, the gate and the bar of a rule row stand among the rows written. What is not known yet is 0,
// and no `None`: a place is looked up for either half of a row, also where the half is no operand and the answer is not used.
#[derive(Clone, Copy, Debug, Default, PartialEq, Eq, Hash)]
pub(crate) struct Standing {
    pub(crate) place: u16,
    pub(crate) gate: u16,
    pub(crate) bar: u16,
}

impl Draft {
    // The draft of a rule before anything is known.
    pub(crate) fn new(rule: &Rule, memory: TranslatorMemory) -> Draft
        ensures { drafted result ≡ empty_draft (length rule.now.table.rows.items) }
    {
        let TranslatorMemory { rows, standings } = memory;
        Draft {
            written: rows.into_list(),
            standings: standings.filled(rule.table.len(), Standing::default()),
        }
    }

    // Where the row of this number stands; nothing is known past the last row.
    pub(crate) fn standing(&self, number: u16) -> Standing
        ensures { result ≡ standing_of (drafted self.now) number }
    {
        self.standings
            .get(usize::from(number))
            .copied()
            .unwrap_or_default()
    }

    // The row of this number, if there is one, has its result at this place.
    pub(crate) fn set_place(&mut self, number: usize, place: u16)
        ensures { drafted self.new ≡ placed number place (drafted self.old) }
    {
        if let Some(standing) = self.standings.get_mut(number) {
            standing.place = place;
        }
    }

    // The row of this number, if there is one, has its gate and its bar at these places.
    pub(crate) fn set_gate(&mut self, number: usize, gate: u16, bar: u16)
        ensures { drafted self.new ≡ gated number gate bar (drafted self.old) }
    {
        if let Some(standing) = self.standings.get_mut(number) {
            standing.gate = gate;
            standing.bar = bar;
        }
    }
}
