// The plain table of a rule.
ghost use Rattle.std.specs.Prelude.{◌≡◌, ◌*◌, ◌≤◌, length};
ghost use Rattle.translation.specs.Translation.{translated};

use crate::draft::Draft;
use crate::memory::TranslatorMemory;
use tables::{PlainTable, Rule, Table};

#[derive(Drop)]
pub struct Translation {
    pub table: PlainTable,
    // The number of its rows: a rule of the project is that a translation tells it.
    pub rows: usize,
}

// The plain table of a rule, and the number of its rows.
pub fn translate(rule: &Rule, memory: TranslatorMemory) -> Translation
    ensures rows { result.table.table.rows.items ≡ translated rule.now.table.rows.items }
    ensures flags { result.table.table.flags ≡ rule.now.table.flags }
    ensures codes { result.table.table.codes ≡ rule.now.table.codes }
    ensures told { result.rows ≡ length (translated rule.now.table.rows.items) }
    ensures bound { result.rows ≤ 5 * length rule.now.table.rows.items }
{
    let mut draft = Draft::new(rule, memory);
    draft.copy_scopes(rule);
    draft.write_gates(rule);
    draft.write_rows(rule);
    let Draft { written, .. } = draft;
    let count = written.len();
    let table = Table {
        flags: rule.table.flags,
        codes: rule.table.codes,
        rows: written,
    };
    Translation {
        table: PlainTable { table },
        rows: count,
    }
}
