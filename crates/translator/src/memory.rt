// The memory that a rule is translated in. It is taken here, so that translating itself cannot run out of memory.
ghost use Rattle.std.specs.Prelude.{◌≤◌, IfOk, vec_capacity};

use crate::standing::Standing;
use reserved::Reserved;
use rows::Row;
use std::alloc::{AllocError, Global};

// Room for the longest plain table, and for where the rows of the longest rule stand in it.
#[derive(Drop)]
pub struct TranslatorMemory {
    pub(crate) rows: Reserved<Row, 5120>,
    pub(crate) standings: Reserved<Standing, 1024>,
}

impl TranslatorMemory {
    pub fn reserve(heap: Global) -> Result<TranslatorMemory, AllocError>
        ensures { IfOk result (λ m. (5120 ≤ vec_capacity m.rows.list) × (1024 ≤ vec_capacity m.standings.list)) }
    {
        let rows = Reserved::reserve(heap)?;
        let standings = Reserved::reserve(heap)?;
        Ok(TranslatorMemory { rows, standings })
    }
}
