// The memory that a table is read into. It is taken here, so that reading itself cannot run out of memory.
ghost use Rattle.std.specs.Prelude.{◌≤◌, IfOk, vec_capacity};

use reserved::Reserved;
use rows::{Home, Row};
use std::alloc::{AllocError, Global};

// Room for the longest rule.
#[derive(Drop)]
pub struct RuleMemory {
    pub(crate) rows: Reserved<Row, 1024>,
    pub(crate) homes: Reserved<Home, 1024>,
}

impl RuleMemory {
    pub fn reserve(heap: Global) -> Result<RuleMemory, AllocError>
        ensures { IfOk result (λ m. (1024 ≤ vec_capacity m.rows.list) × (1024 ≤ vec_capacity m.homes.list)) }
    {
        let rows = Reserved::reserve(heap)?;
        let homes = Reserved::reserve(heap)?;
        Ok(RuleMemory { rows, homes })
    }
}

// Room for the longest plain table.
pub type PlainMemory = Reserved<Row, 5120>;
