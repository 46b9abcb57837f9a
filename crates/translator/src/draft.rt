// A plain table that is being written.
ghost use Rattle.std.specs.Prelude.{◌≤◌, length, vec_capacity};

use crate::standing::Standing;
use rows::Row;

// The rows written so far, and where each rule row stands among them.
#[derive(Drop)]
pub(crate) struct Draft {
    pub(crate) written: Vec<Row>,
    pub(crate) standings: Vec<Standing>,
    ghost room: { 5120 ≤ vec_capacity written },
    ghost few: { length written.items ≤ 5120 },
}
