// Why a table is refused.
ghost use Rattle.std.specs.Prelude.{◌≡◌};
ghost use Rattle.tables.specs.Told.{told};

use refusals::{Layer, Refusal};

#[derive(Clone, Copy, Debug, PartialEq, Eq, Hash)]
pub enum TableFault {
    // Fewer than four bytes.
    Short,
    // The number of rows is 0 or above its limit.
    RowCount,
    // More than 32 flags used.
    FlagsUsed,
    // More than 4 codes used.
    CodesUsed,
    // The length is not 4 + 5 × rows.
    Length,
    // The kind of this row is unknown.
    UnknownKind(usize),
    // A half of this row has to be 0 and is not.
    HalfNotZero(usize),
    // A flag or code number of this row is not below the number used.
    NumberNotUsed(usize),
    // An operand of this row is not below it.
    OperandNotBelow(usize),
    // This row, which is not the last, is not an operand exactly once.
    NotOneUse(usize),
    // This row stands in a scope, and its kind may not.
    ScopeKind(usize),
    // The scope of this in row has more than 64 rows.
    ScopeSize(usize),
    // The table has this many bytes, and the buffer has fewer.
    BufferShort(usize),
}

impl From<TableFault> for Refusal {
    ghost from_gives = { λ fault refusal. refusal ≡ told fault };

    fn from(fault: TableFault) -> Refusal {
        let (number, place) = match fault {
            TableFault::Short => (1, 0),
            TableFault::RowCount => (2, 0),
            TableFault::FlagsUsed => (3, 2),
            TableFault::CodesUsed => (3, 3),
            TableFault::Length => (4, 4),
            TableFault::UnknownKind(row) => (5, row),
            TableFault::HalfNotZero(row) => (6, row),
            TableFault::NumberNotUsed(row) => (7, row),
            TableFault::OperandNotBelow(row) => (8, row),
            TableFault::NotOneUse(row) => (9, row),
            TableFault::ScopeKind(row) => (10, row),
            TableFault::ScopeSize(row) => (11, row),
            TableFault::BufferShort(needed) => (22, needed),
        };
        let layer = Layer::Table;
        Refusal {
            number,
            place,
            layer,
        }
    }
}
