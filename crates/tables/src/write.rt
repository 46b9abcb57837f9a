// Writing a table into a lent buffer.
ghost use Rattle.std.specs.Prelude.{◌≡◌, ◌+◌, ◌*◌, ◌≤◌, ◌++◌, map, length, drop};
ghost use Rattle.std.specs.List.{flat_map};
ghost use Rattle.refusals.specs.Answers.{Answers};
ghost use Rattle.tables.specs.Format.{half_bytes, kind_number};
ghost use Rattle.tables.specs.Reading.{bytes_of, needed};
ghost use Rattle.tables.specs.Writing.{laid, buffer_fault, written};

use crate::fault::TableFault;
use crate::table::Table;
use rows::Row;

// Lays bytes over the buffer from a place on.
fn put(buffer: &mut [u8], at: usize, bytes: &[u8])
    requires { at + length bytes.now ≤ length buffer.old }
    ensures { buffer.new ≡ laid at bytes.now buffer.old }
{
    buffer[at..at + bytes.len()].copy_from_slice(bytes);
}

// The kinds of all rows, from a place on. One function for kinds and arguments would take a closure that answers `[u8; N]`: a
// bound `Fn` that names a const parameter has no proof today ("the borrow checker does not cover this function yet").
fn put_kinds(buffer: &mut [u8], at: usize, rows: &[Row])
    requires { at + length rows.now ≤ length buffer.old }
    ensures { buffer.new ≡ laid at (map kind_number rows.now) buffer.old }
{
    for (i, row) in rows.iter().enumerate() {
        put(buffer, at + i, &[row.kind.into()]);
    }
}

// The argument of a row: its left half and its right half.
fn argument(row: Row) -> [u8; 4]
    ensures { result ≡ half_bytes row }
{
    let [left_high, left_low] = row.left.to_be_bytes();
    let [right_high, right_low] = row.right.to_be_bytes();
    [left_high, left_low, right_high, right_low]
}

// The arguments of all rows, from a place on.
fn put_arguments(buffer: &mut [u8], at: usize, rows: &[Row])
    requires { at + 4 * length rows.now ≤ length buffer.old }
    ensures { buffer.new ≡ laid at (flat_map half_bytes rows.now) buffer.old }
{
    for (i, row) in rows.iter().enumerate() {
        put(buffer, at + 4 * i, &argument(*row));
    }
}

// The bound on the rows stands in each contract: the inner table is plain, by a rule of the project, and carries no invariant.
impl Table {
    // The number of its bytes.
    pub(crate) fn written_len(&self) -> usize
        requires { length self.now.rows.items ≤ 5120 }
        ensures { result ≡ needed self.now }
    {
        4 + 5 * self.len()
    }

    // Writes its bytes to the start of a buffer that has room for them.
    fn put(&self, buffer: &mut [u8])
        requires few { length self.now.rows.items ≤ 5120 }
        requires room { needed self.now ≤ length buffer.old }
        ensures { buffer.new ≡ bytes_of self.now ++ drop (needed self.now) buffer.old }
    {
        let rows = self.rows.as_slice();
        let [high, low] = (rows.len() as u16).to_be_bytes();
        put(buffer, 0, &[high, low, self.flags, self.codes]);
        put_kinds(buffer, 4, rows);
        put_arguments(buffer, 4 + rows.len(), rows);
    }

    // Writes its bytes to the start of a buffer, and tells their number.
    pub(crate) fn write(&self, buffer: &mut [u8]) -> Result<usize, TableFault>
        requires { length self.now.rows.items ≤ 5120 }
        ensures value { Answers (buffer_fault (needed self.now) buffer.old) result (λ n. n ≡ needed self.now) }
        ensures after { buffer.new ≡ written (needed self.now) (bytes_of self.now) buffer.old }
    {
        let needed = self.written_len();
        if buffer.len() < needed {
            return Err(TableFault::BufferShort(needed));
        }
        self.put(buffer);
        Ok(needed)
    }
}
