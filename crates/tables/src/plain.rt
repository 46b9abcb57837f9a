// A plain table: a lawful table without in rows.
ghost use Rattle.std.specs.Prelude.{◌≡◌, ◌≤◌, true, length};
ghost use Rattle.refusals.specs.Answers.{Answers};
ghost use Rattle.tables.specs.Faults.{plain_bytes_fault};
ghost use Rattle.tables.specs.Lawful.{lawful_rows};
ghost use Rattle.tables.specs.declared.form.Form.TheVariants.{Plain};
ghost use Rattle.tables.specs.Reading.{Reads, Both, Same, bytes_of, needed};
ghost use Rattle.tables.specs.Writing.{buffer_fault, written};

use crate::fault::TableFault;
use crate::form::Form;
use crate::memory::PlainMemory;
use crate::read::read_table;
use crate::table::Table;

#[derive(Drop)]
pub struct PlainTable {
    pub table: Table,
    ghost lawful: { lawful_rows Plain table.flags table.codes table.rows.items ≡ true },
    ghost few: { length table.rows.items ≤ 5120 },
}

impl PlainTable {
    // The plain table that these bytes hold.
    pub fn read(bytes: &[u8], memory: PlainMemory) -> Result<PlainTable, TableFault>
        ensures { Answers (plain_bytes_fault bytes.now) result (λ plain. Reads bytes.now plain.table × (bytes_of plain.table ≡ bytes.now)) }
    {
        let table = read_table(Form::Plain, bytes, memory)?;
        Ok(PlainTable { table })
    }

    // Its rows, flags used and codes used.
    pub fn table(&self) -> &Table
        ensures { result.now ≡ self.now.table }
    {
        &self.table
    }

    // The number of its bytes.
    pub fn written_len(&self) -> usize
        ensures { result ≡ needed self.now.table }
    {
        self.table.written_len()
    }

    // Writes its bytes to the start of a buffer, and tells their number.
    pub fn write(&self, buffer: &mut [u8]) -> Result<usize, TableFault>
        ensures value { Answers (buffer_fault (needed self.now.table) buffer.old) result (λ n. (n ≡ needed self.now.table) × Both plain_bytes_fault self.now.table) }
        ensures after { buffer.new ≡ written (needed self.now.table) (bytes_of self.now.table) buffer.old }
    {
        self.table.write(buffer)
    }

    // Writes its bytes to the start of a buffer, and reads them back.
    pub fn write_and_read(
        &self,
        buffer: &mut [u8],
        memory: PlainMemory,
    ) -> Result<PlainTable, TableFault>
        ensures value { Answers (buffer_fault (needed self.now.table) buffer.old) result (λ again. Same again.table self.now.table × Both plain_bytes_fault self.now.table) }
        ensures after { buffer.new ≡ written (needed self.now.table) (bytes_of self.now.table) buffer.old }
    {
        let end = self.write(buffer)?;
        PlainTable::read(&buffer[0..end], memory)
    }
}
