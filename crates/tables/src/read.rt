// Reading what a rule and a plain table have in common.
ghost use Rattle.std.specs.Prelude.{◌≡◌, ◌+◌, ◌*◌, ◌<◌, ◌≤◌, true, length};
ghost use Rattle.refusals.specs.Answers.{Answers, Checks};
ghost use Rattle.refusals.specs.First.{first_from};
ghost use Rattle.tables.specs.Faults.{size_fault, length_fault, row_fault, fault_at, table_fault};
ghost use Rattle.tables.specs.Reading.{Reads, bytes_of};
ghost use Rattle.tables.specs.Format.{limit, row_at, rows_in};
ghost use Rattle.tables.specs.Lawful.{lawful_rows};

use crate::fault::TableFault;
use crate::form::Form;
use crate::table::Table;
use big_endian::word_at;
use reserved::Reserved;
use rows::{Kind, Row};

// The form of a table, and its four size bytes.
#[derive(Clone, Copy, Debug, PartialEq, Eq, Hash)]
pub struct Head {
    pub form: Form,
    pub rows: usize,
    pub flags: u8,
    pub codes: u8,
}

impl Head {
    fn check(self) -> Result<(), TableFault>
        ensures { Checks (size_fault self.form self.rows self.flags self.codes) result }
    {
        if self.rows == 0 || self.rows > self.form.limit() {
            return Err(TableFault::RowCount);
        }
        if self.flags > 32 {
            return Err(TableFault::FlagsUsed);
        }
        if self.codes > 4 {
            return Err(TableFault::CodesUsed);
        }
        Ok(())
    }

    fn check_length(self, bytes: usize) -> Result<(), TableFault>
        requires { self.rows < 65536 }
        ensures { Checks (length_fault self.rows bytes) result }
    {
        if bytes != 5 * self.rows {
            return Err(TableFault::Length);
        }
        Ok(())
    }

    fn check_row(self, i: usize, row: Row) -> Result<(), TableFault>
        ensures { Checks (row_fault self.form self.flags self.codes i row) result }
    {
        let (left, right) = row.halves();
        if !self.form.knows(row.kind) {
            return Err(TableFault::UnknownKind(i));
        }
        if !(left.keeps_zero() && right.keeps_zero()) {
            return Err(TableFault::HalfNotZero(i));
        }
        if !(left.keeps_number(self.flags, self.codes)
            && right.keeps_number(self.flags, self.codes))
        {
            return Err(TableFault::NumberNotUsed(i));
        }
        if !(left.keeps_order(i) && right.keeps_order(i)) {
            return Err(TableFault::OperandNotBelow(i));
        }
        Ok(())
    }

    // Row i in the bytes after the sizes. Inlined, since it is the whole of the loop over a table's rows.
    #[inline(always)]
    fn read_row(self, rest: &[u8], i: usize) -> Result<Row, TableFault>
        requires { (i < self.rows) × (length rest.now ≡ 5 * self.rows) }
        ensures { Answers (fault_at self.form self.rows self.flags self.codes rest.now i) result (λ row. row ≡ row_at rest.now self.rows i) }
    {
        let kind = Kind::try_from(rest[i]).map_err(|_| TableFault::UnknownKind(i))?;
        let at = self.rows + 4 * i;
        // Four bytes, so that reading a half needs no test of how many there are.
        let argument = &rest[at..at + 4];
        let left = word_at(argument, 0);
        let right = word_at(argument, 2);
        let row = Row { kind, left, right };
        self.check_row(i, row)?;
        Ok(row)
    }

    // All rows in the bytes after the sizes.
    fn read_rows<const N: usize>(
        self,
        rest: &[u8],
        memory: Reserved<Row, N>,
    ) -> Result<Vec<Row>, TableFault>
        requires room { self.rows ≤ N }
        requires sized { length rest.now ≡ 5 * self.rows }
        ensures { Answers (first_from (fault_at self.form self.rows self.flags self.codes rest.now) 0 self.rows) result (λ rows. rows.items ≡ rows_in rest.now self.rows) }
    {
        let mut rows = memory.into_list();
        // By number, and not over the bytes: a row's bytes stand at two places.
        for i in 0..self.rows {
            rows.push_reserved(self.read_row(rest, i)?);
        }
        Ok(rows)
    }
}

// The table of this form that these bytes hold.
pub(crate) fn read_table<const N: usize>(
    form: Form,
    bytes: &[u8],
    memory: Reserved<Row, N>,
) -> Result<Table, TableFault>
    requires { limit form ≤ N }
    ensures { Answers (table_fault form bytes.now) result (λ t. Reads bytes.now t × (bytes_of t ≡ bytes.now) × (lawful_rows form t.flags t.codes t.rows.items ≡ true) × (length t.rows.items ≤ limit form)) }
{
    let [high, low, flags, codes, rest @ ..] = bytes else {
        return Err(TableFault::Short);
    };
    let (flags, codes) = (*flags, *codes);
    let head = Head {
        form,
        rows: usize::from(u16::from_be_bytes([*high, *low])),
        flags,
        codes,
    };
    head.check()?;
    head.check_length(rest.len())?;
    let rows = head.read_rows(rest, memory)?;
    Ok(Table { flags, codes, rows })
}
