// What is in a plain table, row by row.
ghost use Rattle.std.specs.Prelude.{◌≡◌, ◌++◌, true, IfOk, OnOk, string_bytes};
ghost use Rattle.tables.specs.Reading.{bytes_of};
ghost use Rattle.report.specs.Plain.{row_line, table_lines, listing as listing_of};

use crate::line::{Head, refused_file_line};
use files::LONGEST;
use rows::Row;
use std::alloc::{AllocError, Global};
use tables::{PlainMemory, PlainTable, Table, TableFault};

// Appends the line of a row, so that a listing takes no text of its own for it: its number, the word of its kind, and the halves that its
// kind uses.
fn append_row_line(text: &mut String, number: usize, row: Row) -> Result<(), AllocError>
    ensures { OnOk result (string_bytes text.new ≡ string_bytes text.old ++ row_line number row) }
{
    writeln!(text, "{number} {row}")
}

// The line of a row.
pub fn plain_row_line(heap: Global, number: usize, row: Row) -> Result<String, AllocError>
    ensures { IfOk result (λ s. string_bytes s ≡ row_line number row) }
{
    let mut text = String::new(heap);
    append_row_line(&mut text, number, row)?;
    Ok(text)
}

// The first line of a table, and then a line for each row.
fn lines(heap: Global, table: &Table) -> Result<String, AllocError>
    ensures { IfOk result (λ s. string_bytes s ≡ table_lines table.now.flags table.now.codes table.now.rows.items) }
{
    let head = Head(table);
    let mut text = format!(in heap; "{head}\n")?;
    for (number, row) in table.rows.iter().enumerate() {
        append_row_line(&mut text, number, *row)?;
    }
    Ok(text)
}

// Whether the table, written again, has the bytes of the file that it was read from, and is read back.
fn is_written_as(heap: Global, table: &PlainTable, file: &[u8]) -> Result<bool, AllocError>
    requires { bytes_of table.now.table ≡ file.now }
    ensures { IfOk result (λ same. same ≡ true) }
{
    let memory = PlainMemory::reserve(heap)?;
    let mut buffer = vec![in heap; 0; table.written_len()]?;
    match table.write_and_read(&mut buffer, memory) {
        Ok(_) => Ok(buffer.as_slice() == file),
        Err(_) => Ok(false),
    }
}

// What the file of these bytes has: the table row by row, or the one line of a refused table. In the form of `pack_listing`.
pub fn plain_listing(heap: Global, file: &[u8]) -> Result<String, AllocError>
    ensures { IfOk result (λ s. string_bytes s ≡ listing_of file.now) }
{
    if file.len() > LONGEST {
        return refused_file_line(heap, TableFault::Length.into());
    }
    let memory = PlainMemory::reserve(heap)?;
    match PlainTable::read(file, memory) {
        Ok(table) => {
            if !is_written_as(heap, &table, file)? {
                return String::from_str(heap, "the table is written with other bytes\n");
            }
            lines(heap, table.table())
        }
        Err(fault) => refused_file_line(heap, fault.into()),
    }
}
