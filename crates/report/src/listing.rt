// What is in a pack, line by line.
ghost use Rattle.std.specs.Prelude.{◌≡◌, ◌+◌, ◌<◌, ◌++◌, IfOk, string_bytes, OnOk};
ghost use Rattle.packs.specs.Format.{rule_count, label_of};
ghost use Rattle.report.specs.Listing.{line_at, lines_of, listing};

use crate::line::{append_refused_rule_line, append_rule_line, refused_file_line, summary_line};
use files::LONGEST;
use packs::{Pack, PackFault, PackReader};
use std::alloc::{AllocError, Global};
use tables::RuleMemory;

// Appends the line of the rule at the reader's place, which has this label. The reader goes on by one.
fn append_next(
    text: &mut String,
    heap: Global,
    label: u16,
    reader: &mut PackReader<'_>,
) -> Result<(), AllocError>
    requires there { reader.old.place < rule_count reader.old.pack.bytes.now }
    requires label { label ≡ label_of reader.old.pack.bytes.now reader.old.place }
    ensures value { OnOk result (string_bytes text.new ≡ string_bytes text.old ++ line_at reader.old.pack.bytes.now reader.old.place) }
    ensures place { OnOk result (reader.new.place ≡ reader.old.place + 1) }
    ensures pack { reader.new.pack ≡ reader.old.pack }
{
    let memory = RuleMemory::reserve(heap)?;
    match reader.load(memory) {
        Ok(Some(rule)) => append_rule_line(text, label, &rule),
        Ok(None) => Ok(()),
        Err(fault) => {
            reader.skip();
            append_refused_rule_line(text, label, fault.into())
        }
    }
}

// The summary of a pack, and then the lines of all rules, in pack order.
fn lines(heap: Global, pack: Pack<'_>) -> Result<String, AllocError>
    ensures { IfOk result (λ s. string_bytes s ≡ lines_of pack.entry.bytes.now) }
{
    let mut reader = PackReader::new(pack);
    let mut text = summary_line(heap, reader.summary(heap)?)?;
    while let Some(label) = reader.label() {
        append_next(&mut text, heap, label, &mut reader)?;
    }
    Ok(text)
}

// What the file of these bytes has: a summary and a line for each rule of the pack, or the one line of a refused pack.
// The listings of tables and sheets have this form too. One function for all would take the check, its refusal of a long file, and the
// list as closures, and a table's check takes memory first: it would be longer than the three.
pub fn pack_listing(heap: Global, file: &[u8]) -> Result<String, AllocError>
    ensures { IfOk result (λ s. string_bytes s ≡ listing file.now) }
{
    if file.len() > LONGEST {
        return refused_file_line(heap, PackFault::Length.into());
    }
    match Pack::check(file) {
        Ok(pack) => lines(heap, pack),
        Err(fault) => refused_file_line(heap, fault.into()),
    }
}
