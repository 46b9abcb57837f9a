// The bytes of one printed line.
ghost use Rattle.std.specs.Prelude.{◌≡◌, ◌++◌, length, Some, IfOk, OnOk, string_bytes};
ghost use Rattle.report.specs.Lines.{head_text, summary_text, rule_line, refused_line, file_line};

use packs::Summary;
use refusals::Refusal;
use std::alloc::{AllocError, Global};
use std::fmt;
use tables::{Rule, Table};

// Prints the number of rows of a table, its flags used and its codes used.
#[derive(Clone, Copy)]
pub(crate) struct Head<'a>(pub &'a Table);

impl fmt::Display for Head<'_> {
    ghost output = { λ head. Some (head_text (length head.0.now.rows.items) head.0.now.flags head.0.now.codes) };

    fn fmt<W: fmt::Write>(&self, f: &mut fmt::Formatter<W>) -> fmt::Result {
        let table = self.0;
        write!(f, "{} {} {}", table.len(), table.flags, table.codes)
    }
}

// A pack: its rules, the rows of the lawful ones, and how many are refused.
pub fn summary_line(heap: Global, summary: Summary) -> Result<String, AllocError>
    ensures { IfOk result (λ s. string_bytes s ≡ summary_text summary) }
{
    format!(in heap; "{summary}\n")
}

// Appends the line of a lawful rule, so that a listing takes no text of its own for it: its label, its number of rows, its flags used
// and its codes used.
pub(crate) fn append_rule_line(text: &mut String, label: u16, rule: &Rule) -> Result<(), AllocError>
    ensures { OnOk result (string_bytes text.new ≡ string_bytes text.old ++ rule_line label (length rule.now.table.rows.items) rule.now.table.flags rule.now.table.codes) }
{
    let head = Head(rule.table());
    writeln!(text, "{label} {head}")
}

// The line of a lawful rule.
pub fn rule_line(heap: Global, label: u16, rule: &Rule) -> Result<String, AllocError>
    ensures { IfOk result (λ s. string_bytes s ≡ rule_line label (length rule.now.table.rows.items) rule.now.table.flags rule.now.table.codes) }
{
    let mut text = String::new(heap);
    append_rule_line(&mut text, label, rule)?;
    Ok(text)
}

// Appends the line of a refused rule: its label, and the number and the place of the refusal.
pub(crate) fn append_refused_rule_line(
    text: &mut String,
    label: u16,
    refusal: Refusal,
) -> Result<(), AllocError>
    ensures { OnOk result (string_bytes text.new ≡ string_bytes text.old ++ refused_line label refusal.number refusal.place) }
{
    writeln!(text, "{label} {refusal}")
}

// The line of a refused rule.
pub fn refused_rule_line(heap: Global, label: u16, refusal: Refusal) -> Result<String, AllocError>
    ensures { IfOk result (λ s. string_bytes s ≡ refused_line label refusal.number refusal.place) }
{
    let mut text = String::new(heap);
    append_refused_rule_line(&mut text, label, refusal)?;
    Ok(text)
}

// A file that is refused whole: the number and the place of the refusal.
pub fn refused_file_line(heap: Global, refusal: Refusal) -> Result<String, AllocError>
    ensures { IfOk result (λ s. string_bytes s ≡ file_line refusal.number refusal.place) }
{
    format!(in heap; "{refusal}\n")
}
