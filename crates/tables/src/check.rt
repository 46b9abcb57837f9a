// What is checked of a rule beyond its single rows.
ghost use Rattle.std.specs.Prelude.{◌≡◌, ◌<◌, ◌≤◌, length};
ghost use Rattle.refusals.specs.Answers.{Checks};
ghost use Rattle.rows.specs.Rows.{uses as uses_of};
ghost use Rattle.rows.specs.Homes.{scope_size, homes as homes_of};
ghost use Rattle.tables.specs.Faults.{use_fault, scope_kind_fault, scope_size_fault, rule_fault};

use crate::fault::TableFault;
use refusals::refuse_first;
use rows::{Home, Row};

// How often a row is an operand.
fn uses(rows: &[Row], number: usize) -> usize
    requires { length rows.now ≤ 1024 }
    ensures { result ≡ uses_of rows.now number }
{
    rows.iter().map(|row| usize::from(row.uses(number))).sum()
}

// How many rows stand in the scope of an in row.
fn count_scope(homes: &[Home], number: usize) -> usize
    ensures { result ≡ scope_size number homes.now }
{
    homes.iter().filter(|home| home.in_scope_of(number)).count()
}

// A row is an operand exactly once.
fn use_fault(rows: &[Row], i: usize) -> Option<TableFault>
    requires { length rows.now ≤ 1024 }
    ensures { result ≡ use_fault rows.now i }
{
    (uses(rows, i) != 1).then_some(TableFault::NotOneUse(i))
}

// A row that stands in a scope is of a kind that may.
fn scope_kind_fault(rows: &[Row], homes: &[Home], i: usize) -> Option<TableFault>
    requires rows { i < length rows.now }
    requires homes { i < length homes.now }
    ensures { result ≡ scope_kind_fault rows.now homes.now i }
{
    (homes[i].in_scope() && !rows[i].kind.may_scope()).then_some(TableFault::ScopeKind(i))
}

// The scope of an in row has at most 64 rows.
fn scope_size_fault(rows: &[Row], homes: &[Home], i: usize) -> Option<TableFault>
    requires { i < length rows.now }
    ensures { result ≡ scope_size_fault rows.now homes.now i }
{
    (rows[i].kind.is_in() && count_scope(homes, i) > 64).then_some(TableFault::ScopeSize(i))
}

pub(crate) fn check_rule(rows: &[Row], homes: &[Home]) -> Result<(), TableFault>
    requires some { 0 < length rows.now }
    requires few { length rows.now ≤ 1024 }
    requires known { homes.now ≡ homes_of rows.now }
    ensures { Checks (rule_fault rows.now) result }
{
    refuse_first(rows.len() - 1, |i| use_fault(rows, i))?;
    refuse_first(rows.len(), |i| scope_kind_fault(rows, homes, i))?;
    refuse_first(rows.len(), |i| scope_size_fault(rows, homes, i))
}
