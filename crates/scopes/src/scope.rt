// A scope, and whether a state is in it.
ghost use Rattle.std.specs.Prelude.{◌≡◌, ◌-◌, ◌≤◌, true, length};
ghost use Rattle.meaning.specs.Formulas.{formula_at};
ghost use Rattle.meaning.specs.Meaning.{in_scope};
ghost use Rattle.tables.specs.Lawful.{lawful_rows};
ghost use Rattle.tables.specs.declared.form.Form.TheVariants.{Rule as RuleForm};
ghost use Rattle.scopes.specs.Answered.{whole};
ghost use Rattle.scopes.specs.Ruled.{ScopeRoot, all_may_scope};

use rows::{Kind, Row};
use sessions::State;
use tables::Table;

// A scope by itself: rows of the kinds that may stand in a scope, the last being the whole.
#[derive(Drop)]
pub struct Scope {
    pub table: Table,
    ghost lawful: { lawful_rows RuleForm table.flags table.codes table.rows.items ≡ true },
    ghost kinds: { all_may_scope table.rows.items ≡ true },
    ghost few: { length table.rows.items ≤ 64 },
}

// Whether the scope with the row of this number at its root is yes on the state alone. Operands have lower numbers: the format of a
// table names them so, and a scope is worked out on its rows as they stand.
pub(crate) fn holds(rows: &[Row], number: usize, state: &State) -> bool
    requires { ScopeRoot rows.now number }
    ensures { result ≡ in_scope (formula_at rows.now number) state.now }
{
    let row = rows[number];
    let left = usize::from(row.left);
    let right = usize::from(row.right);
    match row.kind {
        Kind::Top => true,
        Kind::Flag => state.has_flag(row.left),
        Kind::Not => !holds(rows, left, state),
        Kind::And => holds(rows, left, state) & holds(rows, right, state),
        Kind::Or => holds(rows, left, state) | holds(rows, right, state),
        _ => false,
    }
}

impl Scope {
    // Whether a state is in the scope.
    pub fn contains(&self, state: &State) -> bool
        ensures { result ≡ in_scope (whole self.now.table.rows.items) state.now }
    {
        let rows = self.table.rows.as_slice();
        let last = rows.len() - 1;
        holds(rows, last, state)
    }
}
