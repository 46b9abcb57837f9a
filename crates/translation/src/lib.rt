// The translation of rules to plain tables, as a definition, and its laws.
#![tactic(auto)]

ghost use Rattle.std.specs.Prelude.{◌≡◌, ℕ, ◌*◌, ◌≤◌, List, length};
ghost use Rattle.rows.specs.declared.row.Row.{Row};
ghost use Rattle.translation.specs.Translation.{body_rows, translated};

use rows::Kind;

// How many rows are written for a row in a body, by kind, in the order of the kinds' numbers: one of the project's two constant
// tables by kind.
const ROWS_IN_BODY: [u8; 11] = [1, 3, 3, 1, 1, 1, 5, 3, 2, 2, 0];

// How many rows are written for a row of this kind in a body.
pub fn rows_in_body(kind: Kind) -> u8
    ensures written { (r : Row) (n g b a c : ℕ) → length (body_rows kind r n g b a c) ≡ result }
    ensures bound { result ≤ 5 }
    ensures five { (rows : List Row) → length (translated rows) ≤ 5 * length rows }
{
    ROWS_IN_BODY[kind as usize]
}
