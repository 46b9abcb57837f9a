// Where each row of a rule stands, worked out from the last row down.
ghost use Rattle.std.specs.Prelude.{◌≡◌, ◌<◌, ◌≤◌, length, slice_index_or};
ghost use Rattle.rows.specs.Homes.{homes as homes_of, placed, handed};
ghost use Rattle.rows.specs.declared.home.Home.TheVariants.{Outside};

use reserved::Reserved;
use rows::{Half, HalfUse, Home, Row};

// Stores a home for the operand that a half names, if it names one.
fn place(homes: &mut [Home], half: Half, home: Home)
    ensures { homes.new ≡ placed half.of half.value home homes.old }
{
    let at = usize::from(half.value);
    // By index: after `get_mut` of a slice no element of it is known to the proof.
    if half.of == HalfUse::Operand && at < homes.len() {
        homes[at] = home;
    }
}

// Stores the homes of the operands of row `number`, whose own home is known.
fn hand_on(row: Row, number: u16, homes: &mut [Home])
    requires { number < length homes.old }
    ensures { homes.new ≡ handed row number (slice_index_or homes.old number Outside) homes.old }
{
    let here = homes[usize::from(number)];
    let (left, right) = row.halves();
    place(homes, right, here.right_operand(row.kind, number));
    place(homes, left, here.left_operand(row.kind, number));
}

// The home of each row.
pub(crate) fn find_homes<const N: usize>(rows: &[Row], memory: Reserved<Home, N>) -> Vec<Home>
    requires few { length rows.now ≤ 1024 }
    requires room { length rows.now ≤ N }
    ensures { result.items ≡ homes_of rows.now }
{
    let mut homes = memory.filled(rows.len(), Home::Outside);
    for (number, row) in rows.iter().enumerate().rev() {
        hand_on(*row, number as u16, &mut homes);
    }
    homes
}
