// A table over all sides from one over all valuations, eight judgements at once: bit q of a column
// tells what judgement q finds at one valuation, and bit q of an entry tells that it finds the same at
// every valuation that fits the side.
ghost use Rattle.std.specs.Prelude.{◌+◌, ◌^◌, ◌≤◌, ◌<◌};
ghost use Rattle.finder_sides.specs.Fill.{FilledAt, Filled};
ghost use Rattle.finder_sides.specs.Inner.{FilledFrom};

use super::{SIDES, VALUATIONS};
use crate::counts::sides;
use crate::told::{SideTold, told_by};

// The entry of one side. A side with nothing unknown has the column of its valuation; a side with an
// unknown setting is judged from the two sides, both larger, where that setting is false and true.
fn entry_of(n: u8, columns: &[u8; VALUATIONS], table: &[u8; SIDES], side: usize) -> u8
    requires { (n ≤ 7) × (side < 3 ^ n) × FilledFrom n columns.now (side + 1) table.now }
    ensures { FilledAt n columns.now side result }
{
    match told_by(n, side) {
        SideTold::Unknown(power) => table[side + power] & table[side + 2 * power],
        SideTold::Valuation(value) => columns[value],
    }
}

// The table over all sides, in one pass from the highest side down. For this crate alone.
pub(crate) fn fill(n: u8, columns: &[u8; VALUATIONS]) -> [u8; SIDES]
    requires { n ≤ 7 }
    ensures { Filled n columns.now result }
{
    let mut table = [0u8; SIDES];
    for side in (0..sides(n)).rev() {
        table[side] = entry_of(n, columns, &table, side);
    }
    table
}
