// The two halves of a goal at each side: the make formula at present sides, the learn formulas at
// start sides.
ghost use Rattle.std.specs.Prelude.{◌≡◌, ◌*◌, ◌≤◌, min, drop};
ghost use Rattle.finder_sides.specs.Inner.{Settled, Meets, both_of};
ghost use Rattle.finder_sides.specs.Tables.{Made, Learnt};

use crate::columns::columns_of;
use crate::counts::up_to_seven;
use crate::filled::fill;
use crate::{SIDES, VALUATIONS};
use ground::{Present, Start, TABLE};

// For each side 1 where the make formula is true at every present valuation that fits, else 0. More
// than seven settings count as seven.
pub fn made(make: &[u8], n: u8) -> [u8; SIDES]
    ensures { Made (min n 7) make.now result }
{
    let settings = up_to_seven(n);
    fill(
        settings,
        &columns_of(settings, |v| Present(v).finds(make, 0) as u8),
    )
}

// For each side not 0 exactly where the learn formula is settled. A column is 1 where the formula, whose table
// begins at the byte `from`, is true, and 2 where it is false, so that an entry keeps a bit exactly where all
// that fit find the same.
fn settled(learn: &[u8], from: usize, n: u8) -> [u8; SIDES]
    requires { n ≤ 7 }
    ensures { Settled n (drop from learn.now) result }
{
    let found = |v| if Start(v).finds(learn, from) { 1 } else { 2 };
    fill(n, &columns_of(n, found))
}

// 1 where both are not 0, else 0.
#[tactic(auto, unfolding(crate::specs::Inner::both_of))]
fn both(a: u8, b: u8) -> u8
    ensures { result ≡ both_of a b }
{
    (a != 0 && b != 0) as u8
}

// The sides at which both tables have an entry that is not 0.
fn meet(a: &[u8; SIDES], b: &[u8; SIDES]) -> [u8; SIDES]
    ensures { Meets a.now b.now result }
{
    let mut table = [0u8; SIDES];
    for side in 0..SIDES {
        table[side] = both(a[side], b[side]);
    }
    table
}

// For each side 1 where each learn formula has one same value at all start valuations that fit, else
// 0; the learn tables stand one after the other, however many. More than seven settings count as seven.
pub fn learnt(learn: &[u8], n: u8) -> [u8; SIDES]
    ensures { Learnt (min n 7) learn.now result }
{
    let settings = up_to_seven(n);
    let mut table = fill(settings, &[1u8; VALUATIONS]);
    for j in 0..learn.len() / TABLE {
        table = meet(&table, &settled(learn, TABLE * j, settings));
    }
    table
}
