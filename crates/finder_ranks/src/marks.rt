// The states in which the goal is settled, marked in the rank table by their knowledge numbers.
ghost use Rattle.std.specs.Prelude.{◌≡◌, ◌+◌, ◌*◌, ◌-◌, ◌^◌, ◌≤◌, ◌<◌, length};
ghost use Rattle.finder_sides.specs.Tables.{goal_at};
ghost use Rattle.finder_ranks.specs.Marks.{mark_of, mark_at, mark_then, Stored, Marks, Unmarked};

use crate::NONE;
use crate::apart::{now_of, start_of, take_apart};
use crate::counts::numbers;
use finder_sides::SIDES;

// The mark of a state: 0 where both halves of the goal hold, else NONE.
#[tactic(auto, unfolding(crate::specs::Marks::mark_of))]
fn mark_of(made: u8, learnt: u8) -> u8
    ensures { result ≡ mark_of made learnt }
{
    if made != 0 && learnt != 0 { 0 } else { NONE }
}

// How many digits a setting may have.
const DIGITS: u8 = 7;

// The states that differ in setting 0 alone stand together, as many.
const TOGETHER: usize = DIGITS as usize;

// The seven states that differ in setting 0 alone: `rest` has the digits of the other settings.
fn mark_seven(n: u8, rest: usize, made: &[u8; SIDES], learnt: &[u8; SIDES], ranks: &mut [u8])
    requires { (0 < n) × (n ≤ 7) × (rest < 7 ^ (n - 1)) × (7 ^ n ≤ length ranks.old) }
    ensures { Stored (mark_at n made.now learnt.now) (rest * 7) (rest * 7 + 7) ranks.old ranks.new }
{
    let parts = take_apart((n - 1) as usize, rest as u32);
    let now = parts.now * 3;
    let start = parts.start * 3;
    for digit in 0..DIGITS {
        let done = made[now + now_of(digit)];
        let known = learnt[start + start_of(digit)];
        ranks[rest * TOGETHER + digit as usize] = mark_of(done, known);
    }
}

// Marks each of the 7^n knowledge numbers: 0 where the goal is settled, else NONE. All later bytes stay as
// they were. For this crate alone.
pub(crate) fn mark(n: u8, made: &[u8; SIDES], learnt: &[u8; SIDES], ranks: &mut [u8])
    requires { (0 < n) × (n ≤ 7) × (7 ^ n ≤ length ranks.old) }
    ensures { Marks n (goal_at n made.now learnt.now) ranks.old ranks.new }
{
    for rest in 0..numbers(n - 1) {
        mark_seven(n, rest, made, learnt, ranks);
    }
}

// The mark of a state of a first leg: NONE where the second leg has no rank there, else the one it had.
#[tactic(auto, unfolding(crate::specs::Marks::mark_then))]
fn mark_then(rank2: u8, mark: u8) -> u8
    ensures { result ≡ mark_then rank2 mark }
{
    if rank2 == NONE { NONE } else { mark }
}

// Takes the mark from each of the 7^n knowledge numbers from which the second leg's ranks know no plan. All
// later bytes stay as they were. For this crate alone.
pub(crate) fn unmark(n: u8, ranks2: &[u8], ranks: &mut [u8])
    requires { (n ≤ 7) × (7 ^ n ≤ length ranks2.now) × (7 ^ n ≤ length ranks.old) }
    ensures { Unmarked n ranks2.now ranks.old ranks.new }
{
    for k in 0..numbers(n) {
        ranks[k] = mark_then(ranks2[k], ranks[k]);
    }
}
