// The rank of every knowledge number, the finder's second step. The crate knows what is permitted and
// where the two halves of the goal are settled, as tables over the sides, and nothing of books, rules or
// posts. Of the lent ranks it writes only the first 7^n, and nothing where they do not fit.
#![tactic(auto)]

mod apart;
mod counts;
mod marks;
mod push;
mod round;
mod spread;

ghost use Rattle.ground.specs.Tells.{Tells};
ghost use Rattle.finder_ranks.specs.Fills.{RanksFit, FillsRanks, FillsFirst};

pub use apart::side_of;
pub use counts::numbers;
use finder_sides::SIDES;
use ground::SETTINGS_MOST;
use marks::{mark, unmark};
use spread::spread;

// The entry of a state from which no plan works.
pub const NONE: u8 = 255;

// Whether there is a rank table to fill: one to seven settings, and room for each knowledge number.
fn has_room(n: u8, ranks: &[u8]) -> bool
    ensures { Tells result (RanksFit n ranks.now) }
{
    n != 0 && n as usize <= SETTINGS_MOST && numbers(n) <= ranks.len()
}

// Gives every knowledge number of n settings its rank: the least height of a working plan from it, or
// NONE. An entry of `made`, by present side, and of `learnt`, by start side, is not 0 where that half of
// the goal holds; an entry of `set` and of `look`, by setting and present side, is not 0 where the setting
// may be set, or looked at. Where n is not 1 to 7 or the ranks are under 7^n bytes, they stay as they were.
pub fn fill_ranks(
    n: u8,
    made: &[u8; SIDES],
    learnt: &[u8; SIDES],
    set: &[[u8; SIDES]; SETTINGS_MOST],
    look: &[[u8; SIDES]; SETTINGS_MOST],
    ranks: &mut [u8],
)
    ensures { FillsRanks n made.now learnt.now set.now look.now ranks.old ranks.new }
{
    if !has_room(n, ranks) {
        return;
    }
    mark(n, made, learnt, ranks);
    spread(n, set, look, ranks);
}

// The same for the first of two legs: the goal is settled only where the second leg, by its ranks in
// `ranks2`, has a plan to go on with. Where those are under 7^n bytes too, the ranks stay as they were.
pub fn fill_first(
    n: u8,
    made: &[u8; SIDES],
    learnt: &[u8; SIDES],
    set: &[[u8; SIDES]; SETTINGS_MOST],
    look: &[[u8; SIDES]; SETTINGS_MOST],
    ranks2: &[u8],
    ranks: &mut [u8],
)
    ensures { FillsFirst n made.now learnt.now ranks2.now set.now look.now ranks.old ranks.new }
{
    if !has_room(n, ranks2) || !has_room(n, ranks) {
        return;
    }
    mark(n, made, learnt, ranks);
    unmark(n, ranks2, ranks);
    spread(n, set, look, ranks);
}
