// A push: from a state of rank h - 1 to the states before it, by acts on one setting. Its functions say in
// which way the lent ranks grew: an entry that held NONE may hold h, and no other changes.
ghost use Rattle.std.specs.Prelude.{◌≡◌, ◌^◌, ◌≤◌, ◌<◌, ltb, length};
ghost use Rattle.ground.specs.Digits.{digit};
ghost use Rattle.finder_sides.specs.Sides.{now_side_number};
ghost use Rattle.finder_sides.specs.Tables.{entry};
ghost use Rattle.finder_ranks.specs.Push.{Pushing, PushedAlong};
ghost use Rattle.finder_ranks.specs.Push.{other, after_offer, Spotted, SetsTo, Beside, Tried, PushedSets, PushedLooks};

use crate::NONE;
use crate::apart::now_of;
use finder_sides::SIDES;
use ground::SETTINGS_MOST;

// A state but for its digit at one setting: the number and the present side that it has with digit 0
// there, and what a step of that digit and of that side counts.
#[derive(Clone, Copy)]
struct Spot {
    rest: usize,
    side: usize,
    seven: usize,
    three: usize,
}

// Whether the table's entry for the setting and the side is not 0.
#[tactic(auto, unfolding(finder_sides::specs::Tables::entry))]
fn may(table: &[[u8; SIDES]; SETTINGS_MOST], i: usize, side: usize) -> bool
    requires { (i < 7) × (side < 2187) }
    ensures { result ≡ ltb 0 (entry table.now i side) }
{
    0 < table[i][side]
}

// Gives the state the rank h, if this is so and it has none yet.
#[tactic(auto, unfolding(crate::specs::Push::after_offer))]
fn give(ranks: &mut [u8], at: usize, h: u8, so: bool)
    requires { at < length ranks.old }
    ensures { ranks.new ≡ after_offer so ranks.old at h }
{
    if so && ranks[at] == NONE {
        ranks[at] = h;
    }
}

// Pushes from k, by a set, to the state with the digit e at the spot.
fn from_digit(
    n: usize,
    k: usize,
    i: usize,
    spot: Spot,
    e: u8,
    h: u8,
    set: &[[u8; SIDES]; SETTINGS_MOST],
    ranks: &mut [u8],
)
    requires { Spotted n k i spot.rest spot.side spot.seven spot.three × Pushing n k h ranks.old × (e < 7) × SetsTo e (digit 7 k i) }
    ensures { Tried n set.now h k i e ranks.old ranks.new }
{
    let at = spot.rest + e as usize * spot.seven;
    let side = spot.side + now_of(e) * spot.three;
    let so = may(set, i, side);
    give(ranks, at, h, so);
}

// By digit: the digit after a set to the value that it does not tell, an entry of paper 01's set table. A set
// to the value that it tells leads back from there. Digit 0 tells none: its entry is that of a set to false.
const OTHER: [u8; 7] = [1, 2, 1, 4, 3, 6, 5];

// The other one of the two digits that sets of the same start side give.
fn other_of(d: u8) -> u8
    requires { d < 7 }
    ensures { result ≡ other d }
{
    OTHER[d as usize]
}

// Pushes to each other state from which a set gives the digit d at the spot. Digits 1 and 2 come from
// 0, 1 and 2, digits 3 and 4 from 3 and 4, digits 5 and 6 from 5 and 6, and no set gives digit 0. The
// state with d itself is k, which has a rank.
fn by_set(
    n: usize,
    k: usize,
    i: usize,
    spot: Spot,
    d: u8,
    h: u8,
    set: &[[u8; SIDES]; SETTINGS_MOST],
    ranks: &mut [u8],
)
    requires { Spotted n k i spot.rest spot.side spot.seven spot.three × Pushing n k h ranks.old × (d ≡ digit 7 k i) }
    ensures { PushedSets n set.now h k i ranks.old ranks.new }
{
    if d == 0 {
        return;
    }
    let other = other_of(d);
    from_digit(n, k, i, spot, other, h, set, ranks);
    if d < 3 {
        from_digit(n, k, i, spot, 0, h, set, ranks);
    }
}

// Pushes to the state with digit 0 at the spot, by a look whose other outcome has the digit e.
fn beside(
    n: usize,
    k: usize,
    i: usize,
    spot: Spot,
    e: u8,
    h: u8,
    look: &[[u8; SIDES]; SETTINGS_MOST],
    ranks: &mut [u8],
)
    requires { Spotted n k i spot.rest spot.side spot.seven spot.three × Pushing n k h ranks.old × (e < 7) × Beside e (digit 7 k i) }
    ensures { PushedLooks n look.now h k i ranks.old ranks.new }
{
    let other = spot.rest + e as usize * spot.seven;
    if ranks[other] < h {
        let so = may(look, i, spot.side);
        give(ranks, spot.rest, h, so);
    }
}

// Pushes to the state from which a look has the digit d as an outcome, if the other outcome has a
// lower entry than h.
fn by_look(
    n: usize,
    k: usize,
    i: usize,
    spot: Spot,
    d: u8,
    h: u8,
    look: &[[u8; SIDES]; SETTINGS_MOST],
    ranks: &mut [u8],
)
    requires { Spotted n k i spot.rest spot.side spot.seven spot.three × Pushing n k h ranks.old × (d ≡ digit 7 k i) }
    ensures { PushedLooks n look.now h k i ranks.old ranks.new }
{
    match d {
        3 => beside(n, k, i, spot, 6, h, look, ranks),
        6 => beside(n, k, i, spot, 3, h, look, ranks),
        _ => {}
    }
}

// The spot of setting i, where k has the digit d.
fn spot_of(n: usize, k: usize, side: usize, i: usize, d: u8, seven: usize, three: usize) -> Spot
    requires { (n ≤ 7) × (k < 7 ^ n) × (side ≡ now_side_number n k) × (i < n) × (d ≡ digit 7 k i) × (seven ≡ 7 ^ i) × (three ≡ 3 ^ i) }
    ensures { Spotted n k i result.rest result.side result.seven result.three }
{
    Spot {
        rest: k - d as usize * seven,
        side: side - now_of(d) * three,
        seven,
        three,
    }
}

// Pushes from the state k along setting i, where k has the digit d. For this crate alone.
pub(crate) fn push(
    n: usize,
    k: usize,
    side: usize,
    i: usize,
    d: u8,
    seven: usize,
    three: usize,
    h: u8,
    set: &[[u8; SIDES]; SETTINGS_MOST],
    look: &[[u8; SIDES]; SETTINGS_MOST],
    ranks: &mut [u8],
)
    requires { Pushing n k h ranks.old × (n ≤ 7) × (k < 7 ^ n) × (side ≡ now_side_number n k) × (i < n) × (d ≡ digit 7 k i) × (seven ≡ 7 ^ i) × (three ≡ 3 ^ i) }
    ensures { PushedAlong n set.now look.now h k i ranks.old ranks.new }
{
    let spot = spot_of(n, k, side, i, d, seven, three);
    by_set(n, k, i, spot, d, h, set, ranks);
    by_look(n, k, i, spot, d, h, look, ranks);
}
