// One step of the plan written: at a state, the act with the smallest byte whose outcomes all have a
// lower rank, or a stop. The two tables have, for each setting and present side, a bit for each post
// of the team that may set it, or look at it.
ghost use Rattle.std.specs.Prelude.{◌≡◌, ◌^◌, ◌≤◌, ◌<◌, T, length};
ghost use Rattle.ground.specs.Digits.{bit};
ghost use Rattle.ground.specs.Search.{Least};
ghost use Rattle.knowledge_acts.specs.declared.act.Act.TheVariants.{Set, Look};
ghost use Rattle.plan.specs.Plans.{System};
ghost use Rattle.finder_sides.specs.Sides.{now_side_number};
ghost use Rattle.finder.specs.Tables.{TablesTell, Tries, family, Chooses};

use finder_sides::SIDES;
use ground::SETTINGS_MOST;
use knowledge::{Knowledge, look_at, set_to};
use knowledge_acts::Act;

// A kind of act and a setting make a pair, with the number kind × SETTINGS + setting: sets to false come
// first, then sets to true, from SETTINGS on, then looks, from LOOKS on.
const SETTINGS: u8 = SETTINGS_MOST as u8;

const LOOKS: u8 = 2 * SETTINGS;

const PAIRS: u8 = 3 * SETTINGS;

// The lowest post of a mask that is not empty.
fn lowest(posts: u8) -> u8
    requires { posts ≡ 0 → ⊥ }
    ensures { Least (λ q. T (bit posts q)) result × (result < 8) }
{
    posts.trailing_zeros() as u8
}

// Setting i to the value, by the lowest post that may, where that leads to a lower rank.
fn set_step(
    n: u8,
    set: &[[u8; SIDES]; SETTINGS_MOST],
    look: &[[u8; SIDES]; SETTINGS_MOST],
    ranks: &[u8],
    k: u32,
    side: usize,
    i: u8,
    value: bool,
) -> Option<Act>
    requires { (n ≤ 7) × (k < 7 ^ n) × (7 ^ n ≤ length ranks.now) × (side ≡ now_side_number n k) × (i < n) }
    ensures { (S : System) → TablesTell n set.now look.now ranks.now S → Tries S ranks.now k (λ q. Set i q value) result }
{
    let posts = set[i as usize][side];
    if posts == 0 {
        return None;
    }
    let next = set_to(k, i, value);
    if ranks[next as usize] < ranks[k as usize] {
        return Some(Act::Set {
            setting: i,
            post: lowest(posts),
            value,
        });
    }
    None
}

// Looking at setting i, by the lowest post that may, where both outcomes have a lower rank.
fn look_step(
    n: u8,
    set: &[[u8; SIDES]; SETTINGS_MOST],
    look: &[[u8; SIDES]; SETTINGS_MOST],
    ranks: &[u8],
    k: u32,
    side: usize,
    i: u8,
) -> Option<Act>
    requires { (n ≤ 7) × (k < 7 ^ n) × (7 ^ n ≤ length ranks.now) × (side ≡ now_side_number n k) × (i < n) }
    ensures { (S : System) → TablesTell n set.now look.now ranks.now S → Tries S ranks.now k (λ q. Look i q) result }
{
    if Knowledge::from_number(k).digit(i) != 0 {
        return None;
    }
    let posts = look[i as usize][side];
    if posts == 0 {
        return None;
    }
    let no = look_at(k, i, false);
    let yes = look_at(k, i, true);
    let rank = ranks[k as usize];
    if rank <= ranks[no as usize] {
        return None;
    }
    if rank <= ranks[yes as usize] {
        return None;
    }
    Some(Act::Look {
        setting: i,
        post: lowest(posts),
    })
}

// The step with the lowest post of one kind and setting.
fn step_of(
    n: u8,
    set: &[[u8; SIDES]; SETTINGS_MOST],
    look: &[[u8; SIDES]; SETTINGS_MOST],
    ranks: &[u8],
    k: u32,
    side: usize,
    pair: u8,
) -> Option<Act>
    requires { (n ≤ 7) × (k < 7 ^ n) × (7 ^ n ≤ length ranks.now) × (side ≡ now_side_number n k) × (pair < 21) }
    ensures { (S : System) → TablesTell n set.now look.now ranks.now S → Tries S ranks.now k (family pair) result }
{
    let i = pair % SETTINGS;
    if n <= i {
        return None;
    }
    if pair < SETTINGS {
        return set_step(n, set, look, ranks, k, side, i, false);
    }
    if pair < LOOKS {
        return set_step(n, set, look, ranks, k, side, i, true);
    }
    look_step(n, set, look, ranks, k, side, i)
}

// The step that the plan written takes at the state k. For this crate alone: k is a state of n settings,
// and the rank table holds them all.
pub(crate) fn choose(
    n: u8,
    set: &[[u8; SIDES]; SETTINGS_MOST],
    look: &[[u8; SIDES]; SETTINGS_MOST],
    ranks: &[u8],
    k: u32,
) -> Option<Act>
    requires { (n ≤ 7) × (k < 7 ^ n) × (7 ^ n ≤ length ranks.now) }
    ensures { (S : System) → TablesTell n set.now look.now ranks.now S → Chooses S ranks.now k result }
{
    let side = finder_ranks::side_of(n, k);
    for pair in 0..PAIRS {
        if let Some(act) = step_of(n, set, look, ranks, k, side, pair) {
            return Some(act);
        }
    }
    None
}
