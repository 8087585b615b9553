// One round: every state of rank h - 1 is found and pushed from.
ghost use Rattle.std.specs.Prelude.{◌≡◌, ◌+◌, ◌^◌, ◌≤◌, ◌<◌};
ghost use Rattle.finder_ranks.specs.Push.{Pushing};
ghost use Rattle.finder_ranks.specs.Round.{Visited, Sweeping, Swept};

use crate::apart::take_apart;
use crate::push::push;
use finder_sides::SIDES;
use ground::SETTINGS_MOST;

// Pushes from the state k along every setting.
fn visit(
    n: usize,
    k: usize,
    h: u8,
    set: &[[u8; SIDES]; SETTINGS_MOST],
    look: &[[u8; SIDES]; SETTINGS_MOST],
    ranks: &mut [u8],
)
    requires { (n ≤ 7) × (k < 7 ^ n) × Pushing n k h ranks.old }
    ensures { Visited n set.now look.now h k n ranks.old ranks.new }
{
    let parts = take_apart(n, k as u32);
    let digits = parts.digits;
    let side = parts.now;
    let mut seven = 1;
    let mut three = 1;
    for i in 0..n {
        push(n, k, side, i, digits[i], seven, three, h, set, look, ranks);
        seven *= 7;
        three *= 3;
    }
}

// Visits the state k if its rank is h - 1; how many states that is.
fn visit_if(
    n: usize,
    k: usize,
    h: u8,
    set: &[[u8; SIDES]; SETTINGS_MOST],
    look: &[[u8; SIDES]; SETTINGS_MOST],
    ranks: &mut [u8],
) -> usize
    requires { Sweeping n h ranks.old × (k < 7 ^ n) }
    ensures { Swept n set.now look.now h k (k + 1) ranks.old ranks.new result }
{
    if ranks[k] != h - 1 {
        return 0;
    }
    visit(n, k, h, set, look, ranks);
    1
}

// Visits each state of rank h - 1 from `at` to before `end`; how many there are.
fn sweep(
    n: usize,
    at: usize,
    end: usize,
    h: u8,
    set: &[[u8; SIDES]; SETTINGS_MOST],
    look: &[[u8; SIDES]; SETTINGS_MOST],
    ranks: &mut [u8],
) -> usize
    requires { Sweeping n h ranks.old × (at ≤ end) × (end ≤ 7 ^ n) }
    ensures { Swept n set.now look.now h at end ranks.old ranks.new result }
{
    let mut found = 0;
    for k in at..end {
        found += visit_if(n, k, h, set, look, ranks);
    }
    found
}

// How many entries are looked at ahead, in one search of the library, which takes many at once.
const STRETCH: usize = 128;

// The same, with a look ahead.
fn block(
    n: usize,
    at: usize,
    end: usize,
    h: u8,
    set: &[[u8; SIDES]; SETTINGS_MOST],
    look: &[[u8; SIDES]; SETTINGS_MOST],
    ranks: &mut [u8],
) -> usize
    requires { Sweeping n h ranks.old × (at ≤ end) × (end ≤ 7 ^ n) }
    ensures { Swept n set.now look.now h at end ranks.old ranks.new result }
{
    if !ranks[at..end].contains(&(h - 1)) {
        return 0;
    }
    sweep(n, at, end, h, set, look, ranks)
}

// Where the stretch that begins at `at` ends.
fn end_of(at: usize, size: usize) -> usize
    requires { at < size }
    ensures { (at < result) × (result ≤ size) }
{
    at + (size - at).min(STRETCH)
}

// Visits each state of rank h - 1 among the first `size`; how many there are.
pub(crate) fn round(
    n: usize,
    size: usize,
    h: u8,
    set: &[[u8; SIDES]; SETTINGS_MOST],
    look: &[[u8; SIDES]; SETTINGS_MOST],
    ranks: &mut [u8],
) -> usize
    requires { Sweeping n h ranks.old × (size ≡ 7 ^ n) }
    ensures { Swept n set.now look.now h 0 size ranks.old ranks.new result }
{
    let mut found = 0;
    let mut at = 0;
    while at < size {
        let end = end_of(at, size);
        found += block(n, at, end, h, set, look, ranks);
        at = end;
    }
    found
}
