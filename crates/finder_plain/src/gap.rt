// What ends a "cannot" before the last height: a gap, a value below the start's entry that no state has. Each
// act from a state above it has an outcome above it, so that no plan works from there.
ghost use Rattle.std.specs.Prelude.{◌≡◌, ◌^◌, ◌≤◌, length};
ghost use Rattle.finder_plain.specs.Gaps.{SeenBelow, FindsGap};

use crate::STATES;

// How many values an entry can have.
const VALUES: usize = 256;

// The knowledge numbers of n settings, 7^n.
fn numbers(n: u8) -> usize
    requires { n ≤ 7 }
    ensures { result ≡ 7 ^ n }
{
    7usize.pow(n as u32)
}

// Which values the first entries have.
fn seen(entries: &[u8; STATES], count: usize) -> [bool; VALUES]
    requires { (length entries.now ≡ 823543) × (count ≤ 823543) }
    ensures { SeenBelow entries.now count result }
{
    let mut found = [false; VALUES];
    for entry in &entries[..count] {
        found[*entry as usize] = true;
    }
    found
}

// Whether there is a value below `top` that no state of n settings has. For this crate alone.
pub(crate) fn has_gap(n: u8, entries: &[u8; STATES], top: u8) -> bool
    requires { (length entries.now ≡ 823543) × (n ≤ 7) }
    ensures { FindsGap n entries.now top result }
{
    let found = seen(entries, numbers(n));
    found[..top as usize].contains(&false)
}
