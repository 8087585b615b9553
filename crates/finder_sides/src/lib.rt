// Tables over all sides, the finder's first step: which posts of a team may act at each side, and where
// the two halves of a goal are settled. A side tells of each setting whether its value is unknown, false
// or true, so n settings have 3^n of them; what a team may do depends on the present side alone, and
// what it has learnt on the start side alone.
//
// It refuses nothing and is lent nothing to write to: more than seven settings count as seven.
#![tactic(auto)]

mod columns;
mod counts;
mod filled;
mod goal;
mod posts;
mod told;

pub use counts::up_to_seven;
pub use goal::{learnt, made};
pub use posts::posts_allowed;

// The sides of seven settings, 3^7: a table over the sides of fewer settings has the rest unused.
pub const SIDES: usize = 2187;

// The valuations of seven settings, 2^7.
pub const VALUATIONS: usize = 128;
