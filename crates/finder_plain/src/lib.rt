// The plain finder: a second way to an answer, without a rank table. A book, a team, what it knows, what
// is held and a goal go in; "reach" with the least height, or "cannot", come out, as `PlainAnswer`. A question that is not
// valid is refused, by the first of refusals 6 to 12 and 31. It is lent no table and writes nothing.
//
// It tries heights 0, 1, 2 and so on up to 2^(n+1) - 2, forwards from the start knowledge, and judges each
// act by the question's rules at the state where it is tried. For each state it remembers, in its own frame,
// a height below which no plan works from there. With that it takes less than 1 MiB of the machine's stack:
// a byte for each of the 7^7 states, and less than 300 bytes for each of at most 255 heights.
#![tactic(auto)]

mod acts;
mod ahead;
mod asked;
mod finding;
mod gap;
mod may;
mod search;

pub use finding::{PlainAnswer, find};

// The knowledge numbers of seven settings, 7^7: a byte is kept for each.
pub(crate) const STATES: usize = 823543;
