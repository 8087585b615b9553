// The station on true settings: what the rules of a book allow its posts there, what an act leaves and what
// it shows; and the replay of a recorded shift, act by act, until the first that the rules did not allow. A
// book, a starting valuation and a shift of any content are taken. The replay is refused with the book's 6 to
// 9 or with 26; an act at fault gets 27, 28 or 29, with what was reached before it. Nothing that is lent is
// written to.
#![tactic(auto)]

mod act;
mod judge;
mod record;
mod shift;

pub use record::Running;
pub use shift::{Replayed, replay};
