// The text of a formula: the first look over its bytes, which gives 2 or 3, and the reader of a sum, which
// gives its truths and where it ends, or the place where no sentence goes on. Every function takes any text,
// and nothing is written to what a caller lends.
#![tactic(auto)]

mod parts;
mod signs;

pub use parts::{Part, sum};
pub use signs::{is_letter, scan};
