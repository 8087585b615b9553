// What a team can do to one setting: the acts, each with its byte in a plan and whether a book and a
// team have it, and the seven knowledge digits, with what each tells and the digit after an act. A byte
// that names no act is told as such, and what is no digit tells nothing. Nothing is written to what a
// caller lends.
#![tactic(auto)]

mod act;
mod digit;

pub use act::Act;
pub use digit::{after_look, after_set, first_digit, now_side, start_side};
