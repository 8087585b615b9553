// The plan check: a book, a question, a goal and the bytes of a plan go in; a bare yes, or the first
// refusal in the written order, comes out: the question's, 6 to 12 and 31, then 16, then 17 to 21 and 32.
// It says yes exactly where the bytes are those of a plan that works. Nothing that is lent is written to.
#![tactic(auto)]

mod reading;
mod standing;
mod walk;

pub use walk::{PLAN_MOST, check};
