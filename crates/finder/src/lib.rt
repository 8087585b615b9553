// The finder: a book, a team, what it knows, what is held and a goal go in; "reach" with the least height and a
// plan, or "cannot", come out, as `Answer`. A question that is not valid, or a rank table that is too
// short, is refused, by the first refusal in the written order, and leaves the lent rank table and plan
// room as they were. A valid question fills the first 7^n bytes of the rank table with the ranks of all
// knowledge numbers, and a success the first bytes of the plan room with the plan; 14 leaves the plan
// room as it was, and no other byte is touched.
//
// It goes in three steps: which acts are permitted at each side and where the goal is settled
// (`finder_sides`), all ranks filled (`finder_ranks`), the answer from the start (here). `find_two` answers a
// question of two legs: the second leg's ranks are filled first, in a rank table of their own, and the first
// leg's goal is settled only where they tell of a plan.
#![tactic(auto)]

mod answer;
mod finding;
mod steps;
mod two;
mod written;

pub use answer::Answer;
pub use finding::find;
pub use two::find_two;
