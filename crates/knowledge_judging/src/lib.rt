// What follows from what a team knows, worked out one valuation after the other: how a table is judged, and
// whether a whole goal is settled. The plan check judges by it. It knows no book: a rule
// is a table. Of more settings than seven every judgement is neither. It refuses nothing and writes nothing.
#![tactic(auto)]

mod goal;
mod judging;
mod masks;
mod valuation;

pub use goal::is_settled;
pub use judging::judge;
pub use valuation::Side;
