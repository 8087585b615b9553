// What a team knows: a state of one digit for each setting, its number, and what an act makes of it; and the
// three things that a judgement of a table can say. Its specs also say what is known and when a goal is
// settled: knowledge_judging and finder_sides have the code. It refuses nothing and writes nothing.
#![tactic(auto)]

mod acts;
mod goal;
mod judgement;
mod state;

pub use acts::{look_at, set_to};
pub use goal::Goal;
pub use judgement::Judgement;
pub use state::Knowledge;
