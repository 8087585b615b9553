// Whether the goal is settled where the team knows so much.
ghost use Rattle.std.specs.Prelude.{◌≡◌, ◌&&◌, ◌≤◌, leb};
ghost use Rattle.knowledge.specs.Number.{digit_in};
ghost use Rattle.knowledge.specs.Goal.{wanted, all_settled, goal_settled};

use crate::judging::judge;
use crate::valuation::Side;
use ground::TABLE;
use knowledge::{Goal, Knowledge};

// Whether each learn formula has one same value at all start valuations that fit.
fn learnt(n: u8, learn: &[u8], state: Knowledge) -> bool
    requires { n ≤ 7 }
    ensures { result ≡ all_settled n (digit_in state.digits) learn.now }
{
    (0..learn.len() / TABLE).all(|j| judge(state, n, Side::Start, learn, TABLE * j).settles())
}

// Whether the make formula is true at all present valuations that fit, and all is learnt, at the knowledge
// number k. Of more than seven settings nothing is settled.
pub fn is_settled(n: u8, goal: Goal, k: u32) -> bool
    ensures { result ≡ leb n 7 && goal_settled n (wanted goal.entry) k }
{
    let state = Knowledge::from_number(k);
    n as usize <= Knowledge::MOST
        && judge(state, n, Side::Now, goal.make, 0).holds()
        && learnt(n, goal.learn, state)
}
