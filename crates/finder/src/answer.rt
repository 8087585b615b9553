// What a question is answered, read off the ranks at its start: "reach" with the least height and the
// plan written, "cannot", or 14.
ghost use Rattle.std.specs.Prelude.{◌^◌, ◌≤◌, ◌<◌, length as size};
ghost use Rattle.plan.specs.Plans.{System};
ghost use Rattle.finder.specs.Tables.{TablesTell};
ghost use Rattle.finder.specs.Answers.{AnswersFrom};

use crate::written::{length, write};
use finder_ranks::NONE;
use finder_sides::SIDES;
use ground::SETTINGS_MOST;
use refusal::Refusal;

// The answer to a valid question.
#[derive(Clone, Copy, Debug, PartialEq, Eq)]
pub enum Answer {
    // A plan of this height, the least, stands in the first `length` bytes of the plan room.
    Reach { height: u8, length: usize },
    // No plan brings it about.
    Cannot,
}

// The answer at the start, by the ranks; a plan is written only where it fits. For this crate alone: the
// tables tell some system, and its ranks are filled in.
pub(crate) fn from_start(
    n: u8,
    set: &[[u8; SIDES]; SETTINGS_MOST],
    look: &[[u8; SIDES]; SETTINGS_MOST],
    ranks: &[u8],
    start: u32,
    plan: &mut [u8],
) -> Result<Answer, Refusal>
    requires { (start < 7 ^ n) × (7 ^ n ≤ size ranks.now) × ((S : System) × TablesTell n set.now look.now ranks.now S) }
    ensures { (S : System) → TablesTell n set.now look.now ranks.now S → AnswersFrom S start plan.old result plan.new }
{
    let height = ranks[start as usize];
    if height == NONE {
        return Ok(Answer::Cannot);
    }
    let bytes = length(n, set, look, ranks, start);
    if plan.len() < bytes {
        return Err(Refusal::PlanRoom);
    }
    write(n, set, look, ranks, start, plan, 0);
    Ok(Answer::Reach {
        height,
        length: bytes,
    })
}
