// The plan's bytes, one after the other: a loop, and where it stands, with room for seven numbers that
// wait, so that a plan of 32,640 sets in a row takes no more of the machine's stack than a stop.
ghost use Rattle.std.specs.Prelude.{◌≡◌, ◌^◌, ◌≤◌, ◌<◌};
ghost use Rattle.knowledge.specs.Goal.{wanted};
ghost use Rattle.plan.specs.Plans.{Lawful};
ghost use Rattle.plan.specs.Check.{check};
ghost use Rattle.question.specs.Question.{system_of};
ghost use Rattle.plancheck.specs.Inner.{answer_of, Ready, Turned};
ghost use Rattle.plancheck.specs.Checks.{Checks};

use crate::reading::read_byte;
use crate::standing::Standing;
use knowledge::{Goal, Knowledge};
use question::Question;
use refusal::Refusal;

// The most bytes that a plan may have: 2^7 branches of 254 acts and a stop.
pub const PLAN_MOST: usize = 32640;

// Where the reading stands after the byte with index `at`.
fn turn(
    n: u8,
    book: &[u8],
    question: Question,
    goal: Goal,
    standing: Standing,
    at: usize,
    byte: u8,
) -> Result<Standing, Refusal>
    requires { (n ≤ 7) × Lawful n (system_of n book.now question (wanted goal)) × Ready n standing }
    ensures { Turned n (system_of n book.now question (wanted goal.entry)) standing at byte result }
{
    let Some(here) = standing.here else {
        return Err(Refusal::LeftOver(at));
    };
    let reading = read_byte(n, book, question, goal, here, at, byte)?;
    Ok(standing.after(reading))
}

// The judgement on a plan's bytes from the knowledge number `start`.
fn walk(
    n: u8,
    book: &[u8],
    question: Question,
    goal: Goal,
    start: u32,
    plan: &[u8],
) -> Result<(), Refusal>
    requires { (n ≤ 7) × Lawful n (system_of n book.now question (wanted goal)) × (start < 7 ^ 7) }
    ensures { result ≡ answer_of (check (system_of n book.now question (wanted goal.entry)) start plan.now) }
{
    let mut standing = Standing::first(start);
    for (at, byte) in plan.iter().enumerate() {
        standing = turn(n, book, question, goal, standing, at, *byte)?;
    }
    match standing.here {
        Some(_) => Err(Refusal::TooSoon(plan.len())),
        None => Ok(()),
    }
}

// Whether the bytes are those of a plan that works for this question, or the first refusal: 6 to 12
// with 31 after 11, then 16 before any byte is read, then the first fault in reading order.
pub fn check(book: &[u8], question: Question, goal: Goal, plan: &[u8]) -> Result<(), Refusal>
    ensures { Checks book.now question (wanted goal.entry) plan.now result }
{
    let size = question::ask(book, question, goal)?;
    if PLAN_MOST < plan.len() {
        return Err(Refusal::PlanLength);
    }
    let start = Knowledge::at_start(question.known, question.values).number();
    walk(size.settings, book, question, goal, start, plan)
}
