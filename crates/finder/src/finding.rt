// From a question to its answer: refusals 6 to 13 and 31, then the three steps.
ghost use Rattle.std.specs.Prelude.{ℕ, ◌^◌, ◌≤◌, length as size};
ghost use Rattle.knowledge.specs.Goal.{wanted};
ghost use Rattle.question.specs.Asks.{ValidQuestion};
ghost use Rattle.finder.specs.Finds.{Answered, Finds};

use crate::answer::{Answer, from_start};
use book_block::Right;
use finder_ranks::{fill_ranks, numbers};
use finder_sides::{learnt, made, posts_allowed};
use knowledge::{Goal, Knowledge};
use question::{Question, ask};
use refusal::Refusal;

// Answers a valid question over n settings: what is permitted and where the goal is settled, at each
// side; the rank of every knowledge number; the answer from the start.
fn search(
    book: &[u8],
    question: Question,
    goal: Goal,
    n: u8,
    ranks: &mut [u8],
    plan: &mut [u8],
) -> Result<Answer, Refusal>
    requires { ((m : ℕ) × ValidQuestion book.now question (wanted goal) n m) × (7 ^ n ≤ size ranks.old) }
    ensures { Answered n book.now question (wanted goal.entry) ranks.old plan.old result ranks.new plan.new }
{
    let set = posts_allowed(book, n, question.team, question.held, Right::Set);
    // "settings held, which no set act may touch though looks may"
    let look = posts_allowed(book, n, question.team, 0, Right::Look);
    let done = made(goal.make, n);
    let known = learnt(goal.learn, n);
    fill_ranks(n, &done, &known, &set, &look, ranks);
    let start = Knowledge::at_start(question.known, question.values).number();
    from_start(n, &set, &look, ranks, start, plan)
}

// "Reach" with the least height and its plan, or "cannot"; or the first of refusals 6 to 14, with 31
// between 11 and 12.
pub fn find(
    book: &[u8],
    question: Question,
    goal: Goal,
    ranks: &mut [u8],
    plan: &mut [u8],
) -> Result<Answer, Refusal>
    ensures { Finds book.now question (wanted goal.entry) ranks.old plan.old result ranks.new plan.new }
{
    let n = ask(book, question, goal)?.settings;
    if ranks.len() < numbers(n) {
        return Err(Refusal::RankRoom(0));
    }
    search(book, question, goal, n, ranks, plan)
}
