// From a question of two legs to its answer: the ranks of the second leg, then those of the first, whose
// goal is settled only where the second has a rank; and the answer from the start.
ghost use Rattle.std.specs.Prelude.{ℕ, ◌^◌, ◌≤◌, length as size};
ghost use Rattle.knowledge.specs.Goal.{wanted};
ghost use Rattle.question.specs.Question.{system_of};
ghost use Rattle.question.specs.Asks.{ValidQuestion};
ghost use Rattle.question.specs.Legs.{ValidLegs};
ghost use Rattle.finder.specs.Finds.{RanksFilled};
ghost use Rattle.finder.specs.FindsTwo.{rooms_of, RoomForTwo, AnsweredTwo, FindsTwo};

use crate::answer::{Answer, from_start};
use book_block::Right;
use finder_ranks::{fill_first, fill_ranks, numbers};
use finder_sides::{learnt, made, posts_allowed};
use knowledge::{Goal, Knowledge};
use question::{Leg, Question, ask_two};
use refusal::Refusal;

// Fills in the ranks of a valid question over n settings, all of them, and looks for no plan.
fn fill_leg(book: &[u8], question: Question, goal: Goal, n: u8, ranks: &mut [u8])
    requires { ((m : ℕ) × ValidQuestion book.now question (wanted goal) n m) × (7 ^ n ≤ size ranks.old) }
    ensures { RanksFilled n (system_of n book.now question (wanted goal.entry)) ranks.old ranks.new }
{
    let set = posts_allowed(book, n, question.team, question.held, Right::Set);
    let look = posts_allowed(book, n, question.team, 0, Right::Look);
    let done = made(goal.make, n);
    let known = learnt(goal.learn, n);
    fill_ranks(n, &done, &known, &set, &look, ranks);
}

// Answers a valid question of two legs over n settings. The first leg goes as in `search`, but its goal is
// settled only where the second leg has a rank.
fn search_two(
    book: &[u8],
    question: Question,
    goal: Goal,
    leg: Leg,
    n: u8,
    ranks: &mut [u8],
    ranks2: &mut [u8],
    plan: &mut [u8],
) -> Result<Answer, Refusal>
    requires { ((m : ℕ) × ValidLegs book.now question (wanted goal) leg.team (wanted leg.goal) n m)
        × RoomForTwo n (rooms_of ranks.old ranks2.old plan.old) }
    ensures { AnsweredTwo n book.now question (wanted goal.entry) leg.entry.team (wanted leg.entry.goal)
        (rooms_of ranks.old ranks2.old plan.old) result (rooms_of ranks.new ranks2.new plan.new) }
{
    let second = Question {
        team: leg.team,
        known: question.known,
        values: question.values,
        held: question.held,
    };
    fill_leg(book, second, leg.goal, n, ranks2);
    let set = posts_allowed(book, n, question.team, question.held, Right::Set);
    let look = posts_allowed(book, n, question.team, 0, Right::Look);
    let done = made(goal.make, n);
    let known = learnt(goal.learn, n);
    fill_first(n, &done, &known, &set, &look, ranks2, ranks);
    let start = Knowledge::at_start(question.known, question.values).number();
    from_start(n, &set, &look, ranks, start, plan)
}

// "Reach" with the least height of a first leg and its plan, or "cannot"; or the first of refusals 6 to 12
// and 31 of the first leg, 10 and 12 of the second, 13 with place 1 or 2 for the
// first short table, and 14.
pub fn find_two(
    book: &[u8],
    question: Question,
    goal: Goal,
    leg: Leg,
    ranks: &mut [u8],
    ranks2: &mut [u8],
    plan: &mut [u8],
) -> Result<Answer, Refusal>
    ensures { FindsTwo book.now question (wanted goal.entry) leg.entry.team (wanted leg.entry.goal)
        (rooms_of ranks.old ranks2.old plan.old) result (rooms_of ranks.new ranks2.new plan.new) }
{
    let n = ask_two(book, question, goal, leg)?.settings;
    let count = numbers(n);
    if ranks.len() < count {
        return Err(Refusal::RankRoom(1));
    }
    if ranks2.len() < count {
        return Err(Refusal::RankRoom(2));
    }
    search_two(book, question, goal, leg, n, ranks, ranks2, plan)
}
