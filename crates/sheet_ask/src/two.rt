// A question of two legs: the ranks of both are filled, the first leg's at the start of the lent table and the second's
// behind them, and the first leg's answer is printed.
ghost use Rattle.std.specs.Prelude.{◌≡◌, ℕ, length};
ghost use Rattle.question.specs.Legs.{ValidLegs};
ghost use Rattle.finder.specs.FindsTwo.{rooms_of, FindsTwo};
ghost use Rattle.sheet_ask.specs.Asks.{PrintsTwo};
ghost use Rattle.sheet_ask.specs.Inner.{Learnt, BothFit, FoundBoth, ToldBoth, question_in, goal_in};

use crate::tell::{refuse, tell};
use finder::Answer;
use finder_ranks::numbers;
use ground::copy;
use plancheck::PLAN_MOST;
use question::Leg;
use refusal::Refusal;
use sheet_question::AskedDesk;

// 7^7: the ranks of seven settings.
const RANKS_MOST: usize = 7 * 7 * 7 * 7 * 7 * 7 * 7;

// Zeros for the second leg's ranks. The length is what lending such an array needs; a function of its own keeps the
// prover from writing it out.
fn ranks_room() -> [u8; RANKS_MOST]
    ensures { 823543 ≡ length result }
{
    [0; RANKS_MOST]
}

// The finder's answer to the legs on the desks, with the plan at the start of its room. What is known and what is held
// is the first desk's.
fn find_legs(
    book: &[u8],
    first: AskedDesk,
    second: AskedDesk,
    ranks: &mut [u8],
    ranks2: &mut [u8],
    plan: &mut [u8],
) -> Result<Answer, Refusal>
    requires { Learnt first × Learnt second }
    ensures { FindsTwo book.now (question_in first) (goal_in first) second.question.team (goal_in second)
        (rooms_of ranks.old ranks2.old plan.old) result (rooms_of ranks.new ranks2.new plan.new) }
{
    finder::find_two(
        book,
        first.question,
        first.goal(),
        Leg {
            team: second.question.team,
            goal: second.goal(),
        },
        ranks,
        ranks2,
        plan,
    )
}

// The answer to valid legs on the desks, where the lent table has room for the ranks of both, `count` of each.
fn find_both(
    book: &[u8],
    settings: u8,
    first: AskedDesk,
    second: AskedDesk,
    count: usize,
    ranks: &mut [u8],
    plan: &mut [u8],
) -> Result<Answer, Refusal>
    requires { BothFit settings book.now first second count ranks.old }
    ensures { FoundBoth settings book.now first second ranks.old plan.old result ranks.new plan.new }
{
    let mut ranks2 = ranks_room();
    let answer = find_legs(book, first, second, ranks, &mut ranks2, plan);
    copy(&ranks2, 0, count, ranks, count);
    answer
}

// What is printed for them.
fn answered_legs(
    book: &[u8],
    settings: u8,
    first: AskedDesk,
    second: AskedDesk,
    count: usize,
    ranks: &mut [u8],
    out: &mut [u8],
) -> usize
    requires { BothFit settings book.now first second count ranks.old }
    ensures { ToldBoth settings book.now first second ranks.old out.old result ranks.new out.new }
{
    let mut plan = [0u8; PLAN_MOST];
    let answer = find_both(book, settings, first, second, count, ranks, &mut plan);
    tell(answer, &plan, out)
}

// What is printed for valid legs on the desks, over a book of this size.
pub(crate) fn answered_two(
    book: &[u8],
    settings: u8,
    first: AskedDesk,
    second: AskedDesk,
    ranks: &mut [u8],
    out: &mut [u8],
) -> usize
    requires { Learnt first × Learnt second × ((m : ℕ) × ValidLegs book.now (question_in first) (goal_in first) second.question.team (goal_in second) settings m) }
    ensures { PrintsTwo settings book.now (question_in first) (goal_in first) second.question.team (goal_in second)
        ranks.old out.old result ranks.new out.new }
{
    let count = numbers(settings);
    if ranks.len() < count {
        return refuse(Refusal::RankRoom(1), out);
    }
    if ranks.len() - count < count {
        return refuse(Refusal::RankRoom(2), out);
    }
    answered_legs(book, settings, first, second, count, ranks, out)
}
