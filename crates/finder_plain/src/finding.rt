// From a question to its answer: refusals 6 to 12 and 31, then height after height.
ghost use Rattle.std.specs.Prelude.{◌≡◌, suc, ◌-◌, ◌^◌, ◌≤◌};
ghost use Rattle.knowledge.specs.Goal.{wanted};
ghost use Rattle.finder_plain.specs.Asked.{asked_system};
ghost use Rattle.finder_plain.specs.Entries.{Searches};
ghost use Rattle.finder_plain.specs.Finds.{AnswersPlainly, FindsPlain};

use crate::STATES;
use crate::asked::Asked;
use crate::gap::has_gap;
use ground::valuations;
use knowledge::{Goal, Knowledge};
use question::{Question, ask};
use refusal::Refusal;

// The answer to a valid question.
#[derive(Clone, Copy, Debug, PartialEq, Eq)]
pub enum PlainAnswer {
    // A plan of this height works, and none that is lower.
    Reach(u8),
    // No plan works.
    Cannot,
}

// How many heights there are to try, 0 to 2^(n+1) - 2.
fn heights(n: u8) -> u8
    requires { n ≤ 7 }
    ensures { result ≡ 2 ^ suc n - 1 }
{
    2 * (valuations(n) - 1) + 1
}

// The first height at which a plan works from the start, or "cannot". Each entry must already be a height
// below which no plan works.
fn first_height(asked: &Asked, start: u32, entries: &mut [u8; STATES]) -> PlainAnswer
    requires { Searches asked.now.n (asked_system asked.now) start entries.old }
    ensures { AnswersPlainly (asked_system asked.now) start result }
{
    for height in 0..heights(asked.n) {
        let next = height + 1;
        if asked.works_below(start, next, entries) {
            return PlainAnswer::Reach(height);
        }
        if has_gap(asked.n, entries, next) {
            return PlainAnswer::Cannot;
        }
    }
    PlainAnswer::Cannot
}

// "Reach" with the least height, or "cannot"; or the first of refusals 6 to 12, with 31 between 11
// and 12.
pub fn find(book: &[u8], question: Question, goal: Goal) -> Result<PlainAnswer, Refusal>
    ensures { FindsPlain book.now question (wanted goal.entry) result }
{
    let n = ask(book, question, goal)?.settings;
    let start = Knowledge::at_start(question.known, question.values).number();
    let mut entries = [0u8; STATES];
    let asked = Asked {
        n,
        book,
        question,
        goal,
    };
    Ok(first_height(&asked, start, &mut entries))
}
