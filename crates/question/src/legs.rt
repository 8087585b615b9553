// A question of two legs: the second has its own team and goal, and knows and holds what the first does.
ghost use Rattle.knowledge.specs.Goal.{wanted};
ghost use Rattle.question.specs.Legs.{AsksTwo};

use crate::{Question, ask, goal_fits, team_fits};
use book_sound::Size;
use knowledge::Goal;
use refusal::Refusal;

// What the second leg has of its own.
#[derive(Clone, Copy)]
pub struct Leg<'a> {
    pub team: u8,
    pub goal: Goal<'a>,
}

// The book's numbers of settings and posts, or the first of refusals 6 to 12 and 31 of the first leg, then 10
// and 12 of the second.
pub fn ask_two(book: &[u8], question: Question, goal: Goal, leg: Leg) -> Result<Size, Refusal>
    ensures { AsksTwo book.now question (wanted goal.entry) leg.entry.team (wanted leg.entry.goal) result }
{
    let size = ask(book, question, goal)?;
    if !team_fits(size.posts, leg.team) {
        return Err(Refusal::Team);
    }
    if !goal_fits(size.settings, leg.goal) {
        return Err(Refusal::Goal);
    }
    Ok(size)
}
