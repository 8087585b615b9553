// A question to the finder or to the plan check: who asks, what they know, which settings are held, the
// goal, and which of refusals 6 to 12 and 31 it meets. Here a book meets plans: its specs say which acts the book's rules permit and which
// system of plans the question fixes. It writes nothing.
#![tactic(auto)]

mod legs;
mod permit;

ghost use Rattle.std.specs.Prelude.{◌≤◌};
ghost use Rattle.ground.specs.Tells.{Tells};
ghost use Rattle.knowledge.specs.Goal.{wanted};
ghost use Rattle.question.specs.Rows.{TeamFits, KnownFits, HeldFits, LearnWithin, GoalFits};
ghost use Rattle.question.specs.Asks.{Asks};

use book_sound::{Size, sound};
use ground::TABLE;
use knowledge::Goal;
pub use legs::{Leg, ask_two};
pub use permit::permits;
use refusal::Refusal;

// The most learn formulas: "Learn formulas in a goal: 0 to 4".
const LEARN_MOST: usize = 4;

// Who asks, what they know and what is held: bit q of `team` for the post with index q, bit i of `known`
// for setting i, bit i of `values` where it is known to be true, and bit i of `held` where no set act may
// touch it, though looks may.
#[derive(Clone, Copy, Debug, PartialEq, Eq)]
pub struct Question {
    pub team: u8,
    pub known: u8,
    pub values: u8,
    pub held: u8,
}

// Whether the team has a post, and none past the m posts.
fn team_fits(m: u8, team: u8) -> bool
    requires { m ≤ 8 }
    ensures { Tells result (TeamFits m team) }
{
    team != 0 && u16::from(team) >> m == 0
}

// Whether only settings of the n are known, and only known ones have a value.
fn known_fits(n: u8, known: u8, values: u8) -> bool
    requires { n ≤ 7 }
    ensures { Tells result (KnownFits n known values) }
{
    known >> n == 0 && known | values == known
}

// Whether only settings of the n are held.
fn held_fits(n: u8, held: u8) -> bool
    requires { n ≤ 7 }
    ensures { Tells result (HeldFits n held) }
{
    held >> n == 0
}

// Whether the make table and the learn tables are whole and have no bit past 2^n.
fn goal_fits(n: u8, goal: Goal) -> bool
    ensures { Tells result (GoalFits n (wanted goal.entry)) }
{
    goal.make.len() == TABLE
        && goal.learn.len() % TABLE == 0
        && goal.learn.len() / TABLE <= LEARN_MOST
        && ground::within(goal.make, 0, n)
        && learn_within(n, goal.learn)
}

// Whether no learn table has a bit past 2^n.
fn learn_within(n: u8, learn: &[u8]) -> bool
    ensures { Tells result (LearnWithin n learn.now) }
{
    (0..learn.len() / TABLE).all(|j| ground::within(learn, TABLE * j, n))
}

// The book's numbers of settings and posts, or the first of refusals 6 to 12, with 31 between 11 and 12.
pub fn ask(book: &[u8], question: Question, goal: Goal) -> Result<Size, Refusal>
    ensures { Asks book.now question (wanted goal.entry) result }
{
    let size = sound(book)?;
    if !team_fits(size.posts, question.team) {
        return Err(Refusal::Team);
    }
    if !known_fits(size.settings, question.known, question.values) {
        return Err(Refusal::Known);
    }
    if !held_fits(size.settings, question.held) {
        return Err(Refusal::Held);
    }
    if !goal_fits(size.settings, goal) {
        return Err(Refusal::Goal);
    }
    Ok(size)
}
