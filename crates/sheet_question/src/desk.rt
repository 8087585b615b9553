// The desk: what is asked so far, by value, with the formulas as their tables.
ghost use Rattle.std.specs.Prelude.{◌≡◌, ℕ, ◌*◌, ◌≤◌, take};
ghost use Rattle.knowledge.specs.Goal.{goal_of, wanted};
ghost use Rattle.sheet_question.specs.Asked.{nothing_asked};
ghost use Rattle.sheet_question.specs.Desk.{AskedOnDesk};

use crate::ASKS_MOST;
use ground::TABLE;
use knowledge::Goal;
use question::Question;

// The bytes of all formulas to learn.
pub(crate) const LEARN: usize = ASKS_MOST * TABLE;

// The line that may come next.
#[derive(Clone, Copy)]
pub enum Due {
    // The team.
    Team,
    // What the team knows.
    Known,
    // Which settings are held, or the make formula.
    Held,
    // The make formula.
    Make,
    // A formula to learn, or the end.
    Asks,
}

// What is asked. Any caller may make one: that it is a question's is what a contract says of it
// (`AskedOnDesk`).
#[derive(Clone, Copy)]
pub struct AskedDesk {
    pub question: Question,
    pub make: [u8; TABLE],
    // How many formulas to learn there are, and their tables one after the other.
    pub asks: u8,
    pub learn: [u8; LEARN],
}

impl AskedDesk {
    // What is asked for, as the finders take it. For this repository alone: a desk that a text has filled counts no more
    // tables than it holds.
    pub fn goal(&self) -> Goal
        requires { self.now.asks ≤ 4 }
        ensures { wanted result ≡ goal_of self.now.make (take (16 * self.now.asks) self.now.learn) }
    {
        Goal {
            make: &self.make,
            learn: &self.learn[..TABLE * (self.asks as usize)],
        }
    }
}

// The desk after a line that is taken, and what is due next.
#[derive(Clone, Copy)]
pub struct Turn {
    pub due: Due,
    pub desk: AskedDesk,
}

// A desk on which nothing is asked.
pub fn nothing_asked() -> AskedDesk
    ensures { (n : ℕ) → 1 ≤ n → n ≤ 7 → AskedOnDesk n nothing_asked result }
{
    AskedDesk {
        question: Question {
            team: 0,
            known: 0,
            values: 0,
            held: 0,
        },
        make: [0u8; TABLE],
        asks: 0,
        learn: [0u8; LEARN],
    }
}
