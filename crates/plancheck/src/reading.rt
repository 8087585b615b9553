// What one byte of a plan comes to at a knowledge number.
ghost use Rattle.std.specs.Prelude.{◌≡◌, ◌^◌, ◌≤◌, ◌<◌};
ghost use Rattle.ground.specs.Digits.{digit};
ghost use Rattle.knowledge_acts.specs.Acts.{setting_of, offered};
ghost use Rattle.knowledge.specs.Goal.{wanted};
ghost use Rattle.plan.specs.Check.{outcomes, read_act, read_byte};
ghost use Rattle.question.specs.Permitted.{permitted};
ghost use Rattle.question.specs.Question.{system_of};
ghost use Rattle.plancheck.specs.Reading.{left_by, reading_of};

use knowledge::{Goal, Knowledge, look_at, set_to};
use knowledge_acts::Act;
use knowledge_judging::is_settled;
use plan::Permit;
use question::{Question, permits};
use refusal::Refusal;

// What a byte without a fault leaves to be read.
#[derive(Clone, Copy)]
pub enum ByteReading {
    // A stop where the goal is settled: this branch is whole.
    Stops,
    // A permitted set: the plan goes on at this number.
    Goes(u32),
    // A permitted look: the plan goes on at the false outcome, and after that at the true one.
    Parts(u32, u32),
}

// The numbers after an act that may be done.
fn outcomes_of(k: u32, act: Act) -> ByteReading
    requires { (k < 7 ^ 7) × (setting_of act < 7) }
    ensures { result ≡ left_by (outcomes k act) }
{
    match act {
        Act::Set { setting, value, .. } => ByteReading::Goes(set_to(k, setting, value)),
        Act::Look { setting, .. } => {
            ByteReading::Parts(look_at(k, setting, false), look_at(k, setting, true))
        }
    }
}

// An act: 17 before 18, and 32 after it.
fn read_act(
    n: u8,
    book: &[u8],
    team: u8,
    held: u8,
    k: u32,
    at: usize,
    act: Act,
) -> Result<ByteReading, Refusal>
    requires { (n ≤ 7) × (k < 7 ^ 7) }
    ensures { result ≡ reading_of at (read_act (offered n team act) (permitted n book.now held (digit 7 k) act) (outcomes k act)) }
{
    if !act.offered(n, team) {
        return Err(Refusal::NoAct(at));
    }
    match permits(Knowledge::from_number(k), n, book, held, act) {
        Permit::Denied(why) => Err(Refusal::NotPermitted(at, why)),
        Permit::ChangesNothing => Err(Refusal::ChangesNothing(at)),
        Permit::Given => Ok(outcomes_of(k, act)),
    }
}

// The byte with index `at`: a stop is 0, any other byte names an act or nothing. Up to seven settings,
// and a number of seven digits.
pub(crate) fn read_byte(
    n: u8,
    book: &[u8],
    question: Question,
    goal: Goal,
    k: u32,
    at: usize,
    byte: u8,
) -> Result<ByteReading, Refusal>
    requires { (n ≤ 7) × (k < 7 ^ 7) }
    ensures { result ≡ reading_of at (read_byte (system_of n book.now question (wanted goal.entry)) k byte) }
{
    if byte == 0 {
        if is_settled(n, goal, k) {
            return Ok(ByteReading::Stops);
        }
        return Err(Refusal::NotSettled(at));
    }
    let act = Act::of_byte(byte).ok_or(Refusal::NoAct(at))?;
    read_act(n, book, question.team, question.held, k, at, act)
}
