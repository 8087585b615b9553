// The text of a plan put to a stored book and a question text, all in memory: yes, or the first refusal in
// the written order and which of the three it is of. Any bytes are taken as each of them. Nothing that is
// lent is written to.
#![tactic(auto)]

ghost use Rattle.std.specs.Prelude.{true};
ghost use Rattle.book_sound.specs.Sound.{Sound};
ghost use Rattle.plancheck_text.specs.Meaning.{plan_text_meaning};
ghost use Rattle.sheet_question.specs.Question.{question_meaning};
ghost use Rattle.sheet_ask.specs.Inner.{Learnt, question_in, goal_in};
ghost use Rattle.sheet_check.specs.Checks.{ChecksText, ChecksQuestion, ChecksTexts};

use plancheck_text::TEXT_BYTES_MOST;
use refusal::Refusal;
use sheet_question::{AskedDesk, read_question};
use sheet_words::Fault;

// Why a plan's text gets no yes.
#[derive(Clone, Copy, Debug, PartialEq, Eq)]
pub enum CheckFault {
    // The book is not sound: 6 to 9.
    Book(Refusal),
    // The question text does not ask: 24, or a line's refusal. The line is what is printed as its place.
    Question(Fault),
    // It is not the text of a plan: 24, or 22 with the line as its place.
    Text(Refusal),
    // The plan check refuses its bytes: 16 to 21, or 32. Byte i is in line i + 2 of the text.
    Plan(Refusal),
}

// Whether the bytes of a plan's text are those of a plan that works for what is on the desk. Every plan that is read
// fits the room.
fn check_text(book: &[u8], asked: AskedDesk, plan: &[u8]) -> Result<(), CheckFault>
    requires { Learnt asked }
    ensures { ChecksText book.now (question_in asked) (goal_in asked) (plan_text_meaning plan.now) result }
{
    let mut room = [0u8; TEXT_BYTES_MOST];
    let count = match plancheck_text::read(plan, &mut room) {
        Ok(count) => count,
        Err(why) => return Err(CheckFault::Text(why)),
    };
    match plancheck::check(book, asked.question, asked.goal(), &room[..count]) {
        Ok(()) => Ok(()),
        Err(why) => Err(CheckFault::Plan(why)),
    }
}

// The same, for a question text that is put to a sound book.
fn check_sound(
    book: &[u8],
    settings: u8,
    posts: u8,
    question: &[u8],
    plan: &[u8],
) -> Result<(), CheckFault>
    requires { Sound book.now settings posts }
    ensures { ChecksQuestion settings book.now (question_meaning 0 true settings posts question.now) plan.now result }
{
    match read_question(question, settings, posts) {
        Ok(asked) => check_text(book, asked, plan),
        Err(fault) => Err(CheckFault::Question(fault)),
    }
}

// Whether any bytes are the text of a plan that works, for any bytes as a question text and any bytes as a book; or the
// first refusal, and whose it is.
pub fn check(book: &[u8], question: &[u8], plan: &[u8]) -> Result<(), CheckFault>
    ensures { ChecksTexts book.now question.now plan.now result }
{
    match book_sound::sound(book) {
        Ok(size) => check_sound(book, size.settings, size.posts, question, plan),
        Err(why) => Err(CheckFault::Book(why)),
    }
}
