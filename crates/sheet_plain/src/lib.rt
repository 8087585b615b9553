// A question text put to a stored book and answered by the plain finder, all in memory: reach with the height, or
// cannot; or the first refusal in the written order and whose it is. Any bytes are taken as each of the two. Nothing
// is lent for writing.
#![tactic(auto)]

ghost use Rattle.std.specs.Prelude.{true};
ghost use Rattle.book_sound.specs.Sound.{Sound};
ghost use Rattle.sheet_question.specs.Question.{question_meaning};
ghost use Rattle.sheet_plain.specs.Asks.{AsksPlainly, SaysOfText};

use finder_plain::PlainAnswer;
use refusal::Refusal;
use sheet_question::read_question;
use sheet_words::Fault;

// Why nothing is said of a question text.
#[derive(Clone, Copy, Debug, PartialEq, Eq)]
pub enum AskFault {
    // The book is not sound: 6 to 9.
    Book(Refusal),
    // The question text does not ask: 24, or a line's refusal. The line is what is printed as its place.
    Question(Fault),
}

// What is said of a question text that is put to a sound book. What a text asks is a valid question, so that the
// finder refuses nothing of it.
fn ask_sound(book: &[u8], settings: u8, posts: u8, question: &[u8]) -> Result<PlainAnswer, AskFault>
    requires { Sound book.now settings posts }
    ensures { SaysOfText settings book.now (question_meaning 0 true settings posts question.now) result }
{
    match read_question(question, settings, posts) {
        Ok(asked) => {
            let found = finder_plain::find(book, asked.question, asked.goal());
            Ok(found.unwrap())
        }
        Err(fault) => Err(AskFault::Question(fault)),
    }
}

// What is said of any bytes as a question text, put to any bytes as a book.
pub fn ask(book: &[u8], question: &[u8]) -> Result<PlainAnswer, AskFault>
    ensures { AsksPlainly book.now question.now result }
{
    match book_sound::sound(book) {
        Ok(size) => ask_sound(book, size.settings, size.posts, question),
        Err(why) => Err(AskFault::Book(why)),
    }
}
