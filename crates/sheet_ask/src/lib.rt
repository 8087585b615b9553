// A question text put to a stored book, all in memory: the bytes of a book and a text to what is printed.
// A book that is not sound, a text that does not ask, and a rank table that is too short are answered by
// the first refusal in the written order. Nothing else is refused: a room shorter than what is printed
// holds as much of it as fits. The lent rank table is left as the finder leaves it; with two legs it holds
// the first leg's ranks and behind them the second's.
#![tactic(auto)]

mod tell;
mod two;

ghost use Rattle.std.specs.Prelude.{ℕ};
ghost use Rattle.book_sound.specs.Sound.{Sound};
ghost use Rattle.question.specs.Asks.{ValidQuestion};
ghost use Rattle.sheet_legs.specs.Legs.{legs_meaning};
ghost use Rattle.sheet_ask.specs.Asks.{PrintsAsked, PrintsLegs, AsksBook};
ghost use Rattle.sheet_ask.specs.Inner.{Learnt, question_in, goal_in};

use crate::tell::{refuse, tell};
use crate::two::answered_two;
use plancheck::PLAN_MOST;
use sheet_legs::read_legs;
use sheet_question::AskedDesk;

// The most bytes that are printed: 10 for `reach` and a height of up to three digits, and 14 for each of
// 32,640 plan bytes, as `999 set g 8 1` and the line's end have. A refusal is shorter.
pub const ASK_MOST: usize = 10 + 14 * PLAN_MOST;

// What is printed for a valid question on the desk: the finder refuses nothing but 13, since every plan
// fits its room.
fn answered(book: &[u8], asked: AskedDesk, ranks: &mut [u8], out: &mut [u8]) -> usize
    requires { Learnt asked × ((n : ℕ) × (m : ℕ) × ValidQuestion book.now (question_in asked) (goal_in asked) n m) }
    ensures { (n m : ℕ) → ValidQuestion book.now (question_in asked) (goal_in asked) n m →
        PrintsAsked n book.now (question_in asked) (goal_in asked) ranks.old out.old result ranks.new out.new }
{
    let mut plan = [0u8; PLAN_MOST];
    let answer = finder::find(book, asked.question, asked.goal(), ranks, &mut plan);
    tell(answer, &plan, out)
}

// What is printed for a question text, put to a sound book.
fn ask_sound(
    book: &[u8],
    settings: u8,
    posts: u8,
    question: &[u8],
    ranks: &mut [u8],
    out: &mut [u8],
) -> usize
    requires { Sound book.now settings posts }
    ensures { PrintsLegs settings book.now (legs_meaning settings posts question.now)
        ranks.old out.old result ranks.new out.new }
{
    match read_legs(question, settings, posts) {
        Ok(legs) => match legs.second {
            None => answered(book, legs.first, ranks, out),
            Some(second) => answered_two(book, settings, legs.first, second, ranks, out),
        },
        Err(fault) => print_answer::refused(fault.why.numbers().number, fault.line, out),
    }
}

// What is printed for a question text, put to any bytes as a book, as much of it as fits into the room;
// and the length of all of it.
pub fn ask(book: &[u8], question: &[u8], ranks: &mut [u8], out: &mut [u8]) -> usize
    ensures { AsksBook book.now question.now ranks.old out.old result ranks.new out.new }
{
    match book_sound::sound(book) {
        Ok(size) => ask_sound(book, size.settings, size.posts, question, ranks, out),
        Err(why) => refuse(why, out),
    }
}
