// The question that a whole sheet asks, through the same book and the same finder as stored books. For
// this crate alone: a whole sheet is on the desk.
ghost use Rattle.std.specs.Prelude.{◌≡◌, ◌+◌, ◌*◌, length, take};
ghost use Rattle.question.specs.Question.{system_of, start_of};
ghost use Rattle.finder.specs.Answers.{AnswersFrom};
ghost use Rattle.sheet.specs.Answer.{PrintsFound};
ghost use Rattle.sheet.specs.Inner.{Whole, book_in, question_in, goal_in};

use book_block::{BLOCK, TABLES};
use finder::Answer;
use refusal::Refusal;
use sheet_reading::{Desk, SHEET_SETTINGS_MOST};

// The most bytes that a book of 5 settings has.
const SHEET_BOOK_MOST: usize = BLOCK * (1 + SHEET_SETTINGS_MOST);

// The most bytes that a rank table of 5 settings has: 7^5.
const SHEET_RANKS_MOST: usize = 7 * 7 * 7 * 7 * 7;

// The most bytes that a plan of 5 settings has: 2^5 branches of 62 acts and a stop.
pub(crate) const SHEET_PLAN_MOST: usize = 32 * (62 + 1);

// Writes the book of the rights on the desk.
fn write_book(desk: Desk, book: &mut [u8])
    requires { Whole desk × (length book.old ≡ 3072) }
    ensures { take (512 * (1 + desk.rules.settings)) book.new ≡ book_in desk }
{
    let n = desk.rules.settings as usize;
    book::write(
        n,
        desk.rules.posts as usize,
        &desk.rules.rights[..TABLES * n],
        book,
    )
    .unwrap()
}

// The finder's answer to what is on the desk, with the plan at the start of the room.
fn find(desk: Desk, plan: &mut [u8]) -> Result<Answer, Refusal>
    requires { Whole desk }
    ensures { AnswersFrom (system_of desk.rules.settings (book_in desk) (question_in desk) (goal_in desk)) (start_of (question_in desk)) plan.old result plan.new }
{
    let mut book = [0u8; SHEET_BOOK_MOST];
    write_book(desk, &mut book);
    let blocks = BLOCK * (1 + (desk.rules.settings as usize));
    let mut ranks = [0u8; SHEET_RANKS_MOST];
    finder::find(
        &book[..blocks],
        desk.asked.question,
        desk.asked.goal(),
        &mut ranks,
        plan,
    )
}

// What is printed for what is on the desk. The finder refuses nothing here: the question is valid, and
// the plan fits its room.
pub(crate) fn ask(desk: Desk, out: &mut [u8]) -> usize
    requires { Whole desk }
    ensures { PrintsFound (system_of desk.rules.settings (book_in desk) (question_in desk) (goal_in desk)) (start_of (question_in desk)) out.old result out.new }
{
    let mut plan = [0u8; SHEET_PLAN_MOST];
    match find(desk, &mut plan).unwrap() {
        Answer::Reach { height, length } => print_answer::reach(height, &plan[..length], out),
        Answer::Cannot => print_answer::cannot(out),
    }
}
