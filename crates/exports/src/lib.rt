// The C interface, and nothing else: each function hands its arguments to the crate that knows, and gives
// the answer as one number. A refusal is its number from bit 32 on over its place; a success has 0 in the
// upper half. A slice is a pointer and a length; a table is a pointer to 16 bytes.
#![tactic(auto)]

mod packing;

ghost use Rattle.knowledge.specs.Goal.{goal_of};
ghost use Rattle.exports.specs.Formula.{FormulaRead};
ghost use Rattle.exports.specs.Find.{asked, PlanFound, TwoFound, PlainlyFound};
ghost use Rattle.finder.specs.FindsTwo.{rooms_of};
ghost use Rattle.exports.specs.Check.{PlanChecked};
ghost use Rattle.exports.specs.Book.{BookRead, BookWritten, BookSalvaged};
ghost use Rattle.exports.specs.Texts.{RulesMade};
ghost use Rattle.exports.specs.Replay.{ShiftReplayed};
ghost use Rattle.sheet.specs.Answer.{AnswersSheet};
ghost use Rattle.sheet_ask.specs.Asks.{AsksBook};

use finder_plain::PlainAnswer;
use knowledge::Goal;
use packing::{found_as, packed, packed_at, reached_as};
use question::{Leg, Question};
use station::Replayed;

// What a plan that works returns.
const YES: u64 = 0;

// The table of a formula. 0, or a refusal, which leaves the 16 bytes as they were.
#[unsafe(no_mangle)]
pub extern "C" fn pj_formula_read(n: u64, text: &[u8], table: &mut [u8; 16]) -> u64
    ensures { FormulaRead n text.now table.old result table.new }
{
    match formula::read(n as usize, text) {
        Ok(found) => {
            *table = found;
            0
        }
        Err(why) => packed(why),
    }
}

// A book's rights, n × 256 bytes, at the start of the lent room. n * 256 + m, or a refusal, which
// leaves the room as it was.
#[unsafe(no_mangle)]
pub extern "C" fn pj_book_read(book: &[u8], rights: &mut [u8]) -> u64
    ensures { BookRead book.now rights.old result rights.new }
{
    match book::read(book, rights) {
        Ok(size) => (size.settings as u64) * 256 + size.posts as u64,
        Err(why) => packed(why),
    }
}

// The book of n settings and m posts with these rights, at the start of the lent room. 0, or a
// refusal, which leaves the room as it was.
#[unsafe(no_mangle)]
pub extern "C" fn pj_book_write(n: u64, m: u64, rights: &[u8], book: &mut [u8]) -> u64
    ensures { BookWritten n m rights.now book.old result book.new }
{
    match book::write(n as usize, m as usize, rights, book) {
        Ok(()) => 0,
        Err(why) => packed(why),
    }
}

// The book with each damaged setting block closed, at the start of the lent room. count * 256 + marks, or a
// refusal, which leaves the room as it was.
#[unsafe(no_mangle)]
pub extern "C" fn pj_book_salvage(book: &[u8], room: &mut [u8]) -> u64
    ensures { BookSalvaged book.now room.old result room.new }
{
    match book_salvage::salvage(book, room) {
        Ok(salvaged) => (salvaged.count as u64) * 256 + salvaged.marks as u64,
        Err(why) => packed(why),
    }
}

// "Reach" with the least height, its plan in the plan room, and the ranks of all knowledge numbers in
// the rank table: height << 16 | plan length; "cannot": 0; or a refusal.
#[unsafe(no_mangle)]
pub extern "C" fn pj_find(
    book: &[u8],
    team: u8,
    known: u8,
    values: u8,
    held: u8,
    make: &[u8],
    learn: &[u8],
    ranks: &mut [u8],
    plan: &mut [u8],
) -> u64
    ensures { PlanFound book.now (asked team known values held) (goal_of make.now learn.now)
        ranks.old plan.old result ranks.new plan.new }
{
    let question = Question {
        team,
        known,
        values,
        held,
    };
    found_as(finder::find(book, question, Goal { make, learn }, ranks, plan))
}

// The same of a question of two legs, the second with the team `team2` and its own goal: the height and the plan are
// the first leg's, and each leg's ranks stand in its own table.
#[unsafe(no_mangle)]
pub extern "C" fn pj_find_two(
    book: &[u8],
    team: u8,
    known: u8,
    values: u8,
    held: u8,
    make: &[u8],
    learn: &[u8],
    team2: u8,
    make2: &[u8],
    learn2: &[u8],
    ranks: &mut [u8],
    ranks2: &mut [u8],
    plan: &mut [u8],
) -> u64
    ensures { TwoFound book.now (asked team known values held) (goal_of make.now learn.now)
        team2 (goal_of make2.now learn2.now)
        (rooms_of ranks.old ranks2.old plan.old) result (rooms_of ranks.new ranks2.new plan.new) }
{
    let question = Question {
        team,
        known,
        values,
        held,
    };
    let leg = Leg {
        team: team2,
        goal: Goal {
            make: make2,
            learn: learn2,
        },
    };
    found_as(finder::find_two(
        book,
        question,
        Goal { make, learn },
        leg,
        ranks,
        ranks2,
        plan,
    ))
}

// "Reach" with the least height, found without a rank table: the height and one; "cannot": 0; or a refusal. Nothing is
// written.
#[unsafe(no_mangle)]
pub extern "C" fn pj_find_plain(
    book: &[u8],
    team: u8,
    known: u8,
    values: u8,
    held: u8,
    make: &[u8],
    learn: &[u8],
) -> u64
    ensures { PlainlyFound book.now (asked team known values held) (goal_of make.now learn.now) result }
{
    let question = Question {
        team,
        known,
        values,
        held,
    };
    match finder_plain::find(book, question, Goal { make, learn }) {
        Ok(found) => match found {
            PlainAnswer::Reach(height) => height as u64 + 1,
            PlainAnswer::Cannot => 0,
        },
        Err(why) => packed(why),
    }
}

// Whether the bytes are those of a plan that works: 0, or a refusal. Nothing is written.
#[unsafe(no_mangle)]
pub extern "C" fn pj_plan_check(
    book: &[u8],
    team: u8,
    known: u8,
    values: u8,
    held: u8,
    make: &[u8],
    learn: &[u8],
    plan: &[u8],
) -> u64
    ensures { PlanChecked book.now (asked team known values held) (goal_of make.now learn.now) plan.now result }
{
    let question = Question {
        team,
        known,
        values,
        held,
    };
    match plancheck::check(book, question, Goal { make, learn }, plan) {
        Ok(()) => YES,
        Err(why) => packed(why),
    }
}

// What is printed for a sheet, in the lent room as far as it fits: the length of all of it, which is at
// most `sheet::ANSWER_MOST`. Nothing is refused, and the rest of the room keeps what it held.
#[unsafe(no_mangle)]
pub extern "C" fn pj_sheet(sheet: &[u8], out: &mut [u8]) -> u64
    ensures { AnswersSheet sheet.now out.old result out.new }
{
    sheet::answer(sheet, out) as u64
}

// The book of a rules text, at the start of the lent room: its length, or a refusal with its line, which leaves
// the room as it was.
#[unsafe(no_mangle)]
pub extern "C" fn pj_rules(rules: &[u8], book: &mut [u8]) -> u64
    ensures { RulesMade rules.now book.old result book.new }
{
    match sheet_book::make_book(rules, book) {
        Ok(length) => length as u64,
        Err(fault) => packed_at(fault.why, fault.line),
    }
}

// What is printed for a question text that is put to a book, in the lent room as far as it fits: the length of all
// of it, which is at most `sheet_ask::ASK_MOST`. Nothing is refused: a rank table that is too short is answered
// so, and is otherwise left as `pj_find` leaves it; with two legs it has the first leg's ranks and behind them the
// second's. The rest of the room keeps what it held.
#[unsafe(no_mangle)]
pub extern "C" fn pj_ask(book: &[u8], question: &[u8], ranks: &mut [u8], out: &mut [u8]) -> u64
    ensures { AsksBook book.now question.now ranks.old out.old result ranks.new out.new }
{
    sheet_ask::ask(book, question, ranks, out) as u64
}

// A recorded shift run against a book from a true starting valuation: 0 where every act was allowed, or a refusal, whose
// place is the low 32 bits of the record's index. By a success, 27, 28 and 29 the two lent numbers are the count of
// acts done and the valuation that they leave; any other refusal leaves them as they were.
#[unsafe(no_mangle)]
pub extern "C" fn pj_replay(book: &[u8], start: u64, shift: &[u8], reached: &mut [u64; 2]) -> u64
    ensures { ShiftReplayed book.now start shift.now reached.old result reached.new }
{
    match station::replay(book, start, shift) {
        Ok(replayed) => match replayed {
            Replayed::Whole(running) => {
                *reached = reached_as(running);
                0
            }
            Replayed::Stopped(why, running) => {
                *reached = reached_as(running);
                packed(why)
            }
        },
        Err(refusal) => packed(refusal),
    }
}
