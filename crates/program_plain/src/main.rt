// The second program of `both BOOK QUESTION`, whose words name two files: what the plain finder, which has no rank table,
// says of the question; `reach H` alone, `cannot`, or a refusal as `ask` prints it, on standard output, and what came
// of it on descriptor 3. Where a file cannot be read nothing is answered, and that is said on standard error.
#![tactic(auto)]

use finder_plain::PlainAnswer;
use program_outcome::Outcome;
use sheet_plain::AskFault;

const BOOK_WORD: usize = 1;

const QUESTION_WORD: usize = 2;

// One byte more than a book and a question may have, so that longer ones are seen to be too long.
const BOOK_READ_MOST: usize = sheet_book::BOOK_MOST + 1;

const QUESTION_READ_MOST: usize = sheet_words::TEXT_MOST + 1;

// `reach`, a space, three digits and the line's end.
const REACH_MOST: usize = 10;

// Writes out a height, and says it.
fn reached(rt: &HostRuntime, height: u8) {
    let mut room = [0u8; REACH_MOST];
    let length = print_answer::reach_alone(height, &mut room);
    if length <= room.len() {
        program_outcome::deliver(rt, &room[..length], Outcome::Done);
    }
}

// Writes out what is said of a question.
fn tell(rt: &HostRuntime, told: Result<PlainAnswer, AskFault>) {
    match told {
        Ok(PlainAnswer::Reach(height)) => reached(rt, height),
        Ok(PlainAnswer::Cannot) => program_outcome::deliver(rt, b"cannot\n", Outcome::No),
        Err(AskFault::Book(why)) => {
            program_outcome::refuse(rt, why, b"book\n", Outcome::Refused)
        }
        Err(AskFault::Question(fault)) => program_outcome::refuse_line(rt, fault, b"question\n"),
    }
}

// Reads the question, and asks it.
fn ask_question(rt: &HostRuntime, book: &[u8]) {
    let mut room = [0u8; QUESTION_READ_MOST];
    if let Some(question) = program_outcome::input(rt, QUESTION_WORD, &mut room) {
        tell(rt, sheet_plain::ask(book, question));
    }
}

fn main(rt: HostRuntime) {
    let mut room = [0u8; BOOK_READ_MOST];
    if let Some(book) = program_outcome::input(&rt, BOOK_WORD, &mut room) {
        ask_question(&rt, book);
    }
}
