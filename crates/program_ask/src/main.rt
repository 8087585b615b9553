// The program of `ask BOOK QUESTION`: the question text that its second word names, put to the book that its first word
// names; the answer on standard output, and what came of it on descriptor 3.
#![tactic(auto)]

ghost use Rattle.std.specs.Prelude.{◌≡◌, length};

use book_sound::Size;
use program_outcome::Outcome;

const BOOK_WORD: usize = 1;

const QUESTION_WORD: usize = 2;

// One byte more than a book and a question may have, so that longer ones are seen to be too long.
const BOOK_READ_MOST: usize = sheet_book::BOOK_MOST + 1;

const QUESTION_READ_MOST: usize = sheet_words::TEXT_MOST + 1;

// 2 × 7^7: the ranks of seven settings, of two legs.
const RANKS_MOST: usize = 2 * 7 * 7 * 7 * 7 * 7 * 7 * 7;

// Writes out the answer to a question over a book of this size, and says what came of it.
fn deliver_sound(rt: &HostRuntime, size: Size, question: &[u8], answer: &[u8]) {
    let outcome = program_outcome::of_answer(answer);
    match sheet_legs::read_legs(question, size.settings, size.posts) {
        Ok(_) => program_outcome::deliver(rt, answer, outcome),
        Err(fault) => {
            program_outcome::deliver_fault(rt, answer, outcome, fault.why, b"question\n")
        }
    }
}

// Writes out the answer, and says what came of it; of a refusal whose it is, with its own place.
fn deliver(rt: &HostRuntime, book: &[u8], question: &[u8], answer: &[u8]) {
    match book_sound::sound(book) {
        Ok(size) => deliver_sound(rt, size, question, answer),
        Err(why) => { program_outcome::deliver_fault(rt, answer, Outcome::Refused, why, b"book\n") }
    }
}

// Zeros for the ranks and for the answer. The length is what lending such an array needs; a function of its own keeps
// the prover from writing it out.
fn ranks_room() -> [u8; RANKS_MOST]
    ensures { 1647086 ≡ length result }
{
    [0; RANKS_MOST]
}

fn answer_room() -> [u8; sheet_ask::ASK_MOST]
    ensures { 456970 ≡ length result }
{
    [0; sheet_ask::ASK_MOST]
}

// What a book answers to a question.
fn ask(rt: &HostRuntime, book: &[u8], question: &[u8]) {
    let mut ranks = ranks_room();
    let mut out = answer_room();
    let printed = sheet_ask::ask(book, question, &mut ranks, &mut out);
    deliver(rt, book, question, &out[..printed]);
}

// The question that is put to a book.
fn question_over(rt: &HostRuntime, book: &[u8]) {
    let mut room = [0u8; QUESTION_READ_MOST];
    if let Some(question) = program_outcome::input(rt, QUESTION_WORD, &mut room) {
        ask(rt, book, question);
    }
}

fn main(rt: HostRuntime) {
    let mut room = [0u8; BOOK_READ_MOST];
    if let Some(book) = program_outcome::input(&rt, BOOK_WORD, &mut room) {
        question_over(&rt, book);
    }
}
