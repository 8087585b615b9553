// The program of `check BOOK QUESTION PLAN`, whose words name three files. What is said of the plan goes to standard
// output: `yes`, or `refused NUMBER PLACE`, of 18 with its second number behind it. What came of it goes to descriptor 3, of a
// refusal with whose it is.
// Where a file cannot be read nothing is answered, and that is said on standard error.
#![tactic(auto)]

ghost use Rattle.std.specs.Prelude.{◌≡◌, ◌<◌, ◌≤◌};

use book_block::BLOCK;
use ground::SETTINGS_MOST;
use plancheck_text::PLAN_TEXT_MOST;
use program_outcome::Outcome;
use sheet_check::CheckFault;
use sheet_words::TEXT_MOST;

const BOOK_WORD: usize = 1;

const QUESTION_WORD: usize = 2;

const PLAN_WORD: usize = 3;

// One byte more than each file may have, so that a longer one is seen to be too long without reading on.
// A book has a head and a block a setting.
const BOOK_ROOM: usize = BLOCK * (1 + SETTINGS_MOST) + 1;

const QUESTION_ROOM: usize = TEXT_MOST + 1;

const PLAN_ROOM: usize = PLAN_TEXT_MOST + 1;

// "No" is a refusal of the plan check with 17 to 21, or 32; its 16 is a refusal like any other.
fn plan_outcome(number: u64) -> Outcome
    ensures { (number < 17 → result ≡ Outcome.Refused) × (17 ≤ number → result ≡ Outcome.No) }
{
    if number < 17 {
        Outcome::Refused
    } else {
        Outcome::No
    }
}

// Writes out what is wrong.
fn refuse(rt: &HostRuntime, fault: CheckFault) {
    match fault {
        CheckFault::Book(why) => program_outcome::refuse(rt, why, b"book\n", Outcome::Refused),
        CheckFault::Question(fault) => program_outcome::refuse_line(rt, fault, b"question\n"),
        CheckFault::Text(why) => program_outcome::refuse(rt, why, b"plan\n", Outcome::Refused),
        CheckFault::Plan(why) => {
            let numbers = why.numbers();
            program_outcome::refuse(rt, why, b"plan\n", plan_outcome(numbers.number));
        }
    }
}

// Writes out what is said of a plan.
fn tell(rt: &HostRuntime, told: Result<(), CheckFault>) {
    match told {
        Ok(()) => program_outcome::deliver(rt, b"yes\n", Outcome::Done),
        Err(fault) => refuse(rt, fault),
    }
}

// Reads the plan into this room, and checks it.
fn check_named(rt: &HostRuntime, book: &[u8], question: &[u8], room: &mut [u8]) {
    if let Some(plan) = program_outcome::input(rt, PLAN_WORD, room) {
        tell(rt, sheet_check::check(book, question, plan));
    }
}

// The room for a plan, which another function fills: so the prover never writes it out.
fn check_plan(rt: &HostRuntime, book: &[u8], question: &[u8]) {
    let mut room = [0u8; PLAN_ROOM];
    check_named(rt, book, question, &mut room);
}

// Reads the question, and then the plan.
fn check_question(rt: &HostRuntime, book: &[u8]) {
    let mut room = [0u8; QUESTION_ROOM];
    if let Some(question) = program_outcome::input(rt, QUESTION_WORD, &mut room) {
        check_plan(rt, book, question);
    }
}

fn main(rt: HostRuntime) {
    let mut room = [0u8; BOOK_ROOM];
    if let Some(book) = program_outcome::input(&rt, BOOK_WORD, &mut room) {
        check_question(&rt, book);
    }
}
