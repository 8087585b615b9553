// How a program says what came of it: it writes one digit and a newline to descriptor 3, and the command `./parjolenc`
// turns the digit into its status. A program that ended without saying it is in trouble. Nothing is refused; where
// descriptor 3 is not open for writing, nobody asked.
#![tactic(auto)]

ghost use Rattle.std.specs.Prelude.{◌≡◌, ◌≤◌, length, IfSome};
ghost use Rattle.program_outcome.specs.Outcomes.{status_digit, answer_outcome};

use refusal::Refusal;
use sheet_words::Fault;
use std::fs::{self, OpenOptions};
use std::io::{self, Write};
use std::os::unix::prelude::PermissionsExt;

// Where the outcome is said: descriptor 3. std reaches a descriptor by its name alone.
const OUTCOME_NAME: &str = "/proc/self/fd/3";

// The bit of a mode that lets a file's owner write. The name of a descriptor has it where the descriptor is open for writing.
const OWNER_WRITES: u32 = 0o200;

// Bytes that hold any refusal's line: `refused`, two numbers of up to 20 digits, one of up to 3, three spaces and the line's
// end are 54.
const REFUSED_MOST: usize = 64;

// What came of a program.
#[derive(Clone, Copy, Debug, PartialEq, Eq)]
pub enum Outcome {
    // Reach, yes or done.
    Done,
    // Cannot, a plan that does not work, or a shift with an act at fault.
    No,
    // The input is refused, with a number.
    Refused,
    // Words, files or the disk: nothing that was put could be answered.
    Trouble,
}

// The digit of an outcome.
pub fn status_digit(outcome: Outcome) -> u8
    ensures { result ≡ status_digit outcome }
{
    match outcome {
        Outcome::Done => b'0',
        Outcome::No => b'1',
        Outcome::Refused => b'2',
        Outcome::Trouble => b'3',
    }
}

// The outcome that a printed answer has, by its first word.
pub fn of_answer(text: &[u8]) -> Outcome
    ensures { result ≡ answer_outcome text.now }
{
    if sheet_words::begins(b"reach ", text) {
        return Outcome::Done;
    }
    if sheet_words::begins(b"cannot", text) {
        return Outcome::No;
    }
    Outcome::Refused
}

// Whether descriptor 3 is open for writing.
fn asked(rt: &HostRuntime) -> bool {
    match fs::symlink_metadata(rt, OUTCOME_NAME) {
        Ok(metadata) => metadata.permissions().mode() & OWNER_WRITES != 0,
        Err(_) => false,
    }
}

// Writes to descriptor 3, behind what was written to it before. Where that fails, the command finds no outcome.
fn tell(rt: &HostRuntime, bytes: &[u8]) {
    if !asked(rt) {
        return;
    }
    if let Ok(mut file) = OpenOptions::new().append(true).open(rt, OUTCOME_NAME) {
        let _ = file.write_all(bytes);
    }
}

// Says the outcome.
pub fn say(rt: &HostRuntime, outcome: Outcome) {
    tell(rt, &[status_digit(outcome), b'\n']);
}

// Says the outcome, and whose fault it is.
pub fn say_whose(rt: &HostRuntime, outcome: Outcome, whose: &[u8]) {
    say(rt, outcome);
    tell(rt, whose);
}

// Makes the file that one of the program's words names, with these bytes, and says what came of it.
pub fn store(rt: &HostRuntime, word: usize, bytes: &[u8]) {
    if program_files::make_named(rt, word, bytes) {
        say(rt, Outcome::Done);
    } else {
        say(rt, Outcome::Trouble);
    }
}

// Says that standard input or output has failed, and why.
pub fn trouble(rt: &HostRuntime, what: &[u8], error: io::Error) {
    program_files::fail(rt, what, error);
    say(rt, Outcome::Trouble);
}

// Writes the answer to standard output, and tells whether it could; else that is said.
fn written(rt: &HostRuntime, answer: &[u8]) -> bool {
    match rt.stdout().lock().write_all(answer) {
        Ok(()) => true,
        Err(error) => {
            trouble(rt, b"parjolenc: standard output", error);
            false
        }
    }
}

// Writes out an answer, and says its outcome.
pub fn deliver(rt: &HostRuntime, answer: &[u8], outcome: Outcome) {
    if written(rt, answer) {
        say(rt, outcome);
    }
}

// Writes out an answer that names a fault, and says its outcome. Three lines more, from which the command can make a
// hint: the answer, the refusal with its own place (of a formula the byte, where the answer has the line), and
// whose fault it is.
pub fn deliver_fault(
    rt: &HostRuntime,
    answer: &[u8],
    outcome: Outcome,
    why: Refusal,
    whose: &[u8],
) {
    if !written(rt, answer) {
        return;
    }
    say(rt, outcome);
    tell(rt, answer);
    let numbers = why.numbers();
    let mut room = [0u8; REFUSED_MOST];
    let length = print_answer::refused(numbers.number, numbers.place, &mut room);
    if length <= room.len() {
        tell(rt, &room[..length]);
    }
    tell(rt, whose);
}

// Writes out a refusal at its own place, with its second number, and says it.
pub fn refuse(rt: &HostRuntime, why: Refusal, whose: &[u8], outcome: Outcome) {
    let numbers = why.numbers();
    let mut room = [0u8; REFUSED_MOST];
    let length = print_answer::seconded(numbers.number, numbers.place, numbers.second, &mut room);
    if length <= room.len() {
        deliver_fault(rt, &room[..length], outcome, why, whose);
    }
}

// Writes out a refusal at its line of a text, and says it.
pub fn refuse_line(rt: &HostRuntime, fault: Fault, whose: &[u8]) {
    let numbers = fault.why.numbers();
    let mut room = [0u8; REFUSED_MOST];
    let length = print_answer::refused(numbers.number, fault.line, &mut room);
    if length <= room.len() {
        deliver_fault(rt, &room[..length], Outcome::Refused, fault.why, whose);
    }
}

// The bytes of the file that one of the program's words names, at the start of the room; None where it could not be
// read, and that is said.
pub fn input<'a>(rt: &HostRuntime, word: usize, room: &'a mut [u8]) -> Option<&'a [u8]>
    ensures { IfSome result (λ bytes. length bytes.now ≤ length room.old) }
{
    match program_files::read_named(rt, word, room) {
        Ok(length) => Some(&room[..length]),
        Err(_) => {
            say(rt, Outcome::Trouble);
            None
        }
    }
}
