// The program of `replay BOOK START SHIFT`: the shift in the file that its third word names, text or bytes, run against
// the book in the file that its first word names, from the settings that its second word says. What comes of the shift
// goes to standard output, and a refusal as `refused NUMBER PLACE`; what came of it goes to descriptor 3, of a fault
// with its number and whose it is. Where a file cannot be read, or START is none for the book, nothing is answered, and
// that is said on standard error.
#![tactic(auto)]

ghost use Rattle.std.specs.Prelude.{◌≡◌};
ghost use Rattle.program_replay.specs.Outcomes.{replay_outcome};

use book_block::BLOCK;
use ground::SETTINGS_MOST;
use program_files::{word_in, word_room};
use program_outcome::Outcome;
use station_print::{REPLAY_MOST, ReplayFault, ReplayTold};
use station_text::SHIFT_MOST;

const BOOK_WORD: usize = 1;

const START_WORD: usize = 2;

const SHIFT_WORD: usize = 3;

// One byte more than each file may have, so that a longer one is seen to be too long without reading on.
// A book has a head and a block a setting.
const BOOK_ROOM: usize = BLOCK * (1 + SETTINGS_MOST) + 1;

const SHIFT_ROOM: usize = SHIFT_MOST + 1;

// What came of a shift, by what is said of it.
fn outcome_of(told: Result<ReplayTold, ReplayFault>) -> Outcome
    ensures { result ≡ replay_outcome told }
{
    match told {
        Ok(ReplayTold::Done(_)) => Outcome::Done,
        Ok(ReplayTold::Stopped(_, _)) => Outcome::No,
        Err(ReplayFault::Book(_)) => Outcome::Refused,
        Err(ReplayFault::Start) => Outcome::Trouble,
        Err(ReplayFault::Shift(_)) => Outcome::Refused,
    }
}

// Says what START must be.
fn no_start(rt: &HostRuntime, outcome: Outcome) {
    let _ = rt.eprintln(
        "parjolenc: START must name each setting of the book once, as in 'a ~b c ~d', where ~ is off",
    );
    program_outcome::say_whose(rt, outcome, b"start\n");
}

// Runs the shift, and writes out what comes of it, of a fault with which it is.
fn replay(rt: &HostRuntime, book: &[u8], start: &[u8], shift: &[u8]) {
    let mut out = [0u8; REPLAY_MOST];
    let told = station_print::print(book, start, shift, &mut out);
    let outcome = outcome_of(told);
    match told {
        Ok(ReplayTold::Done(length)) => program_outcome::deliver(rt, &out[..length], outcome),
        Ok(ReplayTold::Stopped(why, length)) => {
            program_outcome::deliver_fault(rt, &out[..length], outcome, why, b"shift\n")
        }
        Err(ReplayFault::Book(why)) => program_outcome::refuse(rt, why, b"book\n", outcome),
        Err(ReplayFault::Start) => no_start(rt, outcome),
        Err(ReplayFault::Shift(why)) => program_outcome::refuse(rt, why, b"shift\n", outcome),
    }
}

// Takes START, and runs the shift. A START that is too long for its room names no settings.
fn replay_from_start(rt: &HostRuntime, book: &[u8], shift: &[u8]) {
    let mut start = word_room();
    let length = word_in(rt, START_WORD, &mut start);
    replay(rt, book, &start[..length], shift);
}

// Reads the shift into this room, and runs it.
fn replay_named(rt: &HostRuntime, book: &[u8], room: &mut [u8]) {
    if let Some(shift) = program_outcome::input(rt, SHIFT_WORD, room) {
        replay_from_start(rt, book, shift);
    }
}

// The room for a shift, which another function fills: so the prover never writes it out.
fn replay_over(rt: &HostRuntime, book: &[u8]) {
    let mut room = [0u8; SHIFT_ROOM];
    replay_named(rt, book, &mut room);
}

fn main(rt: HostRuntime) {
    let mut room = [0u8; BOOK_ROOM];
    if let Some(book) = program_outcome::input(&rt, BOOK_WORD, &mut room) {
        replay_over(&rt, book);
    }
}
