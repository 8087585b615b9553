// The program of `salvage DAMAGED BOOK`: the book that its first word names, with each damaged setting block closed, to
// the file that its second word names. That file is made; one that is there is never overwritten, and a refusal or a
// failed write leaves none. Once it is made, the settings that were closed are named on standard output.
#![tactic(auto)]

ghost use Rattle.std.specs.Prelude.{◌≤◌, ◌<◌};
ghost use Rattle.print_room.specs.Wrote.{Wrote};
ghost use Rattle.program_salvage.specs.Closed.{closed_name, closed_names, closed_text};

use book_block::BLOCK;
use ground::{SETTINGS_MOST, bit_of};
use program_outcome::Outcome;

const DAMAGED_WORD: usize = 1;

const BOOK_WORD: usize = 2;

// A book has a head and a block a setting; one byte more is read, so that a longer one is seen to be too long.
const BOOK_MOST: usize = BLOCK * (1 + SETTINGS_MOST);

const READ_MOST: usize = BOOK_MOST + 1;

// The settings that there can be.
const SETTINGS: u8 = SETTINGS_MOST as u8;

// Bytes that hold what is said of any marks.
const LINE_MOST: usize = 64;

// The letter of setting i after a space, where it was closed.
fn name(closed: bool, i: u8, out: &mut [u8], to: usize) -> usize
    requires { (i < 7) × (to ≤ 20) }
    ensures { Wrote out.old to (closed_name closed i) out.new result }
{
    if !closed {
        return to;
    }
    let to = print_room::put(b' ', out, to);
    print_room::put(b'a' + i, out, to)
}

// The letters of all settings that were closed.
fn names(marks: u8, out: &mut [u8], to: usize) -> usize
    requires { to ≤ 6 }
    ensures { Wrote out.old to (closed_names 7 marks) out.new result }
{
    let mut at = to;
    for i in 0..SETTINGS {
        at = name(bit_of(marks, i), i, out, at);
    }
    at
}

// What is said of the marks.
fn closed_line(marks: u8, out: &mut [u8]) -> usize
    ensures { Wrote out.old 0 (closed_text marks) out.new result }
{
    if marks == 0 {
        return print_room::word(b"no setting was closed\n", out, 0);
    }
    let to = print_room::word(b"closed", out, 0);
    let to = names(marks, out, to);
    print_room::word(b": nobody may look or set there\n", out, to)
}

// Makes the book, and says which settings were closed.
fn make(rt: &HostRuntime, marks: u8, book: &[u8]) {
    if !program_files::make_named(rt, BOOK_WORD, book) {
        program_outcome::say(rt, Outcome::Trouble);
        return;
    }
    let mut line = [0u8; LINE_MOST];
    let length = closed_line(marks, &mut line);
    if length <= line.len() {
        program_outcome::deliver(rt, &line[..length], Outcome::Done);
    }
}

// The book salvaged, or its refusal.
fn salvage(rt: &HostRuntime, damaged: &[u8]) {
    let mut book = [0u8; BOOK_MOST];
    match book_salvage::salvage(damaged, &mut book) {
        Ok(salvaged) => make(rt, salvaged.marks, &book[..damaged.len()]),
        Err(why) => program_outcome::refuse(rt, why, b"book\n", Outcome::Refused),
    }
}

fn main(rt: HostRuntime) {
    let mut room = [0u8; READ_MOST];
    if let Some(damaged) = program_outcome::input(&rt, DAMAGED_WORD, &mut room) {
        salvage(&rt, damaged);
    }
}
