// The program of `shift-text SHIFT`: the text of the shift in the file that its word names, to standard output, or
// `refused NUMBER PLACE`; what came of it goes to descriptor 3. A shift that is text already is read and printed anew,
// so its comments and empty lines go.
#![tactic(auto)]

ghost use Rattle.std.specs.Prelude.{◌≡◌, ◌<◌, ◌≤◌, length};

use program_outcome::Outcome;
use refusal::Refusal;
use station_text::{READ_MOST, SHIFT_MOST};

const SHIFT_WORD: usize = 1;

// One byte more than a shift may have, so that a longer one is seen to be too long.
const SHIFT_ROOM: usize = SHIFT_MOST + 1;

// "No" is 27, a record that text cannot say; any lower number refuses the shift as a whole.
fn shift_outcome(number: u64) -> Outcome
    ensures { (number < 27 → result ≡ Outcome.Refused) × (27 ≤ number → result ≡ Outcome.No) }
{
    if number < 27 {
        Outcome::Refused
    } else {
        Outcome::No
    }
}

// Writes out a refusal.
fn refuse(rt: &HostRuntime, why: Refusal) {
    let numbers = why.numbers();
    program_outcome::refuse(rt, why, b"shift\n", shift_outcome(numbers.number));
}

// Writes out the text of a shift's bytes, by way of a room that fits it.
fn print_by(rt: &HostRuntime, shift: &[u8], room: &mut [u8])
    requires { 2097152 ≡ length room.old }
{
    match station_text::print(shift, room) {
        Ok(length) => program_outcome::deliver(rt, &room[..length], Outcome::Done),
        Err(why) => refuse(rt, why),
    }
}

// The room for the text. A room is filled by another function than the one that has it, so the prover never writes it
// out.
fn print_bytes(rt: &HostRuntime, shift: &[u8]) {
    let mut room = [0u8; SHIFT_MOST];
    print_by(rt, shift, &mut room);
}

// Writes out what a shift's text says, a line an act, by way of a room that fits its bytes.
fn print_text_by(rt: &HostRuntime, shift: &[u8], room: &mut [u8])
    requires { 419430 ≡ length room.old }
{
    match station_text::read(shift, room) {
        Ok(length) => print_bytes(rt, &room[..length]),
        Err(why) => refuse(rt, why),
    }
}

// The room for the bytes.
fn print_text(rt: &HostRuntime, shift: &[u8]) {
    let mut room = [0u8; READ_MOST];
    print_text_by(rt, shift, &mut room);
}

// Writes out the text of a shift, text or bytes.
fn print(rt: &HostRuntime, shift: &[u8]) {
    if station_text::is_text(shift) {
        print_text(rt, shift);
    } else {
        print_bytes(rt, shift);
    }
}

// Reads the shift into this room, and prints it.
fn print_named(rt: &HostRuntime, room: &mut [u8]) {
    if let Some(shift) = program_outcome::input(rt, SHIFT_WORD, room) {
        print(rt, shift);
    }
}

fn main(rt: HostRuntime) {
    let mut shift = [0u8; SHIFT_ROOM];
    print_named(&rt, &mut shift);
}
