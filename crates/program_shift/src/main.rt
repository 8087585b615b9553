// The program of `shift TEXT SHIFT`: the shift's text in the file that its first word names, as bytes, to the file that
// its second word names. That file is made; one that is there is never overwritten, and a refusal or a failed write
// leaves none.
#![tactic(auto)]

ghost use Rattle.std.specs.Prelude.{◌≡◌, length};

use program_outcome::Outcome;
use station_text::{READ_MOST, SHIFT_MOST};

const TEXT_WORD: usize = 1;

const SHIFT_WORD: usize = 2;

// One byte more than a text may have, so that a longer one is seen to be too long.
const TEXT_ROOM: usize = SHIFT_MOST + 1;

// The bytes of a shift's text, by way of a room that fits them, or its refusal.
fn make(rt: &HostRuntime, text: &[u8], room: &mut [u8])
    requires { 419430 ≡ length room.old }
{
    match station_text::read(text, room) {
        Ok(length) => program_outcome::store(rt, SHIFT_WORD, &room[..length]),
        Err(why) => program_outcome::refuse(rt, why, b"shift\n", Outcome::Refused),
    }
}

// The room for the bytes. A room is filled by another function than the one that has it, so the prover never writes it
// out.
fn make_bytes(rt: &HostRuntime, text: &[u8]) {
    let mut room = [0u8; READ_MOST];
    make(rt, text, &mut room);
}

// Reads the text into this room, and makes its bytes.
fn make_named(rt: &HostRuntime, room: &mut [u8]) {
    if let Some(text) = program_outcome::input(rt, TEXT_WORD, room) {
        make_bytes(rt, text);
    }
}

fn main(rt: HostRuntime) {
    let mut text = [0u8; TEXT_ROOM];
    make_named(&rt, &mut text);
}
