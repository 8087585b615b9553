// The text of a plan, as the sheet program prints it, back to the plan's bytes. A text of any length and
// content is taken: one that is too long is 24, and any line that is not of the form is 22. The bytes go
// to the start of a lent room, as far as they fit; a refusal leaves the room as it was. Whether the bytes
// are a plan is for plancheck. The forms of a line's words are public: a shift's text has the same signs.
#![tactic(auto)]

mod line;

ghost use Rattle.std.specs.Prelude.{◌≡◌, ◌≤◌, length};
ghost use Rattle.print_room.specs.Wrote.{Wrote};
ghost use Rattle.sheet_words.specs.Words.{split, newline};
ghost use Rattle.plancheck_text.specs.Meaning.{plan_text_meaning, stray_line, line_bytes, ReadsPlan};

use crate::line::{is_plan_line, is_reach, line_byte};
pub use line::{has_form, index};
use refusal::Refusal;
use sheet_words::first_line;

// The most bytes of a plan's text: "over 524,288 bytes is 24".
pub const PLAN_TEXT_MOST: usize = 524288;

// The most bytes that are read of one (proofs/Theorems `bytes_most`), so a room of this length always
// fits: 524,288 less 8 for the first line, by 7 for each other.
pub const TEXT_BYTES_MOST: usize = (PLAN_TEXT_MOST - 8) / 7;

// The number of the first stray line of a text that begins with line 2; None where there is none.
fn stray_line(text: &[u8]) -> Option<usize>
    requires { length text.now ≤ 524288 }
    ensures { result ≡ stray_line 2 (split newline text.now) }
{
    let mut number = 2;
    let mut rest = text;
    while let Some((line, after)) = first_line(rest) {
        if !is_plan_line(line) {
            return Some(number);
        }
        number += 1;
        rest = after;
    }
    if rest.is_empty() { None } else { Some(number) }
}

// Writes the byte of each line into the room, and gives their count.
fn write(text: &[u8], room: &mut [u8]) -> usize
    requires { length text.now ≤ 524288 }
    ensures { Wrote room.old 0 (line_bytes (split newline text.now)) room.new result }
{
    let mut to = 0;
    let mut rest = text;
    while let Some((line, after)) = first_line(rest) {
        to = print_room::put(line_byte(line), room, to);
        rest = after;
    }
    to
}

// The plan bytes of a text of any length and content, into a room of any length: how many they are; the
// room holds as many of them as fit. Or why it is refused: 22 with the line as its place, or 24.
pub fn read(text: &[u8], room: &mut [u8]) -> Result<usize, Refusal>
    ensures { ReadsPlan (plan_text_meaning text.now) result room.old room.new }
{
    if PLAN_TEXT_MOST < text.len() {
        return Err(Refusal::SheetLength);
    }
    let Some((first, rest)) = first_line(text) else {
        return Err(Refusal::Malformed(1));
    };
    if !is_reach(first) {
        return Err(Refusal::Malformed(1));
    }
    if let Some(stray) = stray_line(rest) {
        return Err(Refusal::Malformed(stray));
    }
    Ok(write(rest, room))
}
