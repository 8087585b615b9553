// A shift's text, line by line: its records as bytes, and the line that gives a record.
ghost use Rattle.std.specs.Prelude.{◌≡◌, ◌≤◌, length};
ghost use Rattle.print_room.specs.Wrote.{Wrote};
ghost use Rattle.sheet_words.specs.Words.{split, newline};
ghost use Rattle.station_text.specs.Meaning.{stray_line, lines_bytes, line_of, read_meaning, Tells};

use crate::SHIFT_MOST;
use crate::line::{is_line, records_in, write_record};
use refusal::Refusal;
use sheet_words::first_line;

// The number of the first stray line; None where there is none.
fn stray_line(text: &[u8]) -> Option<usize>
    requires { length text.now ≤ 2097152 }
    ensures { result ≡ stray_line 1 (split newline text.now) }
{
    let mut number = 1;
    let mut rest = text;
    while let Some((line, after)) = first_line(rest) {
        if !is_line(line) {
            return Some(number);
        }
        number += 1;
        rest = after;
    }
    if rest.is_empty() { None } else { Some(number) }
}

// Writes the record of each line that gives one into the room, and gives the count of their bytes.
fn write(text: &[u8], room: &mut [u8]) -> usize
    requires { length text.now ≤ 2097152 }
    ensures { Wrote room.old 0 (lines_bytes (split newline text.now)) room.new result }
{
    let mut to = 0;
    let mut rest = text;
    while let Some((line, after)) = first_line(rest) {
        to = write_record(line, room, to);
        rest = after;
    }
    to
}

// The bytes of the records of a text of any length and content, into a room of any length: how many they
// are; the room holds as many of them as fit. Or why it is refused: 24, or 22 with the line as its place.
pub fn read(text: &[u8], room: &mut [u8]) -> Result<usize, Refusal>
    ensures { Tells (read_meaning text.now) result room.old room.new }
{
    if SHIFT_MOST < text.len() {
        return Err(Refusal::SheetLength);
    }
    if let Some(stray) = stray_line(text) {
        return Err(Refusal::Malformed(stray));
    }
    Ok(write(text, room))
}

// The number of the line that gives the record with this index, counted from 1; None where no line does.
// Lines that give none are counted; what follows the last byte 10 is no line.
pub fn line_of(text: &[u8], index: usize) -> Option<usize>
    ensures { result ≡ line_of 1 index (split newline text.now) }
{
    let mut number = 1;
    let mut left = index;
    let mut rest = text;
    while let Some((line, after)) = first_line(rest) {
        let here = records_in(line);
        if left < here {
            return Some(number);
        }
        left -= here;
        number += 1;
        rest = after;
    }
    None
}
