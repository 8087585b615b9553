// A shift's bytes, record by record: its text.
ghost use Rattle.std.specs.Prelude.{◌≡◌, ◌≤◌, length};
ghost use Rattle.print_room.specs.Wrote.{Wrote};
ghost use Rattle.station_text.specs.Meaning.{records_said, shift_text, print_meaning, Tells};

use crate::record::{is_record, record_text};
use crate::{RECORD, SHIFT_MOST};
use refusal::Refusal;

// How many records stand before the first that text cannot say; all of them where there is none.
fn records_said(shift: &[u8]) -> usize
    requires { length shift.now ≤ 2097152 }
    ensures { result ≡ records_said shift.now }
{
    for count in 0..shift.len() / RECORD {
        let at = RECORD * count;
        if !is_record(shift[at], shift[at + 1]) {
            return count;
        }
    }
    shift.len() / RECORD
}

// Writes a line for each record into the room, and gives their length.
fn write(shift: &[u8], out: &mut [u8]) -> usize
    requires { length shift.now ≤ 2097152 }
    ensures { Wrote out.old 0 (shift_text shift.now) out.new result }
{
    let mut to = 0;
    for count in 0..shift.len() / RECORD {
        let at = RECORD * count;
        to = record_text(shift[at], shift[at + 1], out, to);
        to = print_room::put(b'\n', out, to);
    }
    to
}

// The text of a shift's bytes, of any length and content, into a room of any length: its length; the room
// holds as much of it as fits. Or why it is refused: 24, 26, or 27 with the record's index as its place. The
// text's length is known before it is written: it is first written to a room where nothing of it is kept.
pub fn print(shift: &[u8], out: &mut [u8]) -> Result<usize, Refusal>
    ensures { Tells (print_meaning shift.now) result out.old out.new }
{
    if SHIFT_MOST < shift.len() {
        return Err(Refusal::SheetLength);
    }
    let said = records_said(shift);
    if shift.len() % RECORD != 0 {
        return Err(Refusal::Shift);
    }
    if said < shift.len() / RECORD {
        return Err(Refusal::NoRecord(said));
    }
    let mut nowhere = [0u8; 1];
    if SHIFT_MOST < write(shift, &mut nowhere) {
        return Err(Refusal::SheetLength);
    }
    Ok(write(shift, out))
}
