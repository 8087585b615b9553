// What comes of a recorded shift that is run against a book, as text: how many acts were done, what the
// settings are then, and the first act that the station's rules did not allow, in words. Any bytes are taken
// as the book, as START and as the shift, which may be text or bytes. The text goes to the start of a lent
// room, as far as it fits. Refused are an unsound book, a START that does not name each setting once, and a
// shift that cannot be read or run; a refusal leaves the room as it was.
#![tactic(auto)]

mod fault;
mod settings;
mod start;

ghost use Rattle.std.specs.Prelude.{◌≤◌};
ghost use Rattle.print_room.specs.Wrote.{Ends, Wrote};
ghost use Rattle.station_text.specs.Meaning.{read_meaning};
ghost use Rattle.station_print.specs.Start.{names_all, start_words};
ghost use Rattle.station_print.specs.Printed.{done_line, now_line, reached_text, stopped_text};
ghost use Rattle.station_print.specs.Prints.{shift_meaning, PrintsBytes, PrintsShift, PrintsStart, PrintsReplay};
ghost use Rattle.station_print.specs.Inner.{Readable, NextRecord};

use crate::fault::fault_line;
use crate::settings::names;
use crate::start::read_start;
use ground::peek;
use refusal::Refusal;
use station::{Replayed, Running};
use station_text::{READ_MOST, SHIFT_MOST};

// The most bytes that are printed (proofs/Theorems `printed-most`), so a room of this length always fits. A
// shift has at most a million acts and two million lines, numbers of seven digits: 13 bytes for the line of
// the count, 25 for that of the settings, 113 for that of an act at fault.
pub const REPLAY_MOST: usize = 151;

// The bytes of a record: the act byte and what was seen.
const RECORD: usize = 2;

// What comes of a shift that was run. The text has this many bytes; the room holds as many of them as fit.
#[derive(Clone, Copy, Debug, PartialEq, Eq)]
pub enum ReplayTold {
    // Every act was done.
    Done(usize),
    // An act was at fault: 27, 28 or 29 with its index.
    Stopped(Refusal, usize),
}

// Why no shift was run.
#[derive(Clone, Copy, Debug, PartialEq, Eq)]
pub enum ReplayFault {
    // The book is not sound: 6 to 9.
    Book(Refusal),
    // START does not name each setting of the book once.
    Start,
    // The shift is refused. As text: 24, or 22 with the line as its place. As bytes: 24, or 26 for an odd
    // length.
    Shift(Refusal),
}

// `done K`.
fn done_line(count: usize, out: &mut [u8], to: usize) -> usize
    requires { Ends to (done_line count) }
    ensures { Wrote out.old to (done_line count) out.new result }
{
    let to = print_room::word(b"done ", out, to);
    let to = print_room::number(count as u64, out, to);
    print_room::put(b'\n', out, to)
}

// `now ~a b`, the settings as START writes them.
fn now_line(n: u8, present: u8, out: &mut [u8], to: usize) -> usize
    requires { (n ≤ 7) × Ends to (now_line n present) }
    ensures { Wrote out.old to (now_line n present) out.new result }
{
    let to = print_room::word(b"now ", out, to);
    let to = names(n, present, out, to);
    print_room::put(b'\n', out, to)
}

// The two lines of what was reached.
fn reached(n: u8, running: Running, out: &mut [u8]) -> usize
    requires { (n ≤ 7) × Ends 0 (reached_text n running) }
    ensures { Wrote out.old 0 (reached_text n running) out.new result }
{
    let present = running.present;
    let to = done_line(running.count, out, 0);
    now_line(n, present.0, out, to)
}

// Those two lines, and that of the act after them, which is at fault.
fn stopped(
    n: u8,
    shift: &[u8],
    bytes: &[u8],
    number: u64,
    running: Running,
    out: &mut [u8],
) -> usize
    requires { (n ≤ 7) × NextRecord shift.now bytes.now running }
    ensures { Wrote out.old 0 (stopped_text n shift.now bytes.now number running) out.new result }
{
    let present = running.present;
    let count = running.count;
    let byte = peek(bytes, RECORD * count);
    let seen = peek(bytes, RECORD * count + 1);
    let to = reached(n, running, out);
    fault_line(shift, count, byte, seen, number, n, present.0, out, to)
}

// What comes of the bytes of a shift, from these settings on, and what is printed of it.
fn print_bytes(
    book: &[u8],
    n: u8,
    start: u8,
    shift: &[u8],
    bytes: &[u8],
    out: &mut [u8],
) -> Result<ReplayTold, ReplayFault>
    requires { (n ≤ 7) × Readable shift.now bytes.now }
    ensures { PrintsBytes n book.now start shift.now bytes.now out.old result out.new }
{
    match station::replay(book, start as u64, bytes) {
        Err(why) => Err(ReplayFault::Shift(why)),
        Ok(Replayed::Whole(running)) => Ok(ReplayTold::Done(reached(n, running, out))),
        Ok(Replayed::Stopped(why, running)) => {
            let numbers = why.numbers();
            let count = stopped(n, shift, bytes, numbers.number, running, out);
            Ok(ReplayTold::Stopped(why, count))
        }
    }
}

// The same of a shift's text. Every text that is read fits the room.
fn print_text(
    book: &[u8],
    n: u8,
    start: u8,
    shift: &[u8],
    out: &mut [u8],
) -> Result<ReplayTold, ReplayFault>
    requires { n ≤ 7 }
    ensures { PrintsShift n book.now start shift.now (read_meaning shift.now) out.old result out.new }
{
    let mut room = [0u8; READ_MOST];
    match station_text::read(shift, &mut room) {
        Err(why) => Err(ReplayFault::Shift(why)),
        Ok(count) => print_bytes(book, n, start, shift, &room[..count], out),
    }
}

// The same of a shift, text or bytes.
fn print_shift(
    book: &[u8],
    n: u8,
    start: u8,
    shift: &[u8],
    out: &mut [u8],
) -> Result<ReplayTold, ReplayFault>
    requires { n ≤ 7 }
    ensures { PrintsShift n book.now start shift.now (shift_meaning shift.now) out.old result out.new }
{
    if station_text::is_text(shift) {
        return print_text(book, n, start, shift, out);
    }
    if SHIFT_MOST < shift.len() {
        return Err(ReplayFault::Shift(Refusal::SheetLength));
    }
    print_bytes(book, n, start, shift, shift, out)
}

// The same of a shift that begins where START says.
fn print_start(
    book: &[u8],
    n: u8,
    start: &[u8],
    shift: &[u8],
    out: &mut [u8],
) -> Result<ReplayTold, ReplayFault>
    requires { n ≤ 7 }
    ensures { PrintsStart n book.now (names_all n (start_words start.now)) start.now shift.now out.old result out.new }
{
    let Some(values) = read_start(n, start) else {
        return Err(ReplayFault::Start);
    };
    print_shift(book, n, values, shift, out)
}

// The same of any bytes as a book, as START and as a shift.
pub fn print(
    book: &[u8],
    start: &[u8],
    shift: &[u8],
    out: &mut [u8],
) -> Result<ReplayTold, ReplayFault>
    ensures { PrintsReplay book.now start.now shift.now out.old result out.new }
{
    let size = book_sound::sound(book).map_err(ReplayFault::Book)?;
    print_start(book, size.settings, start, shift, out)
}
