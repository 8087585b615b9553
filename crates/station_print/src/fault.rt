// The line of an act at fault: which act it is, its words, and why it was not allowed. Into a lent room
// from a place on; a place past the room is counted and not written.
ghost use Rattle.std.specs.Prelude.{◌≤◌};
ghost use Rattle.print_room.specs.Wrote.{Ends, Wrote};
ghost use Rattle.station_print.specs.Faults.{place_text, record_words, fault_numbered, why_text, fault_text};

use crate::settings::words;
use print_answer::value_digit;
use station_text::{is_record, is_text, line_of, record_text};

// `act K`, and `, line L` of a shift that is text.
fn place(shift: &[u8], index: usize, out: &mut [u8], to: usize) -> usize
    requires { Ends to (place_text shift.now index) }
    ensures { Wrote out.old to (place_text shift.now index) out.new result }
{
    let to = print_room::word(b"act ", out, to);
    let to = print_room::number(index as u64, out, to);
    if !is_text(shift) {
        return to;
    }
    let to = print_room::word(b", line ", out, to);
    print_room::number(line_of(shift, index).unwrap_or(0) as u64, out, to)
}

// A record's words, or its two bytes where it is none that text can say.
fn record_words(byte: u8, seen: u8, out: &mut [u8], to: usize) -> usize
    requires { Ends to (record_words byte seen) }
    ensures { Wrote out.old to (record_words byte seen) out.new result }
{
    if is_record(byte, seen) {
        return record_text(byte, seen, out, to);
    }
    let to = print_room::word(b"bytes ", out, to);
    let to = print_room::number(byte as u64, out, to);
    let to = print_room::put(b' ', out, to);
    print_room::number(seen as u64, out, to)
}

// Why the act was not allowed, by the number of its refusal.
fn why(number: u64, n: u8, present: u8, seen: u8, out: &mut [u8], to: usize) -> usize
    requires { (n ≤ 7) × Ends to (why_text (fault_numbered number) n present seen) }
    ensures { Wrote out.old to (why_text (fault_numbered number) n present seen) out.new result }
{
    if number == 27 {
        return print_room::word(b"no record of this book", out, to);
    }
    if number == 28 {
        let to = print_room::word(b"not permitted where ", out, to);
        return words(n, present, out, to);
    }
    let to = print_room::word(b"shows ", out, to);
    let to = print_room::put(value_digit(seen == 0), out, to);
    let to = print_room::word(b" where ", out, to);
    words(n, present, out, to)
}

// The whole line.
pub(crate) fn fault_line(
    shift: &[u8],
    index: usize,
    byte: u8,
    seen: u8,
    number: u64,
    n: u8,
    present: u8,
    out: &mut [u8],
    to: usize,
) -> usize
    requires { (n ≤ 7) × Ends to (fault_text shift.now index byte seen number n present) }
    ensures { Wrote out.old to (fault_text shift.now index byte seen number n present) out.new result }
{
    let to = place(shift, index, out, to);
    let to = print_room::word(b", ", out, to);
    let to = record_words(byte, seen, out, to);
    let to = print_room::word(b": ", out, to);
    let to = why(number, n, present, seen, out, to);
    print_room::put(b'\n', out, to)
}
