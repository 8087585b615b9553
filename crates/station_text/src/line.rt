// One line of a shift's text: whether it may stand there, and the record that it gives. Every function
// takes any bytes.
ghost use Rattle.std.specs.Prelude.{◌≡◌};
ghost use Rattle.print_room.specs.Wrote.{Ends, Wrote};
ghost use Rattle.station_text.specs.Lines.{gives_record, records_in, is_line, line_act, line_seen, line_record};

use ground::peek;
use knowledge_acts::Act;
use plancheck_text::{has_form, index};
use sheet_words::passed_over;

// Whether the line gives a record.
#[tactic(auto, unfolding(crate::specs::Lines::gives_record, crate::specs::Lines::is_look, crate::specs::Lines::is_set))]
fn gives_record(line: &[u8]) -> bool
    ensures { result ≡ gives_record line.now }
{
    has_form(b"look P G V", line) || has_form(b"set P G V", line)
}

// How many records the line gives: 1 or 0.
#[tactic(auto, unfolding(crate::specs::Lines::records_in))]
pub(crate) fn records_in(line: &[u8]) -> usize
    ensures { result ≡ records_in line.now }
{
    if gives_record(line) { 1 } else { 0 }
}

// Whether the line may stand in the text.
#[tactic(auto, unfolding(crate::specs::Lines::is_line))]
pub(crate) fn is_line(line: &[u8]) -> bool
    ensures { result ≡ is_line line.now }
{
    passed_over(line) || gives_record(line)
}

// The act byte of a line that gives a record; of any other it says nothing.
#[tactic(auto, unfolding(crate::specs::Lines::line_act, crate::specs::Lines::is_look))]
fn line_act(line: &[u8]) -> u8
    ensures { result ≡ line_act line.now }
{
    let act = if has_form(b"look P G V", line) {
        Act::Look {
            setting: index(b'a', peek(line, 5)),
            post: index(b'1', peek(line, 7)),
        }
    } else {
        Act::Set {
            setting: index(b'a', peek(line, 4)),
            post: index(b'1', peek(line, 6)),
            value: peek(line, 8) == b'1',
        }
    };
    act.byte()
}

// What was seen, on such a line: 0 for a set.
#[tactic(auto, unfolding(crate::specs::Lines::line_seen, crate::specs::Lines::is_look))]
fn line_seen(line: &[u8]) -> u8
    ensures { result ≡ line_seen line.now }
{
    if has_form(b"look P G V", line) {
        index(b'0', peek(line, 9))
    } else {
        0
    }
}

// Writes the record that the line gives, if it gives one.
#[tactic(auto, unfolding(crate::specs::Lines::line_record))]
pub(crate) fn write_record(line: &[u8], room: &mut [u8], to: usize) -> usize
    requires { Ends to (line_record line.now) }
    ensures { Wrote room.old to (line_record line.now) room.new result }
{
    if !gives_record(line) {
        return to;
    }
    let to = print_room::put(line_act(line), room, to);
    print_room::put(line_seen(line), room, to)
}
