// All settings of a book, in the order of their letters: as START writes them, `~a b`, and in words, `a is
// off, b on`. Into a lent room from a place on; a place past the room is counted and not written.
ghost use Rattle.std.specs.Prelude.{◌≤◌, ◌<◌};
ghost use Rattle.print_room.specs.Wrote.{Ends, Wrote};
ghost use Rattle.station_print.specs.Settings.{between, verb, on_off, setting_name, setting_word, setting_names, setting_words};

use ground::bit_of;

// What stands before setting i: the text, but nothing before the first.
fn write_between(i: u8, text: &[u8], out: &mut [u8], to: usize) -> usize
    requires { Ends to (between i text.now) }
    ensures { Wrote out.old to (between i text.now) out.new result }
{
    if i == 0 {
        return to;
    }
    print_room::word(text, out, to)
}

// Setting i as START writes it.
fn name(i: u8, on: bool, out: &mut [u8], to: usize) -> usize
    requires { (i < 7) × Ends to (setting_name i on) }
    ensures { Wrote out.old to (setting_name i on) out.new result }
{
    let to = write_between(i, b" ", out, to);
    if on {
        return print_room::put(b'a' + i, out, to);
    }
    let to = print_room::put(b'~', out, to);
    print_room::put(b'a' + i, out, to)
}

// All n settings as START writes them.
pub(crate) fn names(n: u8, present: u8, out: &mut [u8], to: usize) -> usize
    requires { (n ≤ 7) × Ends to (setting_names n present) }
    ensures { Wrote out.old to (setting_names n present) out.new result }
{
    let mut at = to;
    for i in 0..n {
        at = name(i, bit_of(present, i), out, at);
    }
    at
}

// What stands between a setting and its value: the first has a verb.
fn write_verb(i: u8, out: &mut [u8], to: usize) -> usize
    requires { Ends to (verb i) }
    ensures { Wrote out.old to (verb i) out.new result }
{
    if i == 0 {
        return print_room::word(b" is ", out, to);
    }
    print_room::word(b" ", out, to)
}

// `on` or `off`.
fn write_value(on: bool, out: &mut [u8], to: usize) -> usize
    requires { Ends to (on_off on) }
    ensures { Wrote out.old to (on_off on) out.new result }
{
    if on {
        return print_room::word(b"on", out, to);
    }
    print_room::word(b"off", out, to)
}

// Setting i in words.
fn setting_word(i: u8, on: bool, out: &mut [u8], to: usize) -> usize
    requires { (i < 7) × Ends to (setting_word i on) }
    ensures { Wrote out.old to (setting_word i on) out.new result }
{
    let to = write_between(i, b", ", out, to);
    let to = print_room::put(b'a' + i, out, to);
    let to = write_verb(i, out, to);
    write_value(on, out, to)
}

// All n settings in words.
pub(crate) fn words(n: u8, present: u8, out: &mut [u8], to: usize) -> usize
    requires { (n ≤ 7) × Ends to (setting_words n present) }
    ensures { Wrote out.old to (setting_words n present) out.new result }
{
    let mut at = to;
    for i in 0..n {
        at = setting_word(i, bit_of(present, i), out, at);
    }
    at
}
