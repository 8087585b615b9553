// One record of a shift's bytes: whether text can say it, and its words.
ghost use Rattle.std.specs.Prelude.{◌≡◌, ◌<◌};
ghost use Rattle.print_room.specs.Wrote.{Ends, Wrote};
ghost use Rattle.station_text.specs.Records.{is_record, names, record_text};

use knowledge_acts::Act;
use print_answer::value_digit;

// Whether it is a record: an act, and what may be seen in it.
#[tactic(auto, unfolding(crate::specs::Records::is_record))]
pub fn is_record(byte: u8, seen: u8) -> bool
    ensures { result ≡ is_record byte seen }
{
    match Act::of_byte(byte) {
        None => false,
        Some(Act::Set { .. }) => seen == 0,
        Some(Act::Look { .. }) => seen <= 1,
    }
}

// `P G V`, by the indexes of the setting and the post.
fn write_names(setting: u8, post: u8, value: bool, out: &mut [u8], to: usize) -> usize
    requires { (setting < 7) × (post < 8) × Ends to (names setting post value) }
    ensures { Wrote out.old to (names setting post value) out.new result }
{
    let text = [b'a' + setting, b' ', b'1' + post, b' ', value_digit(value)];
    print_room::word(&text, out, to)
}

// The words of a record, without the line's end: `look P G V` with the value seen, or `set P G V` with the
// value set; nothing for a byte that names no act. For this repository alone: places stay below 2^64.
pub fn record_text(byte: u8, seen: u8, out: &mut [u8], to: usize) -> usize
    requires { Ends to (record_text byte seen) }
    ensures { Wrote out.old to (record_text byte seen) out.new result }
{
    match Act::of_byte(byte) {
        None => to,
        Some(
            Act::Set {
                setting,
                post,
                value,
            },
        ) => {
            let to = print_room::word(b"set ", out, to);
            write_names(setting, post, value, out, to)
        }
        Some(Act::Look { setting, post }) => {
            let to = print_room::word(b"look ", out, to);
            write_names(setting, post, seen == 1, out, to)
        }
    }
}
