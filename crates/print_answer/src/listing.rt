// A line for each byte of a plan, into a lent room from a place on: the depth, then the act by its setting's
// letter and its post's digit. A place past the room is counted and not written. `lines` gives the places
// after the plan's bytes and after its lines.
ghost use Rattle.std.specs.Prelude.{◌≡◌, ◌<◌};
ghost use Rattle.knowledge_acts.specs.Acts.{setting_of, post_of};
ghost use Rattle.print_room.specs.Wrote.{Ends, Wrote};
ghost use Rattle.print_answer.specs.Listed.{value_digit, act_text, numbered};
ghost use Rattle.print_answer.specs.Inner.{Readable, Lines};

use knowledge_acts::Act;

// The places after a plan's bytes and after its lines.
#[derive(Clone, Copy)]
pub struct Next {
    pub at: usize,
    pub to: usize,
}

// V of a set act, and of what a look has seen: the digit of a value.
pub fn value_digit(value: bool) -> u8
    ensures { result ≡ value_digit value }
{
    if value { b'1' } else { b'0' }
}

// One line: the depth, the text, the end.
fn line(depth: u64, text: &[u8], out: &mut [u8], to: usize) -> usize
    requires { Ends to (numbered depth text.now) }
    ensures { Wrote out.old to (numbered depth text.now) out.new result }
{
    let to = print_room::number(depth, out, to);
    let to = print_room::put(b' ', out, to);
    let to = print_room::word(text, out, to);
    print_room::put(b'\n', out, to)
}

// The line of an act; its setting has a letter and its post a digit.
fn act_line(depth: u64, act: Act, out: &mut [u8], to: usize) -> usize
    requires { (setting_of act < 7) × (post_of act < 8) × Ends to (numbered depth (act_text act)) }
    ensures { Wrote out.old to (numbered depth (act_text act)) out.new result }
{
    match act {
        Act::Set {
            setting,
            post,
            value,
        } => {
            let text = [
                b's',
                b'e',
                b't',
                b' ',
                b'a' + setting,
                b' ',
                b'1' + post,
                b' ',
                value_digit(value),
            ];
            line(depth, &text, out, to)
        }
        Act::Look { setting, post } => {
            let text = [
                b'l',
                b'o',
                b'o',
                b'k',
                b' ',
                b'a' + setting,
                b' ',
                b'1' + post,
            ];
            line(depth, &text, out, to)
        }
    }
}

// The lines of the plan whose bytes begin at `at`, each depth counted from this one: such a plan is there,
// and places stay below 2^64. It is as deep as the plan.
pub(crate) fn lines(plan: &[u8], at: usize, depth: u64, out: &mut [u8], to: usize) -> Next
    requires { Readable plan.now at depth to }
    ensures { Lines plan.now at depth out.old to result out.new }
{
    let Some(act) = Act::of_byte(plan[at]) else {
        let to = line(depth, b"stop", out, to);
        return Next { at: at + 1, to };
    };
    let to = act_line(depth, act, out, to);
    match act {
        Act::Set { .. } => lines(plan, at + 1, depth + 1, out, to),
        Act::Look { .. } => {
            let no = lines(plan, at + 1, depth + 1, out, to);
            lines(plan, no.at, depth + 1, out, no.to)
        }
    }
}
