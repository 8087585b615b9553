// How an answer is written out: one of the three forms of the sheet program, a height without
// its plan, or a refusal with its second number, line by line, into a room that the caller lends. It refuses nothing: a room shorter than the answer holds as much of it as fits,
// and the length given is the whole answer's. Nothing past the answer is touched.
#![tactic(auto)]

mod listing;

ghost use Rattle.std.specs.Prelude.{◌≡◌, ◌≤◌, length, Some};
ghost use Rattle.plan.specs.Plans.{Plan};
ghost use Rattle.plan.specs.Bytes.{encode};
ghost use Rattle.print_room.specs.Wrote.{Wrote};
ghost use Rattle.print_answer.specs.Listed.{Lettered};
ghost use Rattle.print_answer.specs.Printed.{refused_at, refused_text, seconded_text, cannot_text, height_text, reach_text, Prints};

pub use listing::value_digit;

// `refused NUMBER PLACE` without the line's end, and its length.
fn refused_at(number: u64, place: usize, out: &mut [u8]) -> usize
    ensures { Wrote out.old 0 (refused_at number place) out.new result }
{
    let to = print_room::word(b"refused ", out, 0);
    let to = print_room::number(number, out, to);
    let to = print_room::put(b' ', out, to);
    print_room::number(place as u64, out, to)
}

// The answer `refused NUMBER PLACE`, and its length.
pub fn refused(number: u64, place: usize, out: &mut [u8]) -> usize
    ensures { Prints out.old (refused_text number place) result out.new }
{
    let to = refused_at(number, place, out);
    print_room::put(b'\n', out, to)
}

// The answer `refused NUMBER PLACE SECOND`, and its length.
fn refused_second(number: u64, place: usize, second: u8, out: &mut [u8]) -> usize
    ensures { Prints out.old (seconded_text number place (Some second)) result out.new }
{
    let to = refused_at(number, place, out);
    let to = print_room::put(b' ', out, to);
    let to = print_room::number(second as u64, out, to);
    print_room::put(b'\n', out, to)
}

// The same, or `refused NUMBER PLACE` where there is no second number.
pub fn seconded(number: u64, place: usize, second: Option<u8>, out: &mut [u8]) -> usize
    ensures { Prints out.old (seconded_text number place second) result out.new }
{
    match second {
        Some(second) => refused_second(number, place, second, out),
        None => refused(number, place, out),
    }
}

// The answer `cannot`, and its length.
pub fn cannot(out: &mut [u8]) -> usize
    ensures { Prints out.old cannot_text result out.new }
{
    print_room::word(b"cannot\n", out, 0)
}

// The line `reach H`, and its length.
fn reach_line(height: u8, out: &mut [u8]) -> usize
    ensures { Wrote out.old 0 (height_text height) out.new result }
{
    let to = print_room::word(b"reach ", out, 0);
    let to = print_room::number(height as u64, out, to);
    print_room::put(b'\n', out, to)
}

// The answer `reach H` without a plan, and its length.
pub fn reach_alone(height: u8, out: &mut [u8]) -> usize
    ensures { Prints out.old (height_text height) result out.new }
{
    reach_line(height, out)
}

// The answer `reach H` with a line for each byte of the plan, and its length. For this repository alone:
// the bytes are a whole plan's, as a finder writes it, so that each act has a letter and a digit.
pub fn reach(height: u8, plan: &[u8], out: &mut [u8]) -> usize
    requires { ((p : Plan) × (plan.now ≡ encode p) × Lettered p) × (length plan.now ≤ 32640) }
    ensures { (p : Plan) → plan.now ≡ encode p → Lettered p → Prints out.old (reach_text height p) result out.new }
{
    let to = reach_line(height, out);
    listing::lines(plan, 0, 0, out, to).to
}
