// The finder's examples: P6 with rooms that do and do not hold its plan, and a rank room of 48 and of 49
// bytes at n = 2.
use crate::say::say_refused;
use finder::Answer;
use knowledge::Goal;
use question::Question;
use refusal::Refusal;
use std::io;

// Where a rule's table stands in the rights: 256 bytes a setting, 32 a post, to look and then to set.
const READ_A_1: usize = 0;

const WRITE_A_1: usize = 16;

const READ_A_2: usize = 32;

const WRITE_A_2: usize = 32 + 16;

const READ_B_1: usize = 256;

const WRITE_B_1: usize = 256 + 16;

const READ_B_2: usize = 256 + 32;

const READ_C_1: usize = 512;

const READ_C_2: usize = 512 + 32;

const WRITE_C_2: usize = 512 + 32 + 16;

// A rule over three settings at most: its table's other bytes are zero, as the rights are before.
fn rule(n: usize, rights: &mut [u8], place: usize, text: &[u8]) {
    if let (Ok(table), Some(byte)) = (formula::read(n, text), rights.get_mut(place)) {
        *byte = table[0];
    }
}

// The bytes of a plan of this length, with a blank before each.
fn say_bytes(rt: &HostRuntime, plan: &[u8], length: usize) -> io::Result<()> {
    for byte in plan.iter().take(length) {
        print!(rt; " {byte}")?;
    }
    Ok(())
}

// One line: the example's name, then the answer.
fn show(
    rt: &HostRuntime,
    name: &str,
    answer: Result<Answer, Refusal>,
    plan: &[u8],
) -> io::Result<()> {
    rt.print(name)?;
    match answer {
        Ok(Answer::Reach { height, length }) => {
            print!(rt; " reach {height}, plan of {length} bytes")?;
            if length < 9 {
                rt.print(":")?;
                say_bytes(rt, plan, length)?;
            }
        }
        Ok(Answer::Cannot) => rt.print(" cannot")?,
        Err(why) => say_refused(rt, why)?,
    }
    rt.println("")
}

// The answer to a question over n settings, with nothing known and nothing to learn, in these rooms.
fn show_asked(
    rt: &HostRuntime,
    name: &str,
    book: &[u8],
    n: usize,
    team: u8,
    make: &[u8],
    ranks: &mut [u8],
    plan: &mut [u8],
) -> io::Result<()> {
    let table = formula::read(n, make).unwrap_or([0u8; 16]);
    let question = Question {
        team,
        known: 0,
        values: 0,
        held: 0,
    };
    let goal = Goal {
        make: &table,
        learn: &[],
    };
    let answer = finder::find(book, question, goal, ranks, plan);
    show(rt, name, answer, plan)
}

// The book of P6: `write a 2 ~c`, `write b 1 a`, `read c 2 1`, `write c 2 c`; looks that are not
// stated are open.
fn sixth(book: &mut [u8]) {
    let mut rights = [0u8; 768];
    rule(3, &mut rights, READ_A_1, b"1");
    rule(3, &mut rights, READ_A_2, b"1");
    rule(3, &mut rights, READ_B_1, b"1");
    rule(3, &mut rights, READ_B_2, b"1");
    rule(3, &mut rights, READ_C_1, b"1");
    rule(3, &mut rights, WRITE_A_2, b"~c");
    rule(3, &mut rights, WRITE_B_1, b"a");
    rule(3, &mut rights, READ_C_2, b"1");
    rule(3, &mut rights, WRITE_C_2, b"c");
    let _ = book::write(3, 2, &rights, book);
}

// P6 with this plan room.
fn show_sixth(rt: &HostRuntime, name: &str, plan: &mut [u8]) -> io::Result<()> {
    let mut book = [0u8; 2048];
    sixth(&mut book);
    show_asked(rt, name, &book, 3, 3, b"b", &mut [0u8; 343], plan)
}

pub(crate) fn plan_rooms(rt: &HostRuntime) -> io::Result<()> {
    show_sixth(rt, "P6, plan room 8:", &mut [0u8; 8])?;
    show_sixth(rt, "P6, plan room 7:", &mut [0u8; 7])
}

// The book of P11: `write a 1 b|~b`, and both looks open.
fn eleventh(book: &mut [u8]) {
    let mut rights = [0u8; 512];
    rule(2, &mut rights, READ_A_1, b"1");
    rule(2, &mut rights, READ_B_1, b"1");
    rule(2, &mut rights, WRITE_A_1, b"b|~b");
    let _ = book::write(2, 1, &rights, book);
}

// P11 with this rank room.
fn show_eleventh(rt: &HostRuntime, name: &str, ranks: &mut [u8]) -> io::Result<()> {
    let mut book = [0u8; 1536];
    eleventh(&mut book);
    show_asked(rt, name, &book, 2, 1, b"a", ranks, &mut [0u8; 2])
}

pub(crate) fn rank_rooms(rt: &HostRuntime) -> io::Result<()> {
    show_eleventh(rt, "n = 2, rank room 48:", &mut [0u8; 48])?;
    show_eleventh(rt, "n = 2, rank room 49:", &mut [0u8; 49])
}
