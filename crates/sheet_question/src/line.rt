// Each line of a question, by what is due: the desk after it, or what is wrong with it.
ghost use Rattle.std.specs.Prelude.{◌≡◌, ◌≤◌, ◌<◌, ◌*◌};
ghost use Rattle.sheet_question.specs.Asked.{Asked};
ghost use Rattle.sheet_question.specs.Desk.{AskedOnDesk, Steps};
ghost use Rattle.sheet_question.specs.Places.{learn_desk};
ghost use Rattle.sheet_question.specs.LineSteps.{make_step, ask_step, held_or_make, due_step, line_step};

use crate::ASKS_MOST;
use crate::desk::{AskedDesk, Due, Turn};
use crate::names::{held_line, known_line, team_line};
use ground::TABLE;
use refusal::Refusal;
use sheet_words::{begins, passed_over};

// The line `make F`.
fn make_line(settings: u8, mut desk: AskedDesk, line: &[u8], number: usize) -> Result<Turn, Refusal>
    ensures { (a : Asked) → AskedOnDesk settings a desk → Steps settings (make_step settings number a line.now) result }
{
    if !begins(b"make ", line) {
        return Err(Refusal::Malformed(number));
    }
    let table = formula::read(settings as usize, &line[5..])?;
    desk.make = table;
    Ok(Turn {
        due: Due::Asks,
        desk,
    })
}

// The desk with one more formula to learn.
fn learning(mut desk: AskedDesk, table: &[u8; TABLE]) -> AskedDesk
    requires { desk.asks < 4 }
    ensures { result ≡ learn_desk desk table.now }
{
    let at = TABLE * (desk.asks as usize);
    desk.learn[at..at + TABLE].copy_from_slice(table);
    desk.asks += 1;
    desk
}

// The line `ask F`.
fn ask_line(settings: u8, desk: AskedDesk, line: &[u8], number: usize) -> Result<Turn, Refusal>
    ensures { (a : Asked) → AskedOnDesk settings a desk → Steps settings (ask_step settings number a line.now) result }
{
    if !begins(b"ask ", line) || ASKS_MOST <= desk.asks as usize {
        return Err(Refusal::Malformed(number));
    }
    let table = formula::read(settings as usize, &line[4..])?;
    Ok(Turn {
        due: Due::Asks,
        desk: learning(desk, &table),
    })
}

// The line `held`, or where it is left out the line `make F`.
fn held_or_make(settings: u8, desk: AskedDesk, line: &[u8], number: usize) -> Result<Turn, Refusal>
    requires { settings ≤ 7 }
    ensures { (a : Asked) → AskedOnDesk settings a desk → Steps settings (held_or_make settings number a line.now) result }
{
    if begins(b"held", line) {
        return held_line(settings, desk, line, number);
    }
    make_line(settings, desk, line, number)
}

// The line that is due.
fn due_line(
    settings: u8,
    posts: u8,
    due: Due,
    desk: AskedDesk,
    line: &[u8],
    number: usize,
) -> Result<Turn, Refusal>
    requires { (settings ≤ 7) × (posts ≤ 8) }
    ensures { (a : Asked) → AskedOnDesk settings a desk → Steps settings (due_step settings posts number due a line.now) result }
{
    match due {
        Due::Team => team_line(posts, desk, line, number),
        Due::Known => known_line(settings, desk, line, number),
        Due::Held => held_or_make(settings, desk, line, number),
        Due::Make => make_line(settings, desk, line, number),
        Due::Asks => ask_line(settings, desk, line, number),
    }
}

// A line with its number, in a text that may have lines that are passed over (`passes`) or may not.
pub(crate) fn any_line(
    passes: bool,
    settings: u8,
    posts: u8,
    due: Due,
    desk: AskedDesk,
    line: &[u8],
    number: usize,
) -> Result<Turn, Refusal>
    requires { (settings ≤ 7) × (posts ≤ 8) }
    ensures { (a : Asked) → AskedOnDesk settings a desk → Steps settings (line_step passes settings posts number due a line.now) result }
{
    if passes && passed_over(line) {
        return Ok(Turn { due, desk });
    }
    due_line(settings, posts, due, desk, line, number)
}
