// The lines that name things: `team G ..`, `known` and `held`.
ghost use Rattle.std.specs.Prelude.{ℕ, ◌≤◌};
ghost use Rattle.sheet_words.specs.Marks.{Names};
ghost use Rattle.sheet_question.specs.Asked.{Asked};
ghost use Rattle.sheet_question.specs.Desk.{AskedOnDesk, Steps};
ghost use Rattle.sheet_question.specs.Forms.{is_names, name_words};
ghost use Rattle.sheet_question.specs.Names.{NamesTaken};
ghost use Rattle.sheet_question.specs.LineSteps.{team_step, known_step, held_step};

use crate::desk::{AskedDesk, Due, Turn};
use ground::peek;
use refusal::Refusal;
use sheet_words::{Marks, begins, marks_of};

// What the line names after `word`, where it has that form: the word may stand `alone` or not, names may
// be `signed` with `~` or not, and are the `count` signs from `first` on.
fn names_in(
    word: &[u8],
    alone: bool,
    signed: bool,
    first: u8,
    count: u8,
    line: &[u8],
) -> Option<Marks>
    requires { count ≤ 8 }
    ensures { Names (is_names word.now alone signed first count line.now) first (name_words word.now line.now) result }
{
    if !begins(word, line) {
        return None;
    }
    let at = word.len();
    if line.len() == at && alone {
        return Some(Marks {
            named: 0,
            values: 0,
            twice: false,
        });
    }
    if peek(line, at) != b' ' {
        return None;
    }
    marks_of(signed, first, count, &line[at + 1..])
}

// The same, with the fault of a line that has not the form, or names a thing twice.
fn names_line(
    word: &[u8],
    alone: bool,
    signed: bool,
    first: u8,
    count: u8,
    line: &[u8],
    number: usize,
) -> Result<Marks, Refusal>
    requires { count ≤ 8 }
    ensures { NamesTaken number (is_names word.now alone signed first count line.now) first (name_words word.now line.now) result }
{
    let Some(marks) = names_in(word, alone, signed, first, count, line) else {
        return Err(Refusal::Malformed(number));
    };
    if marks.twice {
        return Err(Refusal::Twice(number));
    }
    Ok(marks)
}

// The line `team G ..`.
pub(crate) fn team_line(
    posts: u8,
    mut desk: AskedDesk,
    line: &[u8],
    number: usize,
) -> Result<Turn, Refusal>
    requires { posts ≤ 8 }
    ensures { (n : ℕ) (a : Asked) → AskedOnDesk n a desk → Steps n (team_step posts number a line.now) result }
{
    let marks = names_line(b"team", false, false, b'1', posts, line, number)?;
    desk.question.team = marks.named;
    Ok(Turn {
        due: Due::Known,
        desk,
    })
}

// The line `known`.
pub(crate) fn known_line(
    settings: u8,
    mut desk: AskedDesk,
    line: &[u8],
    number: usize,
) -> Result<Turn, Refusal>
    requires { settings ≤ 7 }
    ensures { (n : ℕ) (a : Asked) → AskedOnDesk n a desk → Steps n (known_step settings number a line.now) result }
{
    let marks = names_line(b"known", true, true, b'a', settings, line, number)?;
    desk.question.known = marks.named;
    desk.question.values = marks.values;
    Ok(Turn {
        due: Due::Held,
        desk,
    })
}

// The line `held`: the settings that no set act may touch.
pub(crate) fn held_line(
    settings: u8,
    mut desk: AskedDesk,
    line: &[u8],
    number: usize,
) -> Result<Turn, Refusal>
    requires { settings ≤ 7 }
    ensures { (n : ℕ) (a : Asked) → AskedOnDesk n a desk → Steps n (held_step settings number a line.now) result }
{
    let marks = names_line(b"held", true, false, b'a', settings, line, number)?;
    desk.question.held = marks.named;
    Ok(Turn {
        due: Due::Make,
        desk,
    })
}
