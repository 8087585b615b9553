// The lines of a question, `team` to `ask`, with `held` after `known`, and those of a second leg, which has neither
// of the two: what they ask, or the first refusal, with its line. A text of any length and content is taken, with any
// numbers of settings and posts; nothing is written to what a caller lends.
#![tactic(auto)]

mod desk;
mod line;
mod names;
mod second;

ghost use Rattle.std.specs.Prelude.{true, ℕ, ◌+◌, ◌≤◌, length};
ghost use Rattle.sheet_words.specs.Words.{split, newline};
ghost use Rattle.sheet_question.specs.Asked.{Asked};
ghost use Rattle.sheet_question.specs.Desk.{AskedOnDesk};
ghost use Rattle.sheet_question.specs.Question.{ending, asked_from, question_meaning};
ghost use Rattle.sheet_question.specs.Reads.{within, ReadsQuestion};

use crate::desk::Due;
use crate::line::any_line;
pub use desk::{AskedDesk, nothing_asked};
use ground::{POSTS_MOST, SETTINGS_MOST};
use refusal::Refusal;
pub use second::second_leg;
use sheet_words::{Fault, TEXT_MOST, first_line};

// The most formulas to learn: "up to four `ask F`".
pub const ASKS_MOST: usize = 4;

// What follows the last byte 10, at this line: nothing may, and the make formula must have come.
fn ending(due: Due, desk: AskedDesk, rest: &[u8], number: usize) -> Result<AskedDesk, Fault>
    ensures { (n : ℕ) (a : Asked) → AskedOnDesk n a desk → ReadsQuestion n (ending due a rest.now number) result }
{
    if matches!(due, Due::Asks) && rest.is_empty() {
        return Ok(desk);
    }
    Err(Fault {
        why: Refusal::Malformed(number),
        line: number,
    })
}

// All lines of a text that is not too long, the first of which has this number; the line `from` is due, and this is
// asked already.
fn lines(
    text: &[u8],
    first: usize,
    passes: bool,
    settings: u8,
    posts: u8,
    from: Due,
    begun: AskedDesk,
) -> Result<AskedDesk, Fault>
    requires { (settings ≤ 7) × (posts ≤ 8) × (length text.now ≤ 65536) × (first ≤ 5000000000) }
    ensures { (a : Asked) → AskedOnDesk settings a begun → ReadsQuestion settings (asked_from passes settings posts first from a (split newline text.now)) result }
{
    let mut due = from;
    let mut desk = begun;
    let mut rest = text;
    let mut number = first;
    while let Some((line, after)) = first_line(rest) {
        match any_line(passes, settings, posts, due, desk, line, number) {
            Ok(turn) => {
                due = turn.due;
                desk = turn.desk;
            }
            Err(why) => return Err(Fault { why, line: number }),
        }
        rest = after;
        number += 1;
    }
    ending(due, desk, rest, number)
}

// What a question's lines ask, over `settings` settings and `posts` posts, or the first refusal; lines are
// numbered from `before` + 1 on, and where `passes` those that begin with `#` and empty ones are passed
// over. Settings outside 1 to 7 and posts outside 1 to 8 are taken for the nearest of those.
pub fn question_of(
    text: &[u8],
    before: u32,
    passes: bool,
    settings: u8,
    posts: u8,
) -> Result<AskedDesk, Fault>
    ensures { ReadsQuestion (within 7 settings) (question_meaning before passes (within 7 settings) (within 8 posts) text.now) result }
{
    if TEXT_MOST < text.len() {
        return Err(Fault {
            why: Refusal::SheetLength,
            line: 0,
        });
    }
    lines(
        text,
        before as usize + 1,
        passes,
        settings.clamp(1, SETTINGS_MOST as u8),
        posts.clamp(1, POSTS_MOST as u8),
        Due::Team,
        nothing_asked(),
    )
}

// A question text of its own: lines are numbered from 1 on, and some may be passed over.
pub fn read_question(text: &[u8], settings: u8, posts: u8) -> Result<AskedDesk, Fault>
    ensures { ReadsQuestion (within 7 settings) (question_meaning 0 true (within 7 settings) (within 8 posts) text.now) result }
{
    question_of(text, 0, true, settings, posts)
}
