// A question text that may have a second leg behind a line `then`: what each leg asks, or the first refusal, with its
// line. A text of any length and content is taken, with any numbers of settings and posts; nothing is written to what a
// caller lends.
#![tactic(auto)]

ghost use Rattle.std.specs.Prelude.{◌≡◌, true, ◌≤◌, length};
ghost use Rattle.sheet_question.specs.Question.{question_meaning};
ghost use Rattle.sheet_question.specs.Second.{second_meaning};
ghost use Rattle.sheet_question.specs.Reads.{within};
ghost use Rattle.sheet_legs.specs.Legs.{is_then, one_leg, first_then, legs_meaning};
ghost use Rattle.sheet_legs.specs.Reads.{CutsAt, ReadsLegs};

use refusal::Refusal;
use sheet_question::{AskedDesk, read_question, second_leg};
use sheet_words::{Fault, TEXT_MOST, begins, first_line};

// What a question text asks: its first leg, and its second where it has one.
#[derive(Clone, Copy)]
pub struct Legs {
    pub first: AskedDesk,
    pub second: Option<AskedDesk>,
}

// The first line `then`: the byte where it begins, and its number.
#[derive(Clone, Copy)]
struct ThenLine {
    at: usize,
    number: usize,
}

// Whether the line is `then`.
fn is_then(line: &[u8]) -> bool
    ensures { result ≡ is_then line.now }
{
    line.len() == 4 && begins(b"then", line)
}

// The first line `then` of a text that is not too long.
fn then_line(text: &[u8]) -> Option<ThenLine>
    requires { length text.now ≤ 65536 }
    ensures { CutsAt text.now result }
{
    let mut rest = text;
    let mut number = 1;
    while let Some((line, after)) = first_line(rest) {
        if is_then(line) {
            return Some(ThenLine {
                at: text.len() - rest.len(),
                number,
            });
        }
        rest = after;
        number += 1;
    }
    None
}

// A text of one leg.
fn one_leg(text: &[u8], settings: u8, posts: u8) -> Result<Legs, Fault>
    ensures { ReadsLegs (within 7 settings) (one_leg (question_meaning 0 true (within 7 settings) (within 8 posts) text.now)) result }
{
    let first = read_question(text, settings, posts)?;
    Ok(Legs {
        first,
        second: None,
    })
}

// The text of a first leg, and that of a second behind the line `then` of this number.
fn two_legs(
    first: &[u8],
    second: &[u8],
    number: u32,
    settings: u8,
    posts: u8,
) -> Result<Legs, Fault>
    ensures { ReadsLegs (within 7 settings) (first_then (question_meaning 0 true (within 7 settings) (within 8 posts) first.now)
        (second_meaning number (within 7 settings) (within 8 posts) second.now)) result }
{
    let leg = read_question(first, settings, posts)?;
    let behind = second_leg(second, number, settings, posts)?;
    Ok(Legs {
        first: leg,
        second: Some(behind),
    })
}

// What a question text asks, over `settings` settings and `posts` posts, with one leg or with two, or its first
// refusal. Lines are numbered from 1 on, and some may be passed over. Settings outside 1 to 7 and posts outside 1 to 8
// are taken for the nearest of those.
pub fn read_legs(text: &[u8], settings: u8, posts: u8) -> Result<Legs, Fault>
    ensures { ReadsLegs (within 7 settings) (legs_meaning (within 7 settings) (within 8 posts) text.now) result }
{
    if TEXT_MOST < text.len() {
        return Err(Fault {
            why: Refusal::SheetLength,
            line: 0,
        });
    }
    let Some(then) = then_line(text) else {
        return one_leg(text, settings, posts);
    };
    two_legs(
        &text[..then.at],
        &text[then.at + 5..],
        then.number as u32,
        settings,
        posts,
    )
}
