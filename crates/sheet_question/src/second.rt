// The lines of a second leg: its team, then from `make` on what a question has. "`known` or `held` there is 22."
ghost use Rattle.std.specs.Prelude.{◌+◌, ◌≤◌, length};
ghost use Rattle.sheet_words.specs.Words.{split, newline};
ghost use Rattle.sheet_question.specs.Asked.{nothing_asked};
ghost use Rattle.sheet_question.specs.LineSteps.{team_step};
ghost use Rattle.sheet_question.specs.Second.{from_team, second_from, second_meaning};
ghost use Rattle.sheet_question.specs.Reads.{within, ReadsQuestion};

use crate::desk::{AskedDesk, Due, nothing_asked};
use crate::lines;
use crate::names::team_line;
use ground::{POSTS_MOST, SETTINGS_MOST};
use refusal::Refusal;
use sheet_words::{Fault, TEXT_MOST, first_line, passed_over};

// The team line, with its number, and the text that follows it.
fn from_team(
    line: &[u8],
    rest: &[u8],
    number: usize,
    settings: u8,
    posts: u8,
) -> Result<AskedDesk, Fault>
    requires { (1 ≤ settings) × (settings ≤ 7) × (posts ≤ 8) × (length rest.now ≤ 65536) × (number ≤ 4900000000) }
    ensures { ReadsQuestion settings (from_team settings posts number (split newline rest.now) (team_step posts number nothing_asked line.now)) result }
{
    match team_line(posts, nothing_asked(), line, number) {
        Ok(turn) => lines(
            rest,
            number + 1,
            true,
            settings,
            posts,
            Due::Make,
            turn.desk,
        ),
        Err(why) => Err(Fault { why, line: number }),
    }
}

// All lines of a text that is not too long, numbered from `before` + 1 on: the first that is not passed over is the
// team's.
fn second_lines(text: &[u8], before: u32, settings: u8, posts: u8) -> Result<AskedDesk, Fault>
    requires { (1 ≤ settings) × (settings ≤ 7) × (posts ≤ 8) × (length text.now ≤ 65536) }
    ensures { ReadsQuestion settings (second_from settings posts (before + 1) (split newline text.now)) result }
{
    let mut rest = text;
    let mut number = before as usize + 1;
    while let Some((line, after)) = first_line(rest) {
        if !passed_over(line) {
            return from_team(line, after, number, settings, posts);
        }
        rest = after;
        number += 1;
    }
    Err(Fault {
        why: Refusal::Malformed(number),
        line: number,
    })
}

// What the lines of a second leg ask, or the first refusal, over `settings` settings and `posts` posts: a team, a make
// formula and formulas to learn, with nothing known and nothing held. Lines are numbered from `before` + 1 on, and some
// may be passed over. Settings outside 1 to 7 and posts outside 1 to 8 are taken for the nearest of those.
pub fn second_leg(text: &[u8], before: u32, settings: u8, posts: u8) -> Result<AskedDesk, Fault>
    ensures { ReadsQuestion (within 7 settings) (second_meaning before (within 7 settings) (within 8 posts) text.now) result }
{
    if TEXT_MOST < text.len() {
        return Err(Fault {
            why: Refusal::SheetLength,
            line: 0,
        });
    }
    second_lines(
        text,
        before,
        settings.clamp(1, SETTINGS_MOST as u8),
        posts.clamp(1, POSTS_MOST as u8),
    )
}
