// The rules of a text: the lines `size`, `read` and `write`. They stand at the beginning of a sheet, or
// alone in a text of rules, where lines that begin with `#` and empty lines are passed over. A text of any
// length and content is taken: what its rules state, or its first refusal, with the line. Nothing is
// written to what a caller lends.
#![tactic(auto)]

mod desk;
mod line;
mod rights;
mod unstated;

ghost use Rattle.std.specs.Prelude.{suc, ◌+◌, ◌≤◌, length};
ghost use Rattle.sheet_words.specs.Words.{split, newline};
ghost use Rattle.sheet_rules.specs.Rules.{Rules};
ghost use Rattle.sheet_rules.specs.Desk.{OnDesk};
ghost use Rattle.sheet_rules.specs.Steps.{size_step};
ghost use Rattle.sheet_rules.specs.Reading.{rules_from, after_size, rules_of};
ghost use Rattle.sheet_rules.specs.Meaning.{rules_meaning};
ghost use Rattle.sheet_rules.specs.Turns.{Rest};
ghost use Rattle.sheet_rules.specs.Reads.{ReadsUpto, ReadsRules};

use crate::line::{is_of_rules, rules_line, size_line};
pub use desk::RulesDesk;
use refusal::Refusal;
use sheet_words::{Fault, TEXT_MOST, first_line, passed_over, piece_end};

// "N up to 7": the most settings of a text of rules.
const RULES_SETTINGS_MOST: u8 = ground::SETTINGS_MOST as u8;

// What the rules at the beginning of a text state, and where they end: at byte `at`, and `lines` lines are
// before it, those that are passed over counted. What stands there is no line of rules, or is what follows
// the last byte 10.
#[derive(Clone, Copy)]
pub struct RulesRead {
    pub desk: RulesDesk,
    pub at: usize,
    pub lines: usize,
}

// The lines after the size: those of `behind`, what is left of the text, which begins line `first`.
fn after_size(
    passes: bool,
    text: &[u8],
    behind: &[u8],
    first: usize,
    size: RulesDesk,
) -> Result<RulesRead, Fault>
    requires { ((rules : Rules) × OnDesk rules size) × Rest text.now behind.now × (1 ≤ first) × (first + length behind.now ≤ suc (length text.now)) × (length text.now ≤ 65536) }
    ensures { (rules : Rules) → OnDesk rules size → ReadsUpto text.now (rules_from passes first rules (split newline behind.now)) result }
{
    let mut desk = size;
    let mut rest = behind;
    let mut number = first;
    while let Some((line, after)) = first_line(rest) {
        if !is_of_rules(passes, desk.settings, desk.posts, line) {
            break;
        }
        match rules_line(passes, desk, line, number) {
            Ok(next) => desk = next,
            Err(why) => return Err(Fault { why, line: number }),
        }
        rest = after;
        number += 1;
    }
    Ok(RulesRead {
        desk,
        at: text.len() - rest.len(),
        lines: number - 1,
    })
}

// The line `number`, where the size is due, and those after it, of `behind`, what is left of the text.
fn from_size(
    passes: bool,
    most: u8,
    text: &[u8],
    line: &[u8],
    behind: &[u8],
    number: usize,
) -> Result<RulesRead, Fault>
    requires { Rest text.now behind.now × (1 ≤ number) × (number + length behind.now ≤ length text.now) × (length text.now ≤ 65536) }
    ensures { ReadsUpto text.now (after_size passes number (size_step most number line.now) (split newline behind.now)) result }
{
    match size_line(most, line, number) {
        Ok(size) => after_size(passes, text, behind, number + 1, size),
        Err(why) => Err(Fault { why, line: number }),
    }
}

// The rules at the beginning of a text: its lines up to the first that is none of theirs, or up to what
// follows the last byte 10. Where it `passes`, lines that begin with `#` and empty lines are passed over.
// More than `most` settings are 25; `is_size` takes up to 7. The loop goes by the place of a byte: by what is
// left of the text, as in `after_size`, a text of empty lines took 1.5 times as long.
pub fn rules_of(text: &[u8], passes: bool, most: u8) -> Result<RulesRead, Fault>
    ensures { ReadsUpto text.now (rules_of passes most text.now) result }
{
    if TEXT_MOST < text.len() {
        return Err(Fault {
            why: Refusal::SheetLength,
            line: 0,
        });
    }
    let mut at = 0;
    let mut at_line = 1;
    loop {
        let end = piece_end(text, at, b'\n');
        if text.len() <= end {
            return Err(Fault {
                why: Refusal::Malformed(at_line),
                line: at_line,
            });
        }
        let line = &text[at..end];
        if !passes || !passed_over(line) {
            return from_size(passes, most, text, line, &text[end + 1..], at_line);
        }
        at = end + 1;
        at_line += 1;
    }
}

// A whole text of rules: what it states, or its first refusal. A line that is none of the rules' is 22.
pub fn read_rules(text: &[u8]) -> Result<RulesDesk, Fault>
    ensures { ReadsRules (rules_meaning text.now) result }
{
    let rules = rules_of(text, true, RULES_SETTINGS_MOST)?;
    if rules.at != text.len() {
        let line = rules.lines + 1;
        return Err(Fault {
            why: Refusal::Malformed(line),
            line,
        });
    }
    Ok(rules.desk)
}
