// One line of rules: the size, and each line after it.
ghost use Rattle.std.specs.Prelude.{◌≡◌, T};
ghost use Rattle.sheet_rules.specs.Rules.{Rules};
ghost use Rattle.sheet_rules.specs.Forms.{is_size, is_of_rules};
ghost use Rattle.sheet_rules.specs.Steps.{size_step, line_step};
ghost use Rattle.sheet_rules.specs.Desk.{OnDesk};
ghost use Rattle.sheet_rules.specs.Turns.{Turns};

use crate::desk::{RulesDesk, sized};
use crate::rights::{is_rule, rule_line};
use book_block::Right;
use ground::{POSTS_MOST, SETTINGS_MOST, peek};
use refusal::Refusal;
use sheet_words::{among, begins, passed_over};

// "N outside 1 to 7, M outside 1 to 8 [..] are 22".
const SETTINGS: u8 = SETTINGS_MOST as u8;

const POSTS: u8 = POSTS_MOST as u8;

// Whether the line is `size N M`.
fn is_size(line: &[u8]) -> bool
    ensures { result ≡ is_size line.now }
{
    begins(b"size ", line)
        && line.len() == 8
        && among(b'1', SETTINGS, peek(line, 5))
        && peek(line, 6) == b' '
        && among(b'1', POSTS, peek(line, 7))
}

// The line where the size is due, with its number.
pub(crate) fn size_line(most: u8, line: &[u8], number: usize) -> Result<RulesDesk, Refusal>
    ensures { Turns (size_step most number line.now) result }
{
    if !is_size(line) {
        return Err(Refusal::Malformed(number));
    }
    let settings = peek(line, 5) - b'0';
    if most < settings {
        return Err(Refusal::SheetSettings);
    }
    Ok(sized(settings, peek(line, 7) - b'0'))
}

// Whether the line is one of the rules, after the size. Where it `passes`, some are passed over.
pub(crate) fn is_of_rules(passes: bool, n: u8, m: u8, line: &[u8]) -> bool
    ensures { result ≡ is_of_rules passes n m line.now }
{
    passes && passed_over(line) || is_rule(b"read ", n, m, line) || is_rule(b"write ", n, m, line)
}

// A line of the rules after the size, as `is_of_rules` says that it is, with its number.
pub(crate) fn rules_line(
    passes: bool,
    desk: RulesDesk,
    line: &[u8],
    number: usize,
) -> Result<RulesDesk, Refusal>
    requires { ((rules : Rules) × OnDesk rules desk) × T (is_of_rules passes desk.settings desk.posts line.now) }
    ensures { (rules : Rules) → OnDesk rules desk → Turns (line_step passes number rules line.now) result }
{
    if passes && passed_over(line) {
        return Ok(desk);
    }
    if is_rule(b"read ", desk.settings, desk.posts, line) {
        return rule_line(desk, Right::Look, b"read ", line, number);
    }
    rule_line(desk, Right::Set, b"write ", line, number)
}
