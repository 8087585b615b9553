// The lines that state a right, `read P G F` and `write P G F`.
ghost use Rattle.std.specs.Prelude.{◌≡◌, List, ℕ, ◌<◌, ◌+◌, T, length};
ghost use Rattle.formula.specs.Read.{Accepts};
ghost use Rattle.sheet_words.specs.Steps.{next, unless_refused};
ghost use Rattle.sheet_rules.specs.Rules.{Rules};
ghost use Rattle.sheet_rules.specs.Forms.{is_rule, rule_of};
ghost use Rattle.sheet_rules.specs.Steps.{rule_step};
ghost use Rattle.sheet_rules.specs.Desk.{slot_of, OnDesk};
ghost use Rattle.sheet_rules.specs.Turns.{ruled_desk, Turns};

use crate::desk::RulesDesk;
use book_block::{Right, TABLES, table_at};
use ground::{TABLE, peek};
use refusal::Refusal;
use sheet_words::{among, begins};

// Whether the line states a right, where `word` is its first word with the space after it.
pub(crate) fn is_rule(word: &[u8], n: u8, m: u8, line: &[u8]) -> bool
    requires { length word.now < 8 }
    ensures { result ≡ is_rule word.now n m line.now }
{
    let at = word.len();
    begins(word, line)
        && among(b'a', n, peek(line, at))
        && peek(line, at + 1) == b' '
        && among(b'1', m, peek(line, at + 2))
        && peek(line, at + 3) == b' '
}

// The place of a right among all, counted in tables.
fn slot_of(right: Right, setting: u8, post: u8) -> usize
    ensures { result ≡ slot_of right setting post }
{
    (TABLES * (setting as usize) + table_at(post, right)) / TABLE
}

// The desk with one right more.
fn ruled(mut desk: RulesDesk, slot: usize, table: &[u8; TABLE]) -> RulesDesk
    requires { (length table.now ≡ 16) × (slot < 112) × (length desk.rights ≡ 1792) × (length desk.stated ≡ 112) }
    ensures { result ≡ ruled_desk desk slot table.now }
{
    desk.rights[TABLE * slot..TABLE * slot + TABLE].copy_from_slice(table);
    desk.stated[slot] = 1;
    desk
}

// Reads the formula of a right and puts its table in its place. What the text then states is for the
// caller to say: any rules that are on the desk with a table of this formula.
fn formula_line(desk: RulesDesk, slot: usize, text: &[u8]) -> Result<RulesDesk, Refusal>
    requires { (slot < 112) × (length desk.rights ≡ 1792) × (length desk.stated ≡ 112) }
    ensures { (rules : Rules) →
        ((t : List ℕ) → Accepts desk.settings text.now t → OnDesk rules (ruled_desk desk slot t)) →
        Turns (unless_refused desk.settings text.now (next rules)) result }
{
    let table = formula::read(desk.settings as usize, text)?;
    Ok(ruled(desk, slot, &table))
}

// A line that states a right, as `is_rule` says that it does.
pub(crate) fn rule_line(
    desk: RulesDesk,
    right: Right,
    word: &[u8],
    line: &[u8],
    number: usize,
) -> Result<RulesDesk, Refusal>
    requires { ((rules : Rules) × OnDesk rules desk) × (length word.now < 8) × T (is_rule word.now desk.settings desk.posts line.now) }
    ensures { (rules : Rules) → OnDesk rules desk → Turns (rule_step number rules (rule_of word.now right line.now)) result }
{
    let at = word.len();
    let setting = peek(line, at) - b'a';
    let post = peek(line, at + 2) - b'1';
    let slot = slot_of(right, setting, post);
    if desk.stated[slot] != 0 {
        return Err(Refusal::Twice(number));
    }
    formula_line(desk, slot, &line[at + 4..])
}
