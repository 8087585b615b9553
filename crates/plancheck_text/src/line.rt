// One line of a plan's text: whether it is `reach H`, whether it is the line of a plan byte, and the byte
// that it names. Every function takes any bytes.
ghost use Rattle.std.specs.Prelude.{◌≡◌, ◌||◌, ◌-◌};
ghost use Rattle.plancheck_text.specs.Lines.{digit_count, is_number, is_reach_line, stands_for, has_form};
ghost use Rattle.plancheck_text.specs.Lines.{is_stop, is_look, is_set, words_byte, is_plan_line, line_byte};

use ground::peek;
use knowledge_acts::Act;
use sheet_words::{among, begins};

// How many digits the text begins with.
fn digit_count(text: &[u8]) -> usize
    ensures { result ≡ digit_count text.now }
{
    text.iter().take_while(|c| among(b'0', 10, **c)).count()
}

// Whether it is a decimal number: one or more digits and nothing else.
#[tactic(auto, unfolding(crate::specs::Lines::is_number))]
fn is_number(text: &[u8]) -> bool
    ensures { result ≡ is_number text.now }
{
    !text.is_empty() && digit_count(text) == text.len()
}

// Whether the line is `reach H`.
#[tactic(auto, unfolding(crate::specs::Lines::is_reach_line))]
pub(crate) fn is_reach(line: &[u8]) -> bool
    ensures { result ≡ is_reach_line line.now }
{
    begins(b"reach ", line) && is_number(&line[6..])
}

// Whether a byte is what the sign of a form stands for: `P` for a setting's letter, `G` for a post's
// digit, `V` for a value, and any other sign for itself.
#[tactic(auto, unfolding(crate::specs::Lines::stands_for))]
fn stands_for(sign: u8, c: u8) -> bool
    ensures { result ≡ stands_for sign c }
{
    match sign {
        b'P' => among(b'a', 7, c),
        b'G' => among(b'1', 8, c),
        b'V' => among(b'0', 2, c),
        _ => sign == c,
    }
}

// Whether the text has this form, byte by byte.
pub fn has_form(form: &[u8], text: &[u8]) -> bool
    ensures { result ≡ has_form form.now text.now }
{
    form.len() == text.len() && form.iter().zip(text).all(|(sign, c)| stands_for(*sign, *c))
}

// Whether the words name a stop or an act; the space before them is part of them.
#[tactic(auto, unfolding(crate::specs::Lines::is_stop, crate::specs::Lines::is_look, crate::specs::Lines::is_set))]
fn are_words(words: &[u8]) -> bool
    ensures { result ≡ (is_stop words.now || is_look words.now || is_set words.now) }
{
    has_form(b" stop", words) || has_form(b" look P G", words) || has_form(b" set P G V", words)
}

// What a sign names, counted from `first` on; 0 for a sign before it.
pub fn index(first: u8, c: u8) -> u8
    ensures { result ≡ c - first }
{
    c.saturating_sub(first)
}

// The plan byte that such words name; of any other words it says nothing.
#[tactic(auto, unfolding(crate::specs::Lines::words_byte, crate::specs::Lines::is_stop, crate::specs::Lines::is_look))]
fn words_byte(words: &[u8]) -> u8
    ensures { result ≡ words_byte words.now }
{
    if has_form(b" stop", words) {
        return 0;
    }
    let act = if has_form(b" look P G", words) {
        Act::Look {
            setting: index(b'a', peek(words, 6)),
            post: index(b'1', peek(words, 8)),
        }
    } else {
        Act::Set {
            setting: index(b'a', peek(words, 5)),
            post: index(b'1', peek(words, 7)),
            value: peek(words, 9) == b'1',
        }
    };
    act.byte()
}

// Whether the line is a depth and then words that name a stop or an act.
#[tactic(auto, using(crate::proofs::LineLaws::digits_most), unfolding(crate::specs::Lines::is_plan_line, crate::specs::Lines::after_depth))]
pub(crate) fn is_plan_line(line: &[u8]) -> bool
    ensures { result ≡ is_plan_line line.now }
{
    let end = digit_count(line);
    end != 0 && are_words(&line[end..])
}

// The plan byte of such a line.
#[tactic(auto, using(crate::proofs::LineLaws::digits_most), unfolding(crate::specs::Lines::line_byte, crate::specs::Lines::after_depth))]
pub(crate) fn line_byte(line: &[u8]) -> u8
    ensures { result ≡ line_byte line.now }
{
    let end = digit_count(line);
    words_byte(&line[end..])
}
