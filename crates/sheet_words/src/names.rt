// The words after `team` and `known`: each names a post or a setting, which may have `~` in front.
ghost use Rattle.std.specs.Prelude.{◌≡◌, ◌&&◌, ◌||◌, ℕ, ◌<◌, eqb};
ghost use Rattle.ground.specs.Digits.{bit};
ghost use Rattle.sheet_words.specs.Words.{split, space, is_false, bare, is_name};
ghost use Rattle.sheet_words.specs.Marks.{Marking, Names, are_names};

use crate::among;
use ground::{bit_of, peek};

// Whether `~` stands in front.
fn is_false(word: &[u8]) -> bool
    ensures { result ≡ is_false word.now }
{
    peek(word, 0) == b'~'
}

// The word without `~`.
fn bare(word: &[u8]) -> &[u8]
    ensures { result.now ≡ bare word.now }
{
    match word {
        [b'~', name @ ..] => name,
        _ => word,
    }
}

// Whether the word is one of the `count` signs from `first` on, where `signed` with or without `~`.
#[tactic(auto, unfolding(crate::specs::Words::is_name))]
fn is_name(signed: bool, first: u8, count: u8, word: &[u8]) -> bool
    ensures { result ≡ is_name signed first count word.now }
{
    let name = bare(word);
    (signed || !is_false(word)) && name.len() == 1 && among(first, count, name[0])
}

// How many things a byte can mark.
const MARKS_MOST: u8 = 8;

// What some words name: a bit for each thing, a bit for each without `~`, and whether one is named
// twice.
#[derive(Clone, Copy)]
pub struct Marks {
    pub named: u8,
    pub values: u8,
    pub twice: bool,
}

// The byte with bit i set.
fn with_bit(byte: u8, i: u8) -> u8
    requires { i < 8 }
    ensures { (j : ℕ) → bit result j ≡ (bit byte j || eqb i j) }
{
    byte | (1 << i)
}

// The same where the value is true.
fn with_value(byte: u8, i: u8, value: bool) -> u8
    requires { i < 8 }
    ensures { (j : ℕ) → bit result j ≡ (bit byte j || (value && eqb i j)) }
{
    if value { with_bit(byte, i) } else { byte }
}

// The marks with one thing more, one of eight.
fn mark(marks: Marks, i: u8, value: bool) -> Marks
    requires { i < 8 }
    ensures { Marking marks i value result }
{
    Marks {
        named: with_bit(marks.named, i),
        values: with_value(marks.values, i, value),
        twice: marks.twice || bit_of(marks.named, i),
    }
}

// What all words name, where each is one of the `count` signs from `first` on, and where `signed` may
// have `~` in front. None where one of them is no name, or where more things could be named than a byte
// can mark.
pub fn marks_of(signed: bool, first: u8, count: u8, words: &[u8]) -> Option<Marks>
    ensures { Names (are_names signed first count (split space words.now)) first (split space words.now) result }
{
    if MARKS_MOST < count {
        return None;
    }
    let mut marks = Marks {
        named: 0,
        values: 0,
        twice: false,
    };
    for word in words.split(|b| *b == b' ') {
        if !is_name(signed, first, count, word) {
            return None;
        }
        marks = mark(marks, bare(word)[0] - first, !is_false(word));
    }
    Some(marks)
}
