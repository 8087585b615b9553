// Pieces of a text between marks: the lines of a sheet, and the words of a line. And the words that
// name settings or posts by their signs. Every function takes any text; nothing is refused, and nothing
// is written to what a caller lends.
#![tactic(auto)]

mod names;

ghost use Rattle.std.specs.Prelude.{◌≡◌, [], ◌∷◌};
ghost use Rattle.std.specs.Option.{MatchOption};
ghost use Rattle.sheet_words.specs.Words.{split, newline, piece_end, begins, passed_over, among};
ghost use Rattle.sheet_words.specs.Lines.{LineCut};

pub use names::{Marks, marks_of};
use refusal::Refusal;

// "Rules and question texts have at most 65,536 bytes (else 24)."
pub const TEXT_MOST: usize = 65536;

// Why a text is refused, and the line that is printed as the refusal's place; 0 where no line is.
#[derive(Clone, Copy, Debug, PartialEq, Eq)]
pub struct Fault {
    pub why: Refusal,
    pub line: usize,
}

// Where the piece that begins at `at` ends: the place of the next mark, or the text's end; `at` itself
// where that is past the end.
pub fn piece_end(text: &[u8], at: usize, mark: u8) -> usize
    ensures { result ≡ piece_end text.now at mark }
{
    if text.len() <= at {
        return at;
    }
    for i in at..text.len() {
        if text[i] == mark {
            return i;
        }
    }
    text.len()
}

// The first line of a text and the text that follows it; None where no byte 10 ends a line.
pub fn first_line(text: &[u8]) -> Option<(&[u8], &[u8])>
    ensures { MatchOption result (split newline text.now ≡ text.now ∷ []) (λ cut. LineCut text.now cut.0.now cut.1.now) }
{
    let end = piece_end(text, 0, b'\n');
    if end < text.len() {
        Some((&text[..end], &text[end + 1..]))
    } else {
        None
    }
}

// Whether the line begins with these bytes.
pub fn begins(word: &[u8], line: &[u8]) -> bool
    ensures { result ≡ begins word.now line.now }
{
    line.starts_with(word)
}

// Whether the line is passed over where a text may have comments: it is empty, or begins with `#`.
#[tactic(auto, using(crate::proofs::Fronts::passed_empty, crate::proofs::Fronts::passed_first))]
pub fn passed_over(line: &[u8]) -> bool
    ensures { result ≡ passed_over line.now }
{
    line.is_empty() || line[0] == b'#'
}

// Whether c is one of the `count` signs from `first` on.
#[tactic(auto, using(crate::proofs::Fronts::among_shifted), unfolding(crate::specs::Words::among))]
pub fn among(first: u8, count: u8, c: u8) -> bool
    ensures { result ≡ among first count c }
{
    first <= c && c - first < count
}
