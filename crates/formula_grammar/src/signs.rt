// The bytes of a formula, and the first look over a text: the lowest place of a byte that no formula
// has, or of a letter past the settings.
ghost use Rattle.std.specs.Prelude.{◌≡◌};
ghost use Rattle.formula_grammar.specs.Signs.{is_letter, is_sign, is_stray, is_past};
ghost use Rattle.formula_grammar.specs.Scans.{Scans};

use refusal::Refusal;

// A letter, a to g.
pub fn is_letter(c: u8) -> bool
    ensures { result ≡ is_letter c }
{
    b'a' <= c && c <= b'g'
}

// A byte of a formula that is no letter.
fn is_sign(c: u8) -> bool
    ensures { result ≡ is_sign c }
{
    b"01~&|()".contains(&c)
}

// A byte that no formula has.
fn is_stray(c: u8) -> bool
    ensures { result ≡ is_stray c }
{
    !is_letter(c) && !is_sign(c)
}

// A letter at or past n.
fn is_past(n: usize, c: u8) -> bool
    ensures { result ≡ is_past n c }
{
    is_letter(c) && n <= (c - b'a') as usize
}

// 2 or 3, at the lowest place of a byte that no formula over n settings has; or nothing, where there is none.
pub fn scan(n: usize, text: &[u8]) -> Result<(), Refusal>
    ensures { Scans n text.now result }
{
    for (i, &c) in text.iter().enumerate() {
        if is_stray(c) {
            return Err(Refusal::StrayByte(i));
        }
        if is_past(n, c) {
            return Err(Refusal::LetterPast(i));
        }
    }
    Ok(())
}
