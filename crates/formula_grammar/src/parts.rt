// The three readers, for a sum, a product and a unit: each reads one part of the text from a place
// on, and they call one another in a cycle in which what is left of the text falls.
ghost use Rattle.std.specs.Prelude.{◌≡◌, get_or};
ghost use Rattle.ground.specs.Text.{byte};
ghost use Rattle.formula_grammar.specs.Grammar.{sum, product, unit};
ghost use Rattle.formula_grammar.specs.Automaton.{Parses};

use crate::signs::is_letter;
use formula_table::Truths;
use ground::peek;

// A whole part: its truths, and the place after it.
#[derive(Clone, Copy, Debug, PartialEq, Eq)]
pub struct Part {
    pub truths: Truths,
    pub end: usize,
}

// A unit: `~` and a unit, or a sum in round brackets, or a letter, or `0` or `1`. Here and below an `Err` is
// the first byte with which no sentence goes on; or the text's length, where it ends too soon.
#[cycle(product_sum_unit)]
fn unit(text: &[u8], at: usize) -> Result<Part, usize>
    ensures { Parses unit text.now at result }
{
    let c = peek(text, at);
    if c == b'~' {
        let part = unit(text, at + 1)?;
        return Ok(Part {
            truths: part.truths.negated(),
            end: part.end,
        });
    }
    if c == b'(' {
        let part = sum(text, at + 1)?;
        if peek(text, part.end) != b')' {
            return Err(part.end);
        }
        return Ok(Part {
            truths: part.truths,
            end: part.end + 1,
        });
    }
    atom(text, at)
}

// A product: one or more units joined by `&`.
#[cycle(product_sum_unit)]
fn product(text: &[u8], at: usize) -> Result<Part, usize>
    ensures { Parses product text.now at result }
{
    let factor = unit(text, at)?;
    if peek(text, factor.end) != b'&' {
        return Ok(factor);
    }
    let rest = product(text, factor.end + 1)?;
    Ok(Part {
        truths: factor.truths.and(rest.truths),
        end: rest.end,
    })
}

// A sum: one or more products joined by `|`.
#[cycle(product_sum_unit)]
pub fn sum(text: &[u8], at: usize) -> Result<Part, usize>
    ensures { Parses sum text.now at result }
{
    let term = product(text, at)?;
    if peek(text, term.end) != b'|' {
        return Ok(term);
    }
    let rest = sum(text, term.end + 1)?;
    Ok(Part {
        truths: term.truths.or(rest.truths),
        end: rest.end,
    })
}

// A unit of one byte, where no `~` and no bracket begins one.
fn atom(text: &[u8], at: usize) -> Result<Part, usize>
    requires { (get_or text.now at 0 ≡ byte "~" → ⊥) × (get_or text.now at 0 ≡ byte "(" → ⊥) }
    ensures { Parses unit text.now at result }
{
    let c = peek(text, at);
    let truths = if c == b'0' {
        Truths::constant(false)
    } else if c == b'1' {
        Truths::constant(true)
    } else if is_letter(c) {
        Truths::letter(c - b'a')
    } else {
        return Err(at);
    };
    Ok(Part {
        truths,
        end: at + 1,
    })
}
