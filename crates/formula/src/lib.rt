// The formula reader: the bytes of a formula, as `a|b&~c`, to its 16-byte table, or a numbered
// refusal with its place. It takes any number of settings and any text, and writes nothing to what a caller lends.
#![tactic(auto)]

ghost use Rattle.formula.specs.Read.{ReadsFormula};

use ground::{SETTINGS_MOST, TABLE};
use refusal::Refusal;

// The most bytes of a formula: "Formula: 1 to 255 bytes".
pub const FORMULA_MOST: usize = 255;

// The table of the formula `text` over n settings, or the first refusal in the order 5, 1, the lowest
// place of 2 or 3, 4.
pub fn read(n: usize, text: &[u8]) -> Result<[u8; TABLE], Refusal>
    ensures { ReadsFormula n text.now result }
{
    if n < 1 || SETTINGS_MOST < n {
        return Err(Refusal::Settings);
    }
    if text.len() < 1 || FORMULA_MOST < text.len() {
        return Err(Refusal::FormulaLength);
    }
    formula_grammar::scan(n, text)?;
    let part = match formula_grammar::sum(text, 0) {
        Ok(part) => part,
        Err(at) => return Err(Refusal::NotSentence(at)),
    };
    if part.end < text.len() {
        return Err(Refusal::NotSentence(part.end));
    }
    Ok(part.truths.within(n).bytes())
}
