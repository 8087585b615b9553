// The judgement of a table at a side of a knowledge state: by the whole table, over every valuation that
// fits, so that `b|~b` is known where b is not. One function judges, rules and goals, for both sides. It
// walks through the values of the unknown settings alone: 2^u valuations for u of them.
ghost use Rattle.std.specs.Prelude.{◌≡◌, cond, ◌<◌, leb, drop};
ghost use Rattle.ground.specs.Table.{truth};
ghost use Rattle.knowledge.specs.Number.{digit_in};
ghost use Rattle.knowledge.specs.Fits.{is};
ghost use Rattle.knowledge.specs.Judgement.{judgement};
ghost use Rattle.knowledge.specs.declared.judgement.Judgement.TheVariants.{Neither};
ghost use Rattle.knowledge_judging.specs.Sides.{told_of};
ghost use Rattle.knowledge_judging.specs.Walk.{next_of, everywhere};

use crate::masks::masks_of;
use crate::valuation::Side;
use knowledge::{Judgement, Knowledge};

// Whether the table that begins at byte `from` has the value at these settings.
fn has_value(side: Side, v: u8, bytes: &[u8], from: usize, value: bool) -> bool
    ensures { result ≡ is value (truth (drop from bytes.now) v) }
{
    side.valuation(v).finds(bytes, from) == value
}

// The bits of all seven settings.
const ALL: u8 = 127;

// Those of the unknown settings that are true next: one is added where every known setting carries.
fn next(unknown: u8, some: u8) -> u8
    requires { (unknown < 128) × (some < 128) }
    ensures { result ≡ next_of unknown some }
{
    ((some | (ALL - unknown)) + 1) & unknown
}

// Whether the table has the value at these values, whichever of the unknown settings are true.
fn walk(side: Side, unknown: u8, values: u8, bytes: &[u8], from: usize, value: bool) -> bool
    requires { unknown < 128 }
    ensures { result ≡ everywhere value (drop from bytes.now) unknown values }
{
    let mut some: u8 = 0;
    while has_value(side, values | some, bytes, from, value) {
        some = next(unknown, some);
        if some == 0 {
            return true;
        }
    }
    false
}

// The judgement of the table that begins at byte `from`, at a side of the state. Of more than seven
// settings it is neither.
pub fn judge(state: Knowledge, n: u8, side: Side, bytes: &[u8], from: usize) -> Judgement
    ensures { result ≡ cond (leb n 7) (judgement n (told_of side (digit_in state.digits)) (drop from bytes.now)) Neither }
{
    if Knowledge::MOST < n as usize {
        return Judgement::Neither;
    }
    let masks = masks_of(state, n, side);
    if walk(side, masks.unknown, masks.values, bytes, from, true) {
        return Judgement::TrueAtAll;
    }
    if walk(side, masks.unknown, masks.values, bytes, from, false) {
        return Judgement::FalseAtAll;
    }
    Judgement::Neither
}
