// What a side tells of the settings, as two masks: from here on a judgement asks the state nothing more.
ghost use Rattle.std.specs.Prelude.{◌≡◌, cond, ◌≤◌};
ghost use Rattle.knowledge.specs.Number.{digit_in};
ghost use Rattle.knowledge_judging.specs.Sides.{told_of};
ghost use Rattle.knowledge_judging.specs.Walk.{MasksOf};

use crate::valuation::Side;
use knowledge::Knowledge;

#[derive(Clone, Copy)]
pub(crate) struct Masks {
    // bit i: the value of setting i is unknown
    pub(crate) unknown: u8,
    // bit i: setting i is told to be true
    pub(crate) values: u8,
}

// What a side says of a setting whose value is unknown, and of one that is true.
const UNKNOWN: u8 = 0;

const TRUE: u8 = 2;

// The bit, or none.
fn bit_if(so: bool, bit: u8) -> u8
    ensures { (result ≡ cond so bit 0) × (result ≤ bit) }
{
    if so { bit } else { 0 }
}

// The masks of a side of up to seven settings.
pub(crate) fn masks_of(state: Knowledge, n: u8, side: Side) -> Masks
    requires { n ≤ 7 }
    ensures { MasksOf n (told_of side (digit_in state.digits)) result }
{
    let mut unknown: u8 = 0;
    let mut values: u8 = 0;
    for i in 0..n {
        let bit: u8 = 1 << i;
        let told = side.told(state, i);
        unknown += bit_if(told == UNKNOWN, bit);
        values += bit_if(told == TRUE, bit);
    }
    Masks { unknown, values }
}
