// A side of a knowledge state, the start's or the present one: what the state tells of it, by which a table
// is judged, and valuations of it. Start and present valuations have types of their own.
ghost use Rattle.std.specs.Prelude.{◌≡◌, drop};
ghost use Rattle.ground.specs.Table.{truth};
ghost use Rattle.knowledge.specs.Number.{digit_in};
ghost use Rattle.knowledge_judging.specs.Sides.{side_of, bits_of, told_of};

use ground::{Present, Start};
use knowledge::Knowledge;
use knowledge_acts::{now_side, start_side};

// The two sides of a knowledge digit.
#[derive(Clone, Copy, Debug, PartialEq, Eq)]
pub enum Side {
    // the value at the start
    Start,
    // the value now
    Now,
}

// A valuation of one side.
#[derive(Clone, Copy)]
pub(crate) enum Valuation {
    AtStart(Start),
    Present(Present),
}

impl Side {
    // The valuation of this side with these bits.
    pub(crate) fn valuation(self, bits: u8) -> Valuation
        ensures { (side_of result ≡ self) × (bits_of result ≡ bits) }
    {
        match self {
            Side::Start => Valuation::AtStart(Start(bits)),
            Side::Now => Valuation::Present(Present(bits)),
        }
    }

    // What the state tells of setting i on this side.
    pub(crate) fn told(self, state: Knowledge, i: u8) -> u8
        ensures { result ≡ told_of self (digit_in state.digits) i }
    {
        match self {
            Side::Start => start_side(state.digit(i)),
            Side::Now => now_side(state.digit(i)),
        }
    }
}

impl Valuation {
    // What the table that begins at byte `from` says of these settings.
    pub(crate) fn finds(self, bytes: &[u8], from: usize) -> bool
        ensures { result ≡ truth (drop from bytes.now) (bits_of self) }
    {
        match self {
            Valuation::AtStart(v) => v.finds(bytes, from),
            Valuation::Present(v) => v.finds(bytes, from),
        }
    }
}
