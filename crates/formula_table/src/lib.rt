// The truths of a formula at all 128 valuations of seven settings, in two words: its table while it is worked
// on. A letter, `~`, `&` and `|` are one or two operations. Every function takes any words and any number;
// nothing is refused.
#![tactic(auto)]

ghost use Rattle.std.specs.Prelude.{◌≡◌, not, ◌&&◌, ◌||◌, cond, ◌<◌, ◌^◌, ltb};
ghost use Rattle.ground.specs.Digits.{bit};
ghost use Rattle.formula_table.specs.Two.{has, WordsOf, words_byte, BytesOf};

use ground::{SETTINGS_MOST, TABLE};

// Bit v of `low` for the valuations below 64, and bit v - 64 of `high` for the others.
#[derive(Clone, Copy, Debug, PartialEq, Eq)]
pub struct Truths {
    pub low: u64,
    pub high: u64,
}

// The bytes of a word.
const WORD: usize = TABLE / 2;

const EVERY: u64 = 0xffff_ffff_ffff_ffff;

// Bit v of entry i is bit i of v, for v below 64. Letter g is false there, and true at all others.
const LETTERS: [u64; 6] = [
    0xaaaa_aaaa_aaaa_aaaa,
    0xcccc_cccc_cccc_cccc,
    0xf0f0_f0f0_f0f0_f0f0,
    0xff00_ff00_ff00_ff00,
    0xffff_0000_ffff_0000,
    0xffff_ffff_0000_0000,
];

// Bit v of entry n is set for v below 2^n: the valuations of n settings below 64.
const WITHIN: [u64; 6] = [0x1, 0x3, 0xf, 0xff, 0xffff, 0xffff_ffff];

impl Truths {
    pub fn constant(value: bool) -> Truths
        ensures { WordsOf result (λ v. value) }
    {
        if value {
            Truths {
                low: EVERY,
                high: EVERY,
            }
        } else {
            Truths { low: 0, high: 0 }
        }
    }

    // The letter with index i: a is 0, g is 6. A valuation has no bit past 6, so a letter past g is false.
    pub fn letter(i: u8) -> Truths
        ensures { WordsOf result (λ v. bit v i) }
    {
        if i == 6 {
            return Truths {
                low: 0,
                high: EVERY,
            };
        }
        if 6 < i {
            return Truths { low: 0, high: 0 };
        }
        let word = LETTERS[i as usize];
        Truths {
            low: word,
            high: word,
        }
    }

    pub fn negated(self) -> Truths
        ensures { WordsOf result (λ v. not (has self v)) }
    {
        Truths {
            low: self.low ^ EVERY,
            high: self.high ^ EVERY,
        }
    }

    pub fn and(self, other: Truths) -> Truths
        ensures { WordsOf result (λ v. has self v && has other v) }
    {
        Truths {
            low: self.low & other.low,
            high: self.high & other.high,
        }
    }

    pub fn or(self, other: Truths) -> Truths
        ensures { WordsOf result (λ v. has self v || has other v) }
    {
        Truths {
            low: self.low | other.low,
            high: self.high | other.high,
        }
    }

    // No bit past 2^n. There are 128 bits in all, so seven settings or more keep every one.
    pub fn within(self, n: usize) -> Truths
        ensures { WordsOf result (λ v. has self v && ltb v (2 ^ n)) }
    {
        if SETTINGS_MOST <= n {
            return self;
        }
        if n == 6 {
            return Truths {
                low: self.low,
                high: 0,
            };
        }
        Truths {
            low: self.low & WITHIN[n],
            high: 0,
        }
    }

    // The word that holds byte j.
    fn word(self, j: usize) -> u64
        ensures { result ≡ cond (ltb j 8) self.low self.high }
    {
        if j < WORD {
            return self.low;
        }
        self.high
    }

    fn byte(self, j: usize) -> u8
        ensures { result ≡ words_byte self j }
    {
        let word = self.word(j);
        ((word >> (8 * (j % WORD))) % 256) as u8
    }

    // The sixteen bytes of the table.
    pub fn bytes(self) -> [u8; TABLE]
        ensures { BytesOf self result }
    {
        let mut table = [0u8; TABLE];
        for j in 0..TABLE {
            table[j] = self.byte(j);
        }
        table
    }
}
