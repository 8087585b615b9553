// A knowledge state, by value: an act changes one digit and hands back the new state.
ghost use Rattle.std.specs.Prelude.{◌≡◌, ◌*◌, ◌≤◌, set};
ghost use Rattle.knowledge_acts.specs.Seven.{after_set, after_look};
ghost use Rattle.knowledge.specs.Number.{digit_in, number_of, digits_of, first_at, first_digits};

use ground::bit_of;

// What a team knows: the digit of each setting.
#[derive(Clone, Copy, Debug, PartialEq, Eq)]
pub struct Knowledge {
    digits: [u8; Knowledge::MOST],
}

// A digit's part of the knowledge number; the power is at most 7^6, that of the seventh setting.
fn weighed(digit: u8, power: u32) -> u32
    requires { power ≤ 117649 }
    ensures { (result ≡ digit * power) × (result ≤ 255 * power) }
{
    digit as u32 * power
}

// The digit of setting i at the start.
#[tactic(auto, unfolding(crate::specs::Number::first_at))]
fn first_at(known: u8, values: u8, i: u8) -> u8
    ensures { result ≡ first_at known values i }
{
    knowledge_acts::first_digit(bit_of(known, i), bit_of(values, i))
}

impl Knowledge {
    // The most settings that a state has digits for.
    pub const MOST: usize = ground::SETTINGS_MOST;

    // The state with this knowledge number; of a number with more than seven digits, the lowest seven.
    #[tactic(auto, unfolding(crate::specs::Number::digits_of, ground::specs::Digits::digit))]
    pub fn from_number(number: u32) -> Self
        ensures { result.digits ≡ digits_of number }
    {
        Knowledge {
            digits: [
                (number % 7) as u8,
                (number / 7 % 7) as u8,
                (number / 49 % 7) as u8,
                (number / 343 % 7) as u8,
                (number / 2401 % 7) as u8,
                (number / 16807 % 7) as u8,
                (number / 117649 % 7) as u8,
            ],
        }
    }

    // The state at the start of a question: bit i of `known` says that setting i is known, and bit i of
    // `values` that it is true.
    #[tactic(auto, unfolding(crate::specs::Number::first_digits))]
    pub fn at_start(known: u8, values: u8) -> Self
        ensures { result.digits ≡ first_digits known values }
    {
        Knowledge {
            digits: [
                first_at(known, values, 0),
                first_at(known, values, 1),
                first_at(known, values, 2),
                first_at(known, values, 3),
                first_at(known, values, 4),
                first_at(known, values, 5),
                first_at(known, values, 6),
            ],
        }
    }

    // The knowledge number: the sum of digit × 7^i.
    #[tactic(auto, unfolding(crate::specs::Number::sum_of))]
    pub fn number(self) -> u32
        ensures { result ≡ number_of 7 (digit_in self.digits) }
    {
        let d = self.digits;
        let low = weighed(d[0], 1) + weighed(d[1], 7) + weighed(d[2], 49) + weighed(d[3], 343);
        low + weighed(d[4], 2401) + weighed(d[5], 16807) + weighed(d[6], 117649)
    }

    // The digit of a setting, 0 past the seven.
    pub fn digit(self, setting: u8) -> u8
        ensures { result ≡ digit_in self.digits setting }
    {
        let i = setting as usize;
        if Knowledge::MOST <= i {
            return 0;
        }
        self.digits[i]
    }

    // The state with another digit for a setting; past the seven settings, the state as it is.
    fn with_digit(mut self, setting: u8, digit: u8) -> Self
        ensures { result.digits ≡ set self.digits setting digit }
    {
        let i = setting as usize;
        if i < Knowledge::MOST {
            self.digits[i] = digit;
        }
        self
    }

    // The state after the setting was set to the value.
    pub fn after_set(self, setting: u8, value: bool) -> Self
        ensures { result.digits ≡ set self.digits setting (after_set (digit_in self.digits setting) value) }
    {
        self.with_digit(
            setting,
            knowledge_acts::after_set(self.digit(setting), value),
        )
    }

    // The state after a look at the setting that saw the value.
    pub fn after_look(self, setting: u8, value: bool) -> Self
        ensures { result.digits ≡ set self.digits setting (after_look value) }
    {
        self.with_digit(setting, knowledge_acts::after_look(value))
    }
}
