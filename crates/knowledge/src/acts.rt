// Acts on knowledge numbers, for a caller that keeps a state as its number: from a number to the number after the act.
ghost use Rattle.std.specs.Prelude.{◌≡◌, ◌<◌, ◌^◌, set};
ghost use Rattle.knowledge_acts.specs.Acts.{set_to, look_at};
ghost use Rattle.knowledge_acts.specs.Seven.{after_set, after_look};
ghost use Rattle.knowledge.specs.Number.{digit_in, number_of, digits_of};

use crate::state::Knowledge;

// The knowledge number after the setting was set to the value; past the seven digits and the seven settings, as the
// state has it.
pub fn set_to(k: u32, setting: u8, value: bool) -> u32
    ensures state { result ≡ number_of 7 (digit_in (set (digits_of k) setting (after_set (digit_in (digits_of k) setting) value))) }
    ensures number { k < 7 ^ 7 → setting < 7 → result ≡ set_to k setting value }
{
    Knowledge::from_number(k).after_set(setting, value).number()
}

// The knowledge number after a look at the setting that saw the value; past seven, as above.
pub fn look_at(k: u32, setting: u8, value: bool) -> u32
    ensures state { result ≡ number_of 7 (digit_in (set (digits_of k) setting (after_look value))) }
    ensures number { k < 7 ^ 7 → setting < 7 → result ≡ look_at k setting value }
{
    Knowledge::from_number(k)
        .after_look(setting, value)
        .number()
}
