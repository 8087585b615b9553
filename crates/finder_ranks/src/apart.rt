// A state taken apart: its digits, and the two sides that they show, as numbers.
ghost use Rattle.std.specs.Prelude.{◌≡◌, ◌≤◌, ◌<◌, min};
ghost use Rattle.knowledge_acts.specs.Seven.{now_told, start_told};
ghost use Rattle.finder_sides.specs.Sides.{now_side_number};
ghost use Rattle.finder_ranks.specs.Apart.{Apart};

use finder_sides::up_to_seven;
use ground::SETTINGS_MOST;
use knowledge::Knowledge;

// What a digit tells of the present value: 0 unknown, 1 false, 2 true, as `knowledge_acts::now_side` has
// it for any byte. The seven answers are packed into one number, so that no branch is taken: this is asked
// for every setting of every state that is marked or pushed from. For this crate alone.
pub(crate) fn now_of(digit: u8) -> usize
    requires { digit < 7 }
    ensures { result ≡ now_told digit }
{
    (0x2121210 >> (4 * digit as usize)) % 16
}

// What a digit tells of the value at the start, packed likewise. For this crate alone.
pub(crate) fn start_of(digit: u8) -> usize
    requires { digit < 7 }
    ensures { result ≡ start_told digit }
{
    (0x2211000 >> (4 * digit as usize)) % 16
}

// The digit of each setting, and the present and the start side as numbers.
#[derive(Clone, Copy)]
pub struct Parts {
    pub digits: [u8; SETTINGS_MOST],
    pub now: usize,
    pub start: usize,
}

// Takes the state k of n settings apart, once for all settings; of a number with more digits, the lowest
// n. For this crate alone.
pub(crate) fn take_apart(n: usize, k: u32) -> Parts
    requires { n ≤ 7 }
    ensures { Apart n k result.now result.start result.digits }
{
    let state = Knowledge::from_number(k);
    let mut digits = [0u8; SETTINGS_MOST];
    let mut now = 0;
    let mut start = 0;
    let mut three = 1;
    for i in 0..n {
        let d = state.digit(i as u8);
        digits[i] = d;
        now += now_of(d) * three;
        start += start_of(d) * three;
        three *= 3;
    }
    Parts { digits, now, start }
}

// The present side of the state k, as a number: what its lowest n digits tell. More than seven settings
// count as seven.
pub fn side_of(n: u8, k: u32) -> usize
    ensures { result ≡ now_side_number (min n 7) k }
{
    take_apart(up_to_seven(n) as usize, k).now
}
