// How many knowledge numbers there are.
ghost use Rattle.std.specs.Prelude.{◌≡◌, ◌^◌, min};

use finder_sides::up_to_seven;

// The knowledge numbers of n settings, 7^n; for more than seven settings those of seven.
pub fn numbers(n: u8) -> usize
    ensures { result ≡ 7 ^ min n 7 }
{
    7usize.pow(up_to_seven(n) as u32)
}
