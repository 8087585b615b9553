// How many settings count, and how many sides they have.
ghost use Rattle.std.specs.Prelude.{◌≡◌, ◌^◌, ◌≤◌, min};

// The most settings, as a byte.
const MOST: u8 = ground::SETTINGS_MOST as u8;

// The settings that count: of more than seven, seven.
pub fn up_to_seven(n: u8) -> u8
    ensures { result ≡ min n 7 }
{
    n.min(MOST)
}

// The sides of up to seven settings. For this crate alone.
pub(crate) fn sides(n: u8) -> usize
    requires { n ≤ 7 }
    ensures { result ≡ 3 ^ n }
{
    3usize.pow(n as u32)
}
