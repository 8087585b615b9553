// The rank of every knowledge number, spread from the states that are marked.
ghost use Rattle.finder_ranks.specs.Spread.{Ready, Spread};

use crate::NONE;
use crate::counts::numbers;
use crate::round::round;
use finder_sides::SIDES;
use ground::SETTINGS_MOST;

// Spreads from the marks: `ranks` comes with 0 where the goal is settled and with NONE elsewhere. Round h
// pushes from the states of rank h - 1 to those before them. For this crate alone.
pub(crate) fn spread(
    n: u8,
    set: &[[u8; SIDES]; SETTINGS_MOST],
    look: &[[u8; SIDES]; SETTINGS_MOST],
    ranks: &mut [u8],
)
    requires { Ready n ranks.old }
    ensures { Spread n set.now look.now ranks.old ranks.new }
{
    let settings = n as usize;
    let size = numbers(n);
    for h in 1..NONE {
        if round(settings, size, h, set, look, ranks) == 0 {
            return;
        }
    }
}
