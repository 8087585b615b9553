// "The replay has one running record that each act updates": a small struct that is lent, and one thin
// function over it.
ghost use Rattle.std.specs.Prelude.{◌≡◌, ◌+◌, ◌^◌, ◌<◌};
ghost use Rattle.station.specs.Shift.{stepped_by};

use crate::act::after;
use ground::Present;

// Where a replay stands.
#[derive(Clone, Copy)]
pub struct Running {
    // The settings as the acts so far have left them.
    pub present: Present,
    // How many acts were done.
    pub count: usize,
}

// An act was done, the one that the byte names: the settings that it leaves, and one act more.
pub(crate) fn step(running: &mut Running, byte: u8)
    requires { running.old.count + 1 < 2 ^ 64 }
    ensures { running.new ≡ stepped_by running.old byte }
{
    running.present = after(running.present, byte);
    running.count += 1;
}
