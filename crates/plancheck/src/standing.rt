// Where the reading of a plan stands.
ghost use Rattle.std.specs.Prelude.{◌≡◌, ◌≤◌, ◌<◌, length};
ghost use Rattle.plancheck.specs.Inner.{first_standing, stopped_standing, moved_standing, parted_standing, after_byte, HasRoom};

use crate::reading::ByteReading;
use knowledge::Knowledge;

// At most n numbers wait: each is the true outcome of a look that is open, and a look makes one more
// of the n settings known.
#[derive(Clone, Copy)]
pub struct Standing {
    // The knowledge number at which the next byte is read; none where the plan is whole.
    pub here: Option<u32>,
    // The numbers that wait, the one that is read at next as the last.
    pub waiting: [u32; Knowledge::MOST],
    // How many wait.
    pub count: usize,
}

impl Standing {
    // A plan that is yet to be read, from this number.
    pub(crate) fn first(here: u32) -> Self
        ensures { result ≡ first_standing here }
    {
        Standing {
            here: Some(here),
            waiting: [0; Knowledge::MOST],
            count: 0,
        }
    }

    // After a stop: the latest that waits is next, and with none the plan is whole.
    fn stopped(self) -> Self
        requires { (length self.waiting ≡ 7) × (self.count ≤ 7) }
        ensures { result ≡ stopped_standing self.waiting self.count }
    {
        if self.count == 0 {
            return Standing { here: None, ..self };
        }
        let count = self.count - 1;
        Standing {
            here: Some(self.waiting[count]),
            count,
            ..self
        }
    }

    // After a set.
    fn moved(self, next: u32) -> Self
        ensures { result ≡ moved_standing self next }
    {
        Standing {
            here: Some(next),
            ..self
        }
    }

    // After a look: the true outcome waits until the false one's plan is whole.
    fn parted(self, no: u32, yes: u32) -> Self
        requires { (length self.waiting ≡ 7) × (self.count < 7) }
        ensures { result ≡ parted_standing self no yes }
    {
        let mut waiting = self.waiting;
        waiting[self.count] = yes;
        Standing {
            here: Some(no),
            waiting,
            count: self.count + 1,
        }
    }

    // After a byte that came to this: a look needs room for the outcome that waits.
    pub(crate) fn after(self, reading: ByteReading) -> Self
        requires { (length self.waiting ≡ 7) × (self.count ≤ 7) × HasRoom self.count reading }
        ensures { result ≡ after_byte self reading }
    {
        match reading {
            ByteReading::Stops => self.stopped(),
            ByteReading::Goes(next) => self.moved(next),
            ByteReading::Parts(no, yes) => self.parted(no, yes),
        }
    }
}
