// Whether a plan of a height below h works from a state, forwards and by recursion on h. Entry k of
// `entries` is a height below which no plan works from the state k: it is asked first, and raised where a
// search fails.
ghost use Rattle.std.specs.Prelude.{◌≡◌, ◌<◌};
ghost use Rattle.knowledge_acts.specs.Acts.{setting_of};
ghost use Rattle.knowledge.specs.Goal.{wanted, goal_settled};
ghost use Rattle.finder_plain.specs.Asked.{asked_system};
ghost use Rattle.finder_plain.specs.Entries.{AsksGoal, Searches, Raised, Searched, SearchedBy};

use crate::STATES;
use crate::acts::{KINDS, try_of};
use crate::ahead::Ahead;
use crate::asked::Asked;
use knowledge_acts::Act;
use knowledge_judging::is_settled;

// Raises the entry of k to h, where it is lower.
fn raise(entries: &mut [u8; STATES], k: u32, h: u8)
    requires { k < 823543 }
    ensures { Raised k h entries.old entries.new }
{
    let at = k as usize;
    if entries[at] < h {
        entries[at] = h;
    }
}

impl Asked<'_> {
    // Whether the goal is settled at the state k. Where its entry is above 0 it is not, and is not judged again.
    fn settled(&self, k: u32, entries: &[u8; STATES]) -> bool
        requires { AsksGoal self.now.n (wanted self.now.goal) k entries.now }
        ensures { result ≡ goal_settled self.now.n (wanted self.now.goal) k }
    {
        entries[k as usize] == 0 && is_settled(self.n, self.goal, k)
    }

    // Whether the try leads from the state k to outcomes that all have a working plan of a height below h.
    #[cycle(works_below_works_by)]
    fn works_by(&self, k: u32, act: Act, h: u8, entries: &mut [u8; STATES]) -> bool
        requires { Searches self.now.n (asked_system self.now) k entries.old × (setting_of act < self.now.n) }
        ensures { SearchedBy self.now.n (asked_system self.now) k act h entries.old entries.new result }
    {
        let Some(ahead) = self.foresee(k, act, h, entries) else {
            return false;
        };
        match ahead {
            Ahead::One(x) => self.works_below(x, h, entries),
            Ahead::Two(no, yes) => {
                self.works_below(no, h, entries) && self.works_below(yes, h, entries)
            }
        }
    }

    // Whether a plan of a height below h works from the state k. For this crate alone.
    #[cycle(works_below_works_by)]
    pub(crate) fn works_below(&self, k: u32, h: u8, entries: &mut [u8; STATES]) -> bool
        requires { Searches self.now.n (asked_system self.now) k entries.old }
        ensures { Searched self.now.n (asked_system self.now) k h entries.old entries.new result }
    {
        if h <= entries[k as usize] {
            return false;
        }
        if self.settled(k, entries) {
            return true;
        }
        for number in 0..KINDS * self.n {
            if self.works_by(k, try_of(number), h - 1, entries) {
                return true;
            }
        }
        raise(entries, k, h);
        false
    }
}
