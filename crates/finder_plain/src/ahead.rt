// What lies ahead of a try at a state. What is remembered of its outcomes is asked before any rule is
// judged, and of a look's two outcomes before either is tried.
ghost use Rattle.std.specs.Prelude.{◌<◌};
ghost use Rattle.knowledge_acts.specs.Acts.{setting_of};
ghost use Rattle.knowledge_acts.specs.declared.act.Act.TheVariants.{Set, Look};
ghost use Rattle.finder_plain.specs.Tries.{Asks, Foresees};
ghost use Rattle.finder_plain.specs.Asked.{asked_may};

use crate::STATES;
use crate::asked::Asked;
use knowledge::{Knowledge, look_at, set_to};
use knowledge_acts::Act;

// The outcomes of a try.
#[derive(Clone, Copy)]
pub(crate) enum Ahead {
    // A set that some post may do, and its outcome.
    One(u32),
    // A look that some post may do, and its outcomes, false and true.
    Two(u32, u32),
}

impl Asked<'_> {
    // A set of setting i: none where no post may, or the outcome is the state itself or is known to be too far
    // from the goal.
    fn by_set(&self, k: u32, i: u8, value: bool, h: u8, entries: &[u8; STATES]) -> Option<Ahead>
        requires { Asks (asked_may self.now k) self.now.n k i entries.now }
        ensures { Foresees (asked_may self.now k) entries.now k (Set i 0 value) h result }
    {
        let x = set_to(k, i, value);
        if x == k || h <= entries[x as usize] {
            return None;
        }
        let act = Act::Set {
            setting: i,
            post: 0,
            value,
        };
        if !self.someone_may(k, act) {
            return None;
        }
        Some(Ahead::One(x))
    }

    // A look at setting i: likewise, of both outcomes.
    fn by_look(&self, k: u32, i: u8, h: u8, entries: &[u8; STATES]) -> Option<Ahead>
        requires { Asks (asked_may self.now k) self.now.n k i entries.now }
        ensures { Foresees (asked_may self.now k) entries.now k (Look i 0) h result }
    {
        if Knowledge::from_number(k).digit(i) != 0 {
            return None;
        }
        let no = look_at(k, i, false);
        if h <= entries[no as usize] {
            return None;
        }
        let yes = look_at(k, i, true);
        if h <= entries[yes as usize] {
            return None;
        }
        let act = Act::Look {
            setting: i,
            post: 0,
        };
        if !self.someone_may(k, act) {
            return None;
        }
        Some(Ahead::Two(no, yes))
    }

    // What lies ahead of a try at the state k, where the outcomes may have plans of a height below h. For this
    // crate alone.
    pub(crate) fn foresee(&self, k: u32, act: Act, h: u8, entries: &[u8; STATES]) -> Option<Ahead>
        requires { Asks (asked_may self.now k) self.now.n k (setting_of act) entries.now }
        ensures { Foresees (asked_may self.now k) entries.now k act h result }
    {
        match act {
            Act::Set { setting, value, .. } => self.by_set(k, setting, value, h, entries),
            Act::Look { setting, .. } => self.by_look(k, setting, h, entries),
        }
    }
}
