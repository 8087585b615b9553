// What the team may do at a state: what is not held, by the judgement of the act's rule there.
ghost use Rattle.std.specs.Prelude.{◌≡◌, ◌&&◌, ◌^◌, ◌≤◌, ◌<◌};
ghost use Rattle.ground.specs.Tells.{Tells};
ghost use Rattle.book_block.specs.Rule.{rule};
ghost use Rattle.knowledge_acts.specs.Acts.{offered};
ghost use Rattle.knowledge.specs.Number.{digit_in};
ghost use Rattle.knowledge.specs.Judgement.{known};
ghost use Rattle.plan.specs.Plans.{given};
ghost use Rattle.question.specs.Permitted.{ruled};
ghost use Rattle.finder_plain.specs.Tries.{Someone};
ghost use Rattle.finder_plain.specs.Asked.{asked_may};

use crate::acts::by_post;
use crate::asked::Asked;
use book_block::{Right, rule_at};
use ground::{POSTS_MOST, bit_of};
use knowledge::Knowledge;
use knowledge_acts::Act;
use knowledge_judging::{Side, judge};

impl Asked<'_> {
    // Whether the rule of a post on a setting is known to hold.
    fn holds(&self, state: Knowledge, setting: u8, post: u8, right: Right) -> bool
        requires { self.now.n ≤ 7 }
        ensures { result ≡ known self.now.n (digit_in state.digits) (rule self.now.book.now setting post right) }
    {
        let at = rule_at(self.book, setting, post, right);
        judge(state, self.n, Side::Now, self.book, at).holds()
    }

    // Whether the act is permitted, by the held settings and the book's rules: a set that changes nothing too,
    // which `foresee` leaves out before this is asked.
    fn is_permitted(&self, state: Knowledge, act: Act) -> bool
        requires { self.now.n ≤ 7 }
        ensures { result ≡ given (ruled self.now.n self.now.book.now self.now.question.held (digit_in state.digits) act) }
    {
        match act {
            Act::Set { setting, post, .. } => {
                !bit_of(self.question.held, setting) && self.holds(state, setting, post, Right::Set)
            }
            Act::Look { setting, post } => {
                state.digit(setting) == 0 && self.holds(state, setting, post, Right::Look)
            }
        }
    }

    // Whether the act is one of the team's, and permitted.
    fn may_do(&self, state: Knowledge, act: Act) -> bool
        requires { self.now.n ≤ 7 }
        ensures { result ≡ (offered self.now.n self.now.question.team act && given (ruled self.now.n self.now.book.now self.now.question.held (digit_in state.digits) act)) }
    {
        act.offered(self.n, self.question.team) && self.is_permitted(state, act)
    }

    // Whether some post of the team may do the act at the state k. For this crate alone.
    pub(crate) fn someone_may(&self, k: u32, act: Act) -> bool
        requires { (self.now.n ≤ 7) × (k < 7 ^ 7) }
        ensures { Tells result (Someone (asked_may self.now k) act) }
    {
        let state = Knowledge::from_number(k);
        (0..POSTS_MOST as u8).any(|q| self.may_do(state, by_post(act, q)))
    }
}
