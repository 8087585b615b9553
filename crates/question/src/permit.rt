// Whether the rules of a book permit an act where a team knows so much and these settings are held.
ghost use Rattle.std.specs.Prelude.{◌≡◌, cond, ◌≤◌, eqb, leb};
ghost use Rattle.refusal.specs.declared.Why.TheVariants.{NotKnown};
ghost use Rattle.book_block.specs.Rule.{rule};
ghost use Rattle.knowledge_acts.specs.Seven.{told, now_told};
ghost use Rattle.knowledge.specs.Number.{digit_in};
ghost use Rattle.knowledge.specs.Fits.{now_side};
ghost use Rattle.knowledge.specs.Judgement.{judgement};
ghost use Rattle.plan.specs.declared.Permit.TheVariants.{Denied};
ghost use Rattle.plan.specs.Without.{unless_nothing};
ghost use Rattle.question.specs.Permitted.{by_rule, permitted};

use book_block::{Right, rule_at};
use ground::bit_of;
use knowledge::{Judgement, Knowledge};
use knowledge_acts::{Act, now_side};
use knowledge_judging::{Side, judge};
use plan::Permit;
use refusal::Why;

// What the rule of a post on a setting says of an act, by its judgement.
fn by_rule(state: Knowledge, n: u8, book: &[u8], setting: u8, post: u8, right: Right) -> Permit
    requires { n ≤ 7 }
    ensures { result ≡ by_rule (judgement n (now_side (digit_in state.digits)) (rule book.now setting post right)) }
{
    match judge(
        state,
        n,
        Side::Now,
        book,
        rule_at(book, setting, post, right),
    ) {
        Judgement::TrueAtAll => Permit::Given,
        Judgement::FalseAtAll => Permit::Denied(Why::SurelyFalse),
        Judgement::Neither => Permit::Denied(Why::NotKnown),
    }
}

// Whether the digit tells this value.
fn tells(digit: u8, value: bool) -> bool
    ensures { result ≡ eqb (now_told digit) (told value) }
{
    if value {
        return now_side(digit) == 2;
    }
    now_side(digit) == 1
}

// What is said of a set to the value, where the rules say so much and the setting has this digit.
fn unless_told(said: Permit, digit: u8, value: bool) -> Permit
    ensures { result ≡ unless_nothing (eqb (now_told digit) (told value)) said }
{
    if matches!(said, Permit::Given) && tells(digit, value) {
        return Permit::ChangesNothing;
    }
    said
}

// Whether the act is permitted where this is known: the book's rules permit it, no held setting is set, and
// it changes something; and else why not. Of more than seven settings nothing is known.
pub fn permits(state: Knowledge, n: u8, book: &[u8], held: u8, act: Act) -> Permit
    ensures { result ≡ cond (leb n 7) (permitted n book.now held (digit_in state.digits) act) (Denied NotKnown) }
{
    if Knowledge::MOST < n as usize {
        return Permit::Denied(Why::NotKnown);
    }
    match act {
        Act::Set {
            setting,
            post,
            value,
        } => {
            if bit_of(held, setting) {
                return Permit::Denied(Why::HeldSetting);
            }
            unless_told(
                by_rule(state, n, book, setting, post, Right::Set),
                state.digit(setting),
                value,
            )
        }
        Act::Look { setting, post } => {
            if state.digit(setting) != 0 {
                return Permit::Denied(Why::KnownSetting);
            }
            by_rule(state, n, book, setting, post, Right::Look)
        }
    }
}
