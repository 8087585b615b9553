// One act on true settings: whether it is one of the book's, whether its rule allows it, what it leaves, and
// what it shows. No word of knowledge: a rule is asked about the settings as they are.
ghost use Rattle.std.specs.Prelude.{◌≡◌, ◌<◌, leb};
ghost use Rattle.knowledge_acts.specs.Acts.{setting_of, post_of, act_of};
ghost use Rattle.plan.specs.Runs.{change};
ghost use Rattle.station.specs.Station.{of_book, right_of, allowed, leaves, shown, seen_most};
ghost use Rattle.station.specs.Inner.{rule_at};

use book_block::{Right, rule_at};
use ground::{Present, bit_of};
use knowledge_acts::Act;

// How many valuations a table tells of.
const VALUATIONS: u8 = 128;

// The setting of an act, its post, and the right that it takes: one call for either kind of act, so that the
// processor has no branch to guess.
fn setting_of(act: Act) -> u8
    ensures { result ≡ setting_of act }
{
    match act {
        Act::Set { setting, .. } | Act::Look { setting, .. } => setting,
    }
}

fn post_of(act: Act) -> u8
    ensures { result ≡ post_of act }
{
    match act {
        Act::Set { post, .. } | Act::Look { post, .. } => post,
    }
}

fn right_of(act: Act) -> Right
    ensures { result ≡ right_of act }
{
    match act {
        Act::Set { .. } => Right::Set,
        Act::Look { .. } => Right::Look,
    }
}

// Whether it is an act of a book of n settings and m posts, whoever is in a team.
#[tactic(auto, unfolding(crate::specs::Station::of_book))]
pub(crate) fn is_of_book(n: u8, m: u8, act: Act) -> bool
    ensures { result ≡ of_book n m act }
{
    setting_of(act) < n && post_of(act) < m
}

// Whether such an act can be recorded with this second byte: 0 for a set, 0 or 1 for a look.
pub(crate) fn can_record(act: Act, seen: u8) -> bool
    ensures { result ≡ leb seen (seen_most act) }
{
    match act {
        Act::Set { .. } => seen == 0,
        Act::Look { .. } => seen <= 1,
    }
}

// Where the table of the act's rule begins in the book.
#[tactic(auto, unfolding(crate::specs::Inner::rule_at))]
fn rule_of(book: &[u8], act: Act) -> usize
    ensures { result ≡ rule_at book.now act }
{
    rule_at(book, setting_of(act), post_of(act), right_of(act))
}

// Whether the act's rule is true at these settings. Past the 128 valuations that a table tells of, none is.
pub(crate) fn allows(book: &[u8], present: Present, act: Act) -> bool
    ensures { result ≡ allowed book.now present.0 act }
{
    present.0 < VALUATIONS && present.finds(book, rule_of(book, act))
}

// What the act shows: a look the present value, a set nothing, which is recorded as 0.
pub(crate) fn shows(present: Present, act: Act) -> u8
    ensures { result ≡ shown present.0 act }
{
    match act {
        Act::Set { .. } => 0,
        Act::Look { setting, .. } => bit_of(present.0, setting) as u8,
    }
}

// The settings with this value for one of the eight that a byte can tell of.
fn changed(present: u8, setting: u8, value: bool) -> u8
    requires { setting < 8 }
    ensures { result ≡ change present setting value }
{
    let power = 1 << setting;
    let without = present - present / power % 2 * power;
    if value { without + power } else { without }
}

// The settings after the act that a byte names; a byte that names none changes nothing.
pub(crate) fn after(present: Present, byte: u8) -> Present
    ensures { result.0 ≡ leaves present.0 (act_of byte) }
{
    match Act::of_byte(byte) {
        Some(Act::Set { setting, value, .. }) => Present(changed(present.0, setting, value)),
        Some(Act::Look { .. }) | None => present,
    }
}
