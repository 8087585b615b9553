// One record of a shift, on the settings before its act: 27, then 28, then 29, or nothing that is at fault.
ghost use Rattle.std.specs.Prelude.{Some};
ghost use Rattle.knowledge_acts.specs.Acts.{act_of};
ghost use Rattle.station.specs.Inner.{Judges};

use crate::act::{allows, can_record, is_of_book, shows};
use ground::Present;
use knowledge_acts::Act;
use refusal::Refusal;

// A record with this act, which the rules allow and which showed what was recorded; or else 27 before 28
// before 29.
fn judge_act(
    n: u8,
    m: u8,
    book: &[u8],
    present: Present,
    at: usize,
    act: Act,
    seen: u8,
) -> Result<(), Refusal>
    ensures { Judges n m book.now present.0 at (Some act) seen result }
{
    if !is_of_book(n, m, act) || !can_record(act, seen) {
        return Err(Refusal::NoRecord(at));
    }
    if !allows(book, present, act) {
        return Err(Refusal::NotAllowed(at));
    }
    if seen != shows(present, act) {
        return Err(Refusal::Disagrees(at));
    }
    Ok(())
}

// The record with this index: its act byte and what was seen.
pub(crate) fn judge(
    n: u8,
    m: u8,
    book: &[u8],
    present: Present,
    at: usize,
    byte: u8,
    seen: u8,
) -> Result<(), Refusal>
    ensures { Judges n m book.now present.0 at (act_of byte) seen result }
{
    match Act::of_byte(byte) {
        None => Err(Refusal::NoRecord(at)),
        Some(act) => judge_act(n, m, book, present, at, act, seen),
    }
}
