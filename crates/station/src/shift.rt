// A recorded shift, run against a book from a true starting valuation: one pass over the records, until the
// first that is at fault.
ghost use Rattle.station.specs.Replay.{Plays, Replays};

use crate::judge::judge;
use crate::record::{Running, step};
use book_sound::Size;
use ground::{Present, valuations};
use refusal::Refusal;

// The bytes of a record: the act byte and what was seen.
const RECORD: usize = 2;

// What comes of a shift.
#[derive(Clone, Copy)]
pub enum Replayed {
    // Every act was done: where that leaves the station.
    Whole(Running),
    // The next record is at fault, 27 to 29: what was reached before it.
    Stopped(Refusal, Running),
}

// The records of a shift of whole records, from these settings on.
fn play(n: u8, m: u8, book: &[u8], first: Present, shift: &[u8]) -> Replayed
    ensures { Plays n m book.now first.0 shift.now result }
{
    let mut running = Running {
        present: first,
        count: 0,
    };
    for at in 0..shift.len() / RECORD {
        let byte = shift[RECORD * at];
        let seen = shift[RECORD * at + 1];
        if let Err(why) = judge(n, m, book, running.present, at, byte, seen) {
            return Replayed::Stopped(why, running);
        }
        step(&mut running, byte);
    }
    Replayed::Whole(running)
}

// A shift of any length and content, from any number as a starting valuation, by any bytes as a book. Where
// it is refused, 6 to 9 or 26, nothing was played.
pub fn replay(book: &[u8], start: u64, shift: &[u8]) -> Result<Replayed, Refusal>
    ensures { Replays book.now start shift.now result }
{
    let Size { settings, posts } = book_sound::sound(book)?;
    if shift.len() % RECORD != 0 || valuations(settings) as u64 <= start {
        return Err(Refusal::Shift);
    }
    Ok(play(settings, posts, book, Present(start as u8), shift))
}
