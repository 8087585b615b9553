// START, the settings that a shift begins on: every setting of the book by its letter, those that are off
// with `~` in front. Any bytes are taken.
ghost use Rattle.std.specs.Prelude.{◌≡◌};
ghost use Rattle.ground.specs.Digits.{bit};
ghost use Rattle.ground.specs.Search.{all};
ghost use Rattle.station_print.specs.Start.{names_all, start_words, Starts};

use ground::bit_of;
use sheet_words::marks_of;

// Whether each of the first n bits is set.
fn all_named(n: u8, named: u8) -> bool
    ensures { result ≡ all n (bit named) }
{
    (0..n).all(|i| bit_of(named, i))
}

// The settings that START says, for a book of n settings: bit i is setting i. None where it does not name
// each setting once.
pub(crate) fn read_start(n: u8, start: &[u8]) -> Option<u8>
    ensures { Starts n (names_all n (start_words start.now)) (start_words start.now) result }
{
    let marks = marks_of(true, b'a', n, start)?;
    if marks.twice || !all_named(n, marks.named) {
        return None;
    }
    Some(marks.values)
}
