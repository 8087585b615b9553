// A recorded shift as text, a line an act in the sheet's words, and as bytes, two a record: each to the
// other. Any bytes are taken as either. What is given goes to the start of a lent room, as far as it fits;
// a refusal leaves the room as it was. Whether a book allows the shift is for station.
#![tactic(auto)]

mod bytes;
mod line;
mod record;
mod text;

ghost use Rattle.std.specs.Prelude.{◌≡◌};
ghost use Rattle.station_text.specs.Meaning.{is_text};

pub use bytes::print;
pub use record::{is_record, record_text};
use sheet_words::begins;
pub use text::{line_of, read};

// The most bytes of a shift, as text and as bytes: more are 24. 2,097,152 = 2^21.
pub const SHIFT_MOST: usize = 2097152;

// The bytes of a record: the act byte and what was seen.
pub(crate) const RECORD: usize = 2;

// The bytes of the shortest line that gives a record: `set a 1 0` and byte 10.
const LINE_LEAST: usize = 10;

// The most bytes that are read of a text (proofs/Theorems `bytes_most`), so a room of this length always
// fits: a record for each of the most lines, 419,430.
pub const READ_MOST: usize = RECORD * (SHIFT_MOST / LINE_LEAST);

// Whether it is a shift's text rather than its bytes, by how it begins. No bytes of a shift begin so
// (proofs/Theorems `text_no_bytes`).
#[tactic(auto, unfolding(crate::specs::Meaning::is_text))]
pub fn is_text(shift: &[u8]) -> bool
    ensures { result ≡ is_text shift.now }
{
    begins(b"look ", shift) || begins(b"set ", shift) || begins(b"# ", shift)
}
