// The ground that every other crate stands on: bytes and bits, valuations, the 16-byte tables that are read
// at them, and runs of bytes written into a lent room as far as it goes. It refuses nothing; its specs say
// what a bit, a digit and a table are, and its proofs hold the laws that the other crates cite.
#![tactic(auto)]

mod bytes;

ghost use Rattle.std.specs.Prelude.{◌≡◌, ◌^◌, min, drop, get_or};
ghost use Rattle.ground.specs.Digits.{bit};
ghost use Rattle.ground.specs.Table.{truth, Within};
ghost use Rattle.ground.specs.Tells.{Tells};

pub use bytes::{copy, part_of, zeros};

// A valuation of the settings as they were at the start: bit i is setting i.
#[derive(Clone, Copy)]
pub struct Start(pub u8);

// A valuation of the settings as they are now: bit i is setting i.
#[derive(Clone, Copy)]
pub struct Present(pub u8);

// The most settings: "Settings n: 1 to 7".
pub const SETTINGS_MOST: usize = 7;

// The most posts: "Posts m: 1 to 8".
pub const POSTS_MOST: usize = 8;

// The bytes of one formula's table: "A formula's table is 16 bytes".
pub const TABLE: usize = 16;

// How many valuations n settings have; for more than seven the 128 of seven, which is all that a table
// tells.
pub fn valuations(n: u8) -> u8
    ensures { result ≡ 2 ^ min n 7 }
{
    if n as usize >= SETTINGS_MOST {
        return 128;
    }
    1 << n
}

// The byte at a place, 0 past the end.
pub fn peek(bytes: &[u8], at: usize) -> u8
    ensures { result ≡ get_or bytes.now at 0 }
{
    if at < bytes.len() { bytes[at] } else { 0 }
}

// Bit i of the byte: false past its eight bits.
pub fn bit_of(byte: u8, i: u8) -> bool
    ensures { result ≡ bit byte i }
{
    i < 8 && (byte >> i) % 2 == 1
}

// Bit v of the bytes from `from` on, lowest first; bytes that are not there count as 0. A table has
// the bits below 128.
fn truth_at(bytes: &[u8], from: usize, v: u8) -> bool
    ensures { result ≡ truth (drop from bytes.now) v }
{
    let step = (v / 8) as usize;
    from < bytes.len() && step < bytes.len() - from && (bytes[from + step] >> (v % 8)) % 2 == 1
}

// Whether the table that begins at byte `from` has no bit at or above 2^n.
pub fn within(bytes: &[u8], from: usize, n: u8) -> bool
    ensures { Tells result (Within n (drop from bytes.now)) }
{
    if SETTINGS_MOST <= n as usize {
        return true;
    }
    for v in 1 << n..128 {
        if truth_at(bytes, from, v) {
            return false;
        }
    }
    true
}

impl Start {
    // What the table that begins at byte `from` says of these start settings.
    pub fn finds(self, bytes: &[u8], from: usize) -> bool
        ensures { result ≡ truth (drop from bytes.now) self.0 }
    {
        truth_at(bytes, from, self.0)
    }
}

impl Present {
    // What the table that begins at byte `from` says of these present settings.
    pub fn finds(self, bytes: &[u8], from: usize) -> bool
        ensures { result ≡ truth (drop from bytes.now) self.0 }
    {
        truth_at(bytes, from, self.0)
    }
}
