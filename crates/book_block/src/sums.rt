// The check of a block: two running sums of 16 bits over its first 508 bytes.
ghost use Rattle.std.specs.Prelude.{◌≡◌, ◌-◌, ◌≤◌, length, drop};
ghost use Rattle.book_block.specs.Check.{added, sums_after, check, number16, RightCheck};
ghost use Rattle.book_block.specs.Sealed.{sealed_at};
ghost use Rattle.ground.specs.Tells.{Tells};

use super::bytes::{byte_at, put16};
use super::{BLOCK, CHECKED, S_AT, T_AT};
use ground::part_of;

// The two sums.
#[derive(Clone, Copy, Debug, PartialEq, Eq)]
pub struct Sums {
    pub s: u16,
    pub t: u16,
}

// The sums with one byte more: only the low 16 bits of each are kept.
#[tactic(auto, unfolding(crate::specs::Check::added))]
fn add(sums: Sums, byte: u8) -> Sums
    ensures { result ≡ added sums byte }
{
    let s = sums.s.wrapping_add(byte as u16);
    let t = sums.t.wrapping_add(s);
    Sums { s, t }
}

// The sums after the first `count` bytes of what begins at byte `from`.
fn sums_after(bytes: &[u8], from: usize, count: usize) -> Sums
    requires { count ≤ length bytes.now - from }
    ensures { result ≡ sums_after (drop from bytes.now) count }
{
    let mut sums = Sums { s: 1, t: 0 };
    for i in 0..count {
        sums = add(sums, bytes[from + i]);
    }
    sums
}

// The two sums of the block that begins at byte `from`; bytes that are not there count as 0. Those come
// last, so that no byte before them is asked whether it is there.
pub fn check_of(bytes: &[u8], from: usize) -> Sums
    ensures { result ≡ check (drop from bytes.now) }
{
    let there = part_of(CHECKED, bytes.len(), from);
    let mut sums = sums_after(bytes, from, there);
    for _ in there..CHECKED {
        sums = add(sums, 0);
    }
    sums
}

// Writes the check of the block that begins at `at`; nothing where the room has no whole block there.
pub fn seal(room: &mut [u8], at: usize)
    ensures { room.new ≡ sealed_at room.old at }
{
    if room.len() < BLOCK || room.len() - BLOCK < at {
        return;
    }
    let sums = check_of(room, at);
    put16(sums.s, room, at + S_AT);
    put16(sums.t, room, at + T_AT);
}

// The number of 16 bits, low byte first, at byte i of what begins at `from`; i is 508 or 510.
fn number_at(bytes: &[u8], from: usize, i: usize) -> u16
    requires { i ≤ 510 }
    ensures { result ≡ number16 (drop from bytes.now) i }
{
    u16::from_le_bytes([byte_at(bytes, from, i), byte_at(bytes, from, i + 1)])
}

// Whether the block that begins at byte `from` holds the sums of its bytes.
pub fn is_right(bytes: &[u8], from: usize) -> bool
    ensures { Tells result (RightCheck (drop from bytes.now)) }
{
    let sums = check_of(bytes, from);
    number_at(bytes, from, S_AT) == sums.s && number_at(bytes, from, T_AT) == sums.t
}
