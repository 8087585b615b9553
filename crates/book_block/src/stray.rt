// Bits of a setting's tables that must be zero: in tables of posts that don't exist, past 2^n, and
// in the bytes of a block after the tables.
ghost use Rattle.std.specs.Prelude.{◌≡◌, ◌^◌, ◌<◌, ◌≤◌, drop};
ghost use Rattle.ground.specs.Tells.{Tells};
ghost use Rattle.book_block.specs.Kinds.{Tables, SettingBlock};
ghost use Rattle.book_block.specs.Live.{live};

use super::{BYTE, POST};
use crate::bytes::are_zeros;
use crate::{CHECKED, TABLES};
use ground::{SETTINGS_MOST, TABLE, part_of};

// How many low bits of byte j of a setting's tables may be set, for n settings and m posts. The tables
// of seven settings have no bit past 2^n.
fn live_bits(n: u8, m: u8, j: usize) -> usize
    ensures value { result ≡ live n m j }
    ensures most { result ≤ 8 }
{
    if POST * (m as usize) <= j {
        return 0;
    }
    if SETTINGS_MOST <= (n as usize) {
        return BYTE;
    }
    let all: usize = 1 << n;
    BYTE.min(all.saturating_sub(BYTE * (j % TABLE)))
}

// Whether only the low `bits` bits of a byte are set.
fn fits(byte: u8, bits: usize) -> bool
    requires { bits ≤ 8 }
    ensures { Tells result (byte < 2 ^ bits) }
{
    (byte as usize) >> bits == 0
}

// Whether the tables of a setting, 256 bytes that begin at `from`, have no bit that must be zero where
// there are n settings and m posts. A byte of 0 has none, also one that is not there.
pub fn are_tables(bytes: &[u8], from: usize, n: u8, m: u8) -> bool
    ensures { Tells result (Tables n m (drop from bytes.now)) }
{
    let there = part_of(TABLES, bytes.len(), from);
    (0..there).all(|j| bytes[from + j] == 0 || fits(bytes[from + j], live_bits(n, m, j)))
}

// Whether the block that begins at `from` is a setting's, where there are n settings and m posts: its
// tables have no bit that must be zero, and the bytes after them are zero. Its check is not looked at.
pub fn is_setting(bytes: &[u8], from: usize, n: u8, m: u8) -> bool
    ensures { Tells result (SettingBlock n m (drop from bytes.now)) }
{
    are_tables(bytes, from, n, m) && are_zeros(bytes, from, TABLES, CHECKED)
}
