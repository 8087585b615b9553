// One block of a book: its check, two sums over the bytes before it; where the table of a rule stands; and
// which bits of a setting's tables must be zero.
//
// It refuses nothing: each question has an answer for all bytes, and bytes that are not there count as 0. In
// a lent room `seal` writes the four bytes of the check and no other, and none where the block is not whole.
#![tactic(auto)]

mod bytes;
mod rule;
mod stray;
mod sums;

pub use bytes::are_zeros;
pub use rule::{Right, rule_at, table_at};
pub use stray::{are_tables, is_setting};
pub use sums::{Sums, check_of, is_right, seal};

// The bytes of a block, of the part of it that its check is over, and where the check's two sums stand
// after that.
pub const BLOCK: usize = 512;

pub const CHECKED: usize = 508;

const S_AT: usize = CHECKED;

const T_AT: usize = CHECKED + 2;

// The bytes of a post's two tables for one setting, look and set, 32; and of a setting's tables for 8
// posts, 256.
const POST: usize = 2 * ground::TABLE;

pub const TABLES: usize = ground::POSTS_MOST * POST;

// The bits of a byte.
const BYTE: usize = 8;
