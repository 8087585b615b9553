// The book of rights as it is stored: blocks of 512 bytes, each with its check, one head and one
// block for each setting. It knows how a book becomes rights in memory and how rights become a book.
//
// A book or rights that break a rule of the format are refused, with the first refusal in the written order
// and at the lowest block; so is a room that is too short. A refusal leaves the lent room as it was. A
// success fills the first 256 bytes a setting of the room for rights, or the first 512 bytes a block of the
// room for a book, and no other byte.
#![tactic(auto)]

mod reading;
mod writing;

pub use reading::read;
pub use writing::write;

// The zero bytes before the check: in the head after n and m, 506, and in a setting's block after its
// tables, 252.
const HEAD_ZEROS: usize = book_block::CHECKED - 2;

const SETTING_ZEROS: usize = book_block::CHECKED - book_block::TABLES;
