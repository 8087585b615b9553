// A damaged book back on its feet: a setting block with a wrong check, or a set bit that must be zero, is replaced
// by a block with all rules closed; every sound block stays byte for byte.
//
// Bytes that are not 2 to 8 whole blocks, a head block that is damaged and a room shorter than the book are
// refused with 6, 30 and 15, in this order; a refusal leaves the lent room as it was. A success fills the
// first bytes of the room, as many as the book has, and no other byte.
#![tactic(auto)]

mod closing;
mod marking;

ghost use Rattle.ground.specs.Tells.{Tells};
ghost use Rattle.book_salvage.specs.Rows.{HeadStands};
ghost use Rattle.book_salvage.specs.Promise.{Salvages};

use book_block::is_right;
use book_sound::{is_head, is_whole};
use closing::lay_book;
use ground::peek;
use marking::marks_of;
use refusal::Refusal;

// What a salvage has done: bit i of `marks` is set where the block of setting i was replaced, and `count` is
// how many were.
#[derive(Clone, Copy, Debug, PartialEq, Eq)]
pub struct Salvaged {
    pub marks: u8,
    pub count: u8,
}

// Whether the head block can be relied on: its check is right, and it says what a head must.
fn head_stands(book: &[u8]) -> bool
    ensures { Tells result (HeadStands book.now) }
{
    is_right(book, 0) && is_head(book)
}

// The book with each damaged setting block closed, at the start of the room, or why there is none: 6, 30 or 15.
pub fn salvage(book: &[u8], room: &mut [u8]) -> Result<Salvaged, Refusal>
    ensures { Salvages book.now room.old result room.new }
{
    if !is_whole(book) {
        return Err(Refusal::BookLength);
    }
    if !head_stands(book) {
        return Err(Refusal::SalvageHead);
    }
    if room.len() < book.len() {
        return Err(Refusal::Room);
    }
    let n = peek(book, 0);
    let marks = marks_of(book, n, peek(book, 1));
    lay_book(book, marks, n, room);
    Ok(Salvaged {
        marks,
        count: marks.count_ones() as u8,
    })
}
