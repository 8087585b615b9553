// Which setting blocks are to be replaced: a mark for each setting, and how many marks there are.
ghost use Rattle.std.specs.Prelude.{◌≡◌, not, ℕ, suc, ◌+◌, ◌^◌, ◌≤◌, ◌<◌};
ghost use Rattle.ground.specs.Digits.{bit};
ghost use Rattle.ground.specs.Tells.{Tells};
ghost use Rattle.book_block.specs.Check.{block};
ghost use Rattle.book_salvage.specs.Salvaged.{Stands, MarksOf};

use book_block::{BLOCK, is_right, is_setting};

// Whether the block of setting i stays: its check is right, and no bit is set that must be zero.
fn stands(book: &[u8], i: u8, n: u8, m: u8) -> bool
    ensures { Tells result (Stands n m (block book.now (1 + i))) }
{
    let at = BLOCK * (1 + i as usize);
    is_right(book, at) && is_setting(book, at, n, m)
}

// The marks of the settings below i, with that of setting i.
fn with_mark(marks: u8, i: u8, stays: bool) -> u8
    requires { (i < 8) × (marks < 2 ^ i) }
    ensures { (result < 2 ^ suc i) × (bit result i ≡ not stays) × ((k : ℕ) → k < i → bit result k ≡ bit marks k) }
{
    if stays {
        return marks;
    }
    marks + (1 << i)
}

// A mark for each of n settings whose block does not stay.
pub(crate) fn marks_of(book: &[u8], n: u8, m: u8) -> u8
    requires { n ≤ 7 }
    ensures { MarksOf book.now n m result }
{
    let mut marks: u8 = 0;
    for i in 0..n {
        marks = with_mark(marks, i, stands(book, i, n, m));
    }
    marks
}
