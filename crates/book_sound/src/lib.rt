// Whether bytes are a sound book: blocks of 512 bytes, each with its check, one head and one block for
// each setting. It knows a sound book's n and m.
//
// Bytes that break a rule of the format are refused with 6 to 9, the first in the written order and at the
// lowest block. It writes nothing.
#![tactic(auto)]

ghost use Rattle.std.specs.Prelude.{◌≡◌, ◌+◌, ◌≤◌};
ghost use Rattle.ground.specs.Tells.{Tells};
ghost use Rattle.ground.specs.Search.{Lowest};
ghost use Rattle.book_block.specs.Check.{block, RightCheck};
ghost use Rattle.book_block.specs.Kinds.{SettingBlock};
ghost use Rattle.book_sound.specs.Rows.{Whole, settings_of, RightHead};
ghost use Rattle.book_sound.specs.Promise.{Judges};

use book_block::{BLOCK, CHECKED, are_zeros, is_right, is_setting};
use ground::{POSTS_MOST, peek};
use refusal::Refusal;

// The fewest and most blocks of a book: the head and 1 to 7 settings.
const BLOCKS_LEAST: usize = 2;

const BLOCKS_MOST: usize = 1 + ground::SETTINGS_MOST;

// The bytes of the head that say something, n and m; zeros follow.
const HEAD_USED: usize = 2;

// The settings and the posts of a sound book.
#[derive(Clone, Copy, Debug, PartialEq, Eq)]
pub struct Size {
    pub settings: u8,
    pub posts: u8,
}

// Whether the bytes are 2 to 8 whole blocks.
#[tactic(auto, unfolding(crate::specs::Rows::blocks))]
pub fn is_whole(book: &[u8]) -> bool
    ensures { Tells result (Whole book.now) }
{
    let blocks = book.len() / BLOCK;
    book.len() % BLOCK == 0 && BLOCKS_LEAST <= blocks && blocks <= BLOCKS_MOST
}

// The lowest of the first `count` blocks whose check is wrong.
fn first_wrong(book: &[u8], count: usize) -> Option<usize>
    requires { count ≤ 8 }
    ensures { Lowest count (λ k. RightCheck (block book.now k)) result }
{
    for k in 0..count {
        if !is_right(book, BLOCK * k) {
            return Some(k);
        }
    }
    None
}

// How many settings the blocks of a book are for: one fewer than there are; 0 where there is none.
#[tactic(auto, unfolding(crate::specs::Rows::blocks, crate::specs::Rows::settings_of))]
fn settings_of(book: &[u8]) -> usize
    ensures { result ≡ settings_of book.now }
{
    (book.len() / BLOCK).saturating_sub(1)
}

// Whether the head says one setting for each block after it, 1 to 8 posts and nothing else.
pub fn is_head(book: &[u8]) -> bool
    ensures { Tells result (RightHead book.now) }
{
    let m = peek(book, 1) as usize;
    peek(book, 0) as usize == settings_of(book)
        && 1 <= m
        && m <= POSTS_MOST
        && are_zeros(book, 0, HEAD_USED, CHECKED)
}

// The lowest of n settings whose block has a bit that must be zero.
fn first_stray(book: &[u8], n: u8, m: u8) -> Option<usize>
    ensures { Lowest n (λ i. SettingBlock n m (block book.now (1 + i))) result }
{
    for i in 0..n as usize {
        if !is_setting(book, BLOCK * (1 + i), n, m) {
            return Some(i);
        }
    }
    None
}

// The numbers of settings and posts of a sound book, or why it is none: 6 to 9.
pub fn sound(book: &[u8]) -> Result<Size, Refusal>
    ensures { Judges book.now result }
{
    if !is_whole(book) {
        return Err(Refusal::BookLength);
    }
    if let Some(block) = first_wrong(book, book.len() / BLOCK) {
        return Err(Refusal::Check(block));
    }
    if !is_head(book) {
        return Err(Refusal::Head);
    }
    let (settings, posts) = (book[0], book[1]);
    if let Some(setting) = first_stray(book, settings, posts) {
        return Err(Refusal::StrayBit(1 + setting));
    }
    Ok(Size { settings, posts })
}
