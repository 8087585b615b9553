// The salvaged book into the room, block by block.
ghost use Rattle.std.specs.Prelude.{◌≡◌, ◌+◌, ◌*◌, ◌≤◌, ◌<◌, length};
ghost use Rattle.std.proofs.lemmas.List.Edits.{sets};
ghost use Rattle.book_sound.specs.Sound.{in_order};
ghost use Rattle.book_salvage.specs.Salvaged.{closed_block, setting_after, salvaged_book};

use book_block::{BLOCK, CHECKED, seal};
use ground::{bit_of, copy, zeros};

// Writes the block with all rules closed, with its check.
fn close(room: &mut [u8], at: usize)
    requires { at + 512 ≤ length room.old }
    ensures { room.new ≡ sets room.old at closed_block }
{
    zeros(CHECKED, room, at);
    seal(room, at);
}

// Writes the block of setting i: the closed one where it is marked, else the book's own.
fn lay_setting(book: &[u8], marks: u8, i: u8, room: &mut [u8])
    requires { (i < 7) × (512 * (2 + i) ≤ length room.old) }
    ensures { room.new ≡ sets room.old (512 * (1 + i)) (setting_after book.now marks i) }
{
    let at = BLOCK * (1 + i as usize);
    if bit_of(marks, i) {
        close(room, at);
        return;
    }
    copy(book, at, BLOCK, room, at);
}

// Writes the blocks of the first n settings.
fn lay_settings(book: &[u8], marks: u8, n: u8, room: &mut [u8])
    requires { (n ≤ 7) × (512 * (1 + n) ≤ length book.now) × (512 * (1 + n) ≤ length room.old) }
    ensures { room.new ≡ sets room.old 512 (in_order (setting_after book.now marks) n) }
{
    for i in 0..n {
        lay_setting(book, marks, i, room);
    }
}

// Writes the salvaged book, of n settings: the head block as it is, then those of the settings.
pub(crate) fn lay_book(book: &[u8], marks: u8, n: u8, room: &mut [u8])
    requires { (n ≤ 7) × (512 * (1 + n) ≤ length book.now) × (512 * (1 + n) ≤ length room.old) }
    ensures { room.new ≡ sets room.old 0 (salvaged_book book.now marks n) }
{
    copy(book, 0, BLOCK, room, 0);
    lay_settings(book, marks, n, room);
}
