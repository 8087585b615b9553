// From a book's bytes to rights in memory.
ghost use Rattle.std.specs.Prelude.{◌≡◌, ◌+◌, ◌*◌, ◌≤◌, length};
ghost use Rattle.std.proofs.lemmas.List.Edits.{sets};
ghost use Rattle.book_sound.specs.Sound.{rights_of};
ghost use Rattle.book.specs.Promise.{ReadsBook};

use book_block::{BLOCK, TABLES};
use book_sound::{Size, sound};
use ground::copy;
use refusal::Refusal;

// Copies the tables of the book's n settings to the start of the room, which is long enough.
fn copy_rights(book: &[u8], n: usize, room: &mut [u8])
    requires { (n ≤ 7) × (512 * (1 + n) ≤ length book.now) × (256 * n ≤ length room.old) }
    ensures { room.new ≡ sets room.old 0 (rights_of book.now n) }
{
    for i in 0..n {
        copy(book, BLOCK * (1 + i), TABLES, room, TABLES * i);
    }
}

// A book's rights, in the first 256 bytes a setting of the room, or why there are none: 6 to 9, or 15.
pub fn read(book: &[u8], room: &mut [u8]) -> Result<Size, Refusal>
    ensures { ReadsBook book.now room.old result room.new }
{
    let size = sound(book)?;
    let n = size.settings as usize;
    if room.len() < TABLES * n {
        return Err(Refusal::Room);
    }
    copy_rights(book, n, room);
    Ok(size)
}
