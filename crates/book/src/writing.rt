// From rights in memory to a book's bytes. The functions that write are called once `judge` has seen
// that all of it fits.
ghost use Rattle.std.specs.Prelude.{◌≡◌, ◌+◌, ◌*◌, ◌≤◌, length};
ghost use Rattle.std.proofs.lemmas.List.Edits.{sets};
ghost use Rattle.ground.specs.Search.{Lowest};
ghost use Rattle.book_block.specs.Kinds.{Tables};
ghost use Rattle.book_block.specs.Sealed.{head_block, setting_block};
ghost use Rattle.book_sound.specs.Sound.{tables_of};
ghost use Rattle.book.specs.Written.{setting_blocks};
ghost use Rattle.book.specs.Promise.{WritesBook};
ghost use Rattle.book.specs.Inner.{MayWrite};

use super::{HEAD_ZEROS, SETTING_ZEROS};
use book_block::{BLOCK, TABLES, are_tables, seal};
use ground::{POSTS_MOST, SETTINGS_MOST, copy, zeros};
use refusal::Refusal;

// Writes the head block.
fn write_head(n: u8, m: u8, room: &mut [u8])
    requires { 512 ≤ length room.old }
    ensures { room.new ≡ sets room.old 0 (head_block n m) }
{
    room[0] = n;
    room[1] = m;
    zeros(HEAD_ZEROS, room, 2);
    seal(room, 0);
}

// Writes the block of setting i.
fn write_setting(rights: &[u8], i: usize, room: &mut [u8])
    requires { (i ≤ 7) × (256 * (1 + i) ≤ length rights.now) × (512 * (2 + i) ≤ length room.old) }
    ensures { room.new ≡ sets room.old (512 * (1 + i)) (setting_block (tables_of rights.now i)) }
{
    let at = BLOCK * (1 + i);
    copy(rights, TABLES * i, TABLES, room, at);
    zeros(SETTING_ZEROS, room, at + TABLES);
    seal(room, at);
}

// Writes the blocks of the first n settings.
fn write_settings(rights: &[u8], n: usize, room: &mut [u8])
    requires { (n ≤ 7) × (256 * n ≤ length rights.now) × (512 * (1 + n) ≤ length room.old) }
    ensures { room.new ≡ sets room.old 512 (setting_blocks rights.now n) }
{
    for i in 0..n {
        write_setting(rights, i, room);
    }
}

// The lowest of n settings whose tables have a bit that must be zero.
fn first_stray(rights: &[u8], n: u8, m: u8) -> Option<usize>
    ensures { Lowest n (λ i. Tables n m (tables_of rights.now i)) result }
{
    for i in 0..n as usize {
        if !are_tables(rights, TABLES * i, n, m) {
            return Some(i);
        }
    }
    None
}

// The first of the writer's refusals that these numbers, rights and this length of the room meet.
fn judge(n: usize, m: usize, rights: &[u8], room: &[u8]) -> Result<(), Refusal>
    ensures { MayWrite n m rights.now room.now result }
{
    if n < 1 || SETTINGS_MOST < n {
        return Err(Refusal::Settings);
    }
    if m < 1 || POSTS_MOST < m {
        return Err(Refusal::Head);
    }
    if rights.len() != TABLES * n {
        return Err(Refusal::BookLength);
    }
    if let Some(setting) = first_stray(rights, n as u8, m as u8) {
        return Err(Refusal::StrayBit(1 + setting));
    }
    if room.len() < BLOCK * (1 + n) {
        return Err(Refusal::Room);
    }
    Ok(())
}

// The book of n settings and m posts with these rights, at the start of the room, or why there is
// none: nothing is written then.
pub fn write(n: usize, m: usize, rights: &[u8], room: &mut [u8]) -> Result<(), Refusal>
    ensures { WritesBook n m rights.now room.old result room.new }
{
    judge(n, m, rights, room)?;
    write_head(n as u8, m as u8, room);
    write_settings(rights, n, room);
    Ok(())
}
