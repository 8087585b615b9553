// Bytes of slices: one that may not be there, a run of zeros, and a number of 16 bits, which this crate
// alone writes where there is room for it.
ghost use Rattle.std.specs.Prelude.{◌≡◌, ◌+◌, ◌≤◌, length, drop, slice_index};
ghost use Rattle.std.proofs.lemmas.List.Edits.{sets};
ghost use Rattle.ground.specs.Tells.{Tells};
ghost use Rattle.book_block.specs.Sealed.{bytes16};
ghost use Rattle.book_block.specs.Kinds.{Zeros};

use ground::peek;

// Byte i of what begins at byte `from`; 0 where there is none, also where the sum is too large for a
// place.
pub(crate) fn byte_at(bytes: &[u8], from: usize, i: usize) -> u8
    ensures { result ≡ slice_index bytes.now (from + i) }
{
    if bytes.len() <= from || bytes.len() - from <= i {
        return 0;
    }
    peek(bytes, from + i)
}

// Whether the bytes `first` up to `end` of what begins at byte `from` are zero.
pub fn are_zeros(bytes: &[u8], from: usize, first: usize, end: usize) -> bool
    ensures { Tells result (Zeros first end (drop from bytes.now)) }
{
    (first..end).all(|j| byte_at(bytes, from, j) == 0)
}

// Writes a number of 16 bits into the room at `to`, low byte first.
pub(crate) fn put16(number: u16, room: &mut [u8], to: usize)
    requires { to + 2 ≤ length room.old }
    ensures { room.new ≡ sets room.old to (bytes16 number) }
{
    room[to..to + 2].copy_from_slice(&number.to_le_bytes());
}
