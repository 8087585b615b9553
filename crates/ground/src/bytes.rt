// Runs of bytes written into a lent room: as much of a run as is there and as fits.
ghost use Rattle.std.specs.Prelude.{◌≡◌, ◌-◌, ◌≤◌, min, length, take, drop, replicate};
ghost use Rattle.std.proofs.lemmas.List.Edits.{sets};

// How many of the `count` bytes from place `at` on there are, where there are `length` in all.
pub fn part_of(count: usize, length: usize, at: usize) -> usize
    ensures { result ≡ min count (length - at) }
{
    count.min(length.saturating_sub(at))
}

// `copy` where both runs are there. A loop, which the compiler takes for a `memcpy`; `copy_from_slice` would be a `memmove`,
// which the library for C asks of no host.
fn copy_run(source: &[u8], from: usize, count: usize, room: &mut [u8], to: usize)
    requires { (count ≤ length source.now - from) × (count ≤ length room.old - to) }
    ensures { room.new ≡ sets room.old to (take count (drop from source.now)) }
{
    for i in 0..count {
        room[to + i] = source[from + i];
    }
}

// Copies the `count` bytes of `source` that begin at `from` into the room at `to`: those that are there,
// as far as the room goes.
pub fn copy(source: &[u8], from: usize, count: usize, room: &mut [u8], to: usize)
    ensures { room.new ≡ sets room.old to (take count (drop from source.now)) }
{
    let there = part_of(count, source.len(), from);
    let fits = part_of(there, room.len(), to);
    copy_run(source, from, fits, room, to);
}

// Writes `count` zero bytes into the room at `to`, as far as the room goes.
pub fn zeros(count: usize, room: &mut [u8], to: usize)
    ensures { room.new ≡ sets room.old to (replicate count 0) }
{
    let fits = part_of(count, room.len(), to);
    if fits != 0 {
        room[to..to + fits].fill(0);
    }
}
