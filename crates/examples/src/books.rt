// The book's examples: P13, and the check of one byte that is not zero.
use std::io;

// One line: the example's name, then the two sums of the block.
fn show(rt: &HostRuntime, name: &str, block: &[u8]) -> io::Result<()> {
    let sums = book_block::check_of(block, 0);
    println!(rt; "{name} {} and {}", sums.s, sums.t)
}

pub(crate) fn marked(rt: &HostRuntime) -> io::Result<()> {
    show(rt, "P13 508 zero bytes:", &[0u8; 508])?;
    show(rt, "P13 508 bytes 255:", &[255u8; 508])
}

// Byte 0 = 1 and the rest zero; byte 507 = 1 alone.
pub(crate) fn single_bytes(rt: &HostRuntime) -> io::Result<()> {
    let mut first = [0u8; 508];
    first[0] = 1;
    show(rt, "byte 0 = 1:", &first)?;
    let mut last = [0u8; 508];
    last[507] = 1;
    show(rt, "byte 507 = 1:", &last)
}
