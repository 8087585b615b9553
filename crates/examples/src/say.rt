// What the examples print, to standard output.
use refusal::Refusal;
use std::io;

// A refusal: its number and its place.
pub(crate) fn say_refused(rt: &HostRuntime, why: Refusal) -> io::Result<()> {
    let told = why.numbers();
    print!(rt; " refused {} at {}", told.number, told.place)
}
