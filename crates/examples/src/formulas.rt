// The formula reader's examples: P1 to P5, and texts of 255 and 256 bytes.
use crate::say::say_refused;
use std::io;

// One line: the example's name, then byte 0 of the table or the refusal.
fn show(rt: &HostRuntime, name: &str, n: usize, text: &[u8]) -> io::Result<()> {
    rt.print(name)?;
    match formula::read(n, text) {
        Ok(table) => print!(rt; " byte 0 is {}", table[0])?,
        Err(why) => say_refused(rt, why)?,
    }
    rt.println("")
}

pub(crate) fn marked(rt: &HostRuntime) -> io::Result<()> {
    show(rt, "P1", 3, b"a|b&~c")?;
    show(rt, "P2", 2, b"~a&b")?;
    show(rt, "P3", 1, b"a&")?;
    show(rt, "P4", 1, b"a)")?;
    show(rt, "P5", 2, b"c")
}

// A row of `~` and a letter, of 255 bytes and of 256.
pub(crate) fn lengths(rt: &HostRuntime) -> io::Result<()> {
    let mut longest = [b'~'; 255];
    longest[254] = b'a';
    show(rt, "255 bytes", 1, &longest)?;
    let mut longer = [b'~'; 256];
    longer[255] = b'a';
    show(rt, "256 bytes", 1, &longer)
}
