// The examples of paper 01 that lend rooms or ask for bytes, run: those of formulas and blocks, and its
// list "Run by a program" but for the sheets, which tests/sheets runs. What each gives is held to
// crates/examples/stdout. That the marked examples are so is proved in crates/marked.
#![tactic(auto)]

mod books;
mod formulas;
mod questions;
mod say;

use std::io;

fn main(rt: HostRuntime) -> io::Result<()> {
    formulas::marked(&rt)?;
    formulas::lengths(&rt)?;
    books::marked(&rt)?;
    books::single_bytes(&rt)?;
    questions::plan_rooms(&rt)?;
    questions::rank_rooms(&rt)
}
