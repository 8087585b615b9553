// The sheet program: a sheet on standard input, its answer on standard output, and what came of it on descriptor 3.
// Where reading fails nothing is answered, and where writing fails what was written stays; both are said on
// standard error.
#![tactic(auto)]

// One byte more than a sheet may have, so that a longer one is seen to be too long without reading on.
const READ_MOST: usize = sheet_reading::SHEET_MOST + 1;

// Writes out the answer to a sheet, and says what came of it, of a refusal with its own place.
fn deliver(rt: &HostRuntime, sheet: &[u8], answer: &[u8]) {
    let outcome = program_outcome::of_answer(answer);
    match sheet_reading::read(sheet) {
        Ok(_) => program_outcome::deliver(rt, answer, outcome),
        Err(fault) => { program_outcome::deliver_fault(rt, answer, outcome, fault.why, b"sheet\n") }
    }
}

// What a sheet is answered.
fn answer(rt: &HostRuntime, sheet: &[u8]) {
    let mut out = [0u8; sheet::ANSWER_MOST];
    let printed = sheet::answer(sheet, &mut out);
    deliver(rt, sheet, &out[..printed]);
}

fn main(rt: HostRuntime) {
    let mut sheet = [0u8; READ_MOST];
    match program_files::read_all(&mut rt.stdin(), &mut sheet) {
        Ok(length) => answer(&rt, &sheet[..length]),
        Err(error) => program_outcome::trouble(&rt, b"parjolenc: standard input", error),
    }
}
