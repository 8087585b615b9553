// The program of `book RULES BOOK`: the rules text that its first word names, to a book in the file that its second word
// names. That file is made; one that is there is never overwritten, and a refusal or a failed write leaves none.
#![tactic(auto)]

const RULES_WORD: usize = 1;

const BOOK_WORD: usize = 2;

// One byte more than rules may have, so that a longer text is seen to be too long.
const READ_MOST: usize = sheet_words::TEXT_MOST + 1;

// The book of a rules text, or its refusal.
fn make(rt: &HostRuntime, rules: &[u8]) {
    let mut book = [0u8; sheet_book::BOOK_MOST];
    match sheet_book::make_book(rules, &mut book) {
        Ok(length) => program_outcome::store(rt, BOOK_WORD, &book[..length]),
        Err(fault) => program_outcome::refuse_line(rt, fault, b"rules\n"),
    }
}

fn main(rt: HostRuntime) {
    let mut room = [0u8; READ_MOST];
    if let Some(rules) = program_outcome::input(&rt, RULES_WORD, &mut room) {
        make(&rt, rules);
    }
}
