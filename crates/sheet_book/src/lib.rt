// A text of rules to the bytes of a book. The lines `size`, `read` and `write` of a sheet, N up to 7, are
// read, and what they state is written as a book. A text that is not whole is refused by the first of its
// refusals, with the line; a room that is too short is refused after them. A refusal leaves the room as it
// was. A success fills the first 512 bytes a block of it, and no other byte.
#![tactic(auto)]

ghost use Rattle.sheet_rules.specs.Rules.{Rules};
ghost use Rattle.sheet_rules.specs.Desk.{OnDesk};
ghost use Rattle.sheet_rules.specs.Meaning.{rules_meaning};
ghost use Rattle.sheet_book.specs.Book.{MakesOf, MakesBook};

use book_block::{BLOCK, TABLES};
use ground::SETTINGS_MOST;
use sheet_rules::{RulesDesk, read_rules};
use sheet_words::Fault;

// The most bytes that a book has: a head and 7 settings.
pub const BOOK_MOST: usize = BLOCK * (1 + SETTINGS_MOST);

// Writes the book of the rules on the desk, and gives its length.
fn write_book(desk: RulesDesk, room: &mut [u8]) -> Result<usize, Fault>
    requires { (rules : Rules) × OnDesk rules desk }
    ensures { (rules : Rules) → OnDesk rules desk → MakesOf rules room.old result room.new }
{
    let n = desk.settings as usize;
    match book::write(n, desk.posts as usize, &desk.rights[..TABLES * n], room) {
        Ok(()) => Ok(BLOCK * (1 + n)),
        Err(why) => Err(Fault { why, line: 0 }),
    }
}

// The book of a text of rules is written at the start of the room: its length, or why there is none. The line is 0
// where the reason is the text's length or the room's.
pub fn make_book(rules: &[u8], room: &mut [u8]) -> Result<usize, Fault>
    ensures { MakesBook (rules_meaning rules.now) room.old result room.new }
{
    let desk = read_rules(rules)?;
    write_book(desk, room)
}
