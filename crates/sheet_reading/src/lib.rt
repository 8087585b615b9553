// A whole sheet: rules, and then a question. What it states, on a desk, or its first refusal, with its
// line. A sheet of any length and content is taken, and nothing is written to what a caller lends.
#![tactic(auto)]

ghost use Rattle.sheet_reading.specs.Reading.{sheet_meaning};
ghost use Rattle.sheet_reading.specs.Reads.{ReadsSheet};

use refusal::Refusal;
use sheet_question::{AskedDesk, question_of};
use sheet_rules::{RulesDesk, rules_of};
use sheet_words::Fault;

// The most bytes of a sheet: "24 sheet over 32,768 bytes".
pub const SHEET_MOST: usize = 32768;

// "The program takes n up to 5."
pub const SHEET_SETTINGS_MOST: usize = 5;

// What a sheet of up to 5 settings states, each formula as its table. Any caller may make one: that it
// is a sheet's is what a contract says of it (`OnDesk`).
#[derive(Clone, Copy)]
pub struct Desk {
    pub rules: RulesDesk,
    pub asked: AskedDesk,
}

// What a sheet of any length and content states, or its first refusal: its rules, and its question from
// the byte where they end.
pub fn read(sheet: &[u8]) -> Result<Desk, Fault>
    ensures { ReadsSheet (sheet_meaning sheet.now) result }
{
    if SHEET_MOST < sheet.len() {
        return Err(Fault {
            why: Refusal::SheetLength,
            line: 0,
        });
    }
    let first = rules_of(sheet, false, SHEET_SETTINGS_MOST as u8)?;
    let rules = first.desk;
    let asked = question_of(
        &sheet[first.at..],
        first.lines as u32,
        false,
        rules.settings,
        rules.posts,
    )?;
    Ok(Desk { rules, asked })
}
