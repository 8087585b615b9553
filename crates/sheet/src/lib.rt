// The sheet program's answer, all in memory: a text sheet to what is printed. A sheet that is not
// whole is answered by the first of its refusals, with the number and the line. Nothing is refused: a
// room shorter than the answer holds as much of it as fits.
#![tactic(auto)]

mod asking;

ghost use Rattle.sheet.specs.Answer.{AnswersSheet};

use asking::{SHEET_PLAN_MOST, ask};
use sheet_reading::read;

// The most bytes that an answer has: 10 for `reach` and a height of up to three digits, and 14 for each of
// 2,016 plan bytes, as `999 set g 8 1` and the line's end have. A refusal is shorter.
pub const ANSWER_MOST: usize = 10 + 14 * SHEET_PLAN_MOST;

// What is printed for a sheet, as much of it as fits into the room; and the length of all of it.
pub fn answer(sheet: &[u8], out: &mut [u8]) -> usize
    ensures { AnswersSheet sheet.now out.old result out.new }
{
    match read(sheet) {
        Ok(desk) => ask(desk, out),
        Err(fault) => print_answer::refused(fault.why.numbers().number, fault.line, out),
    }
}
