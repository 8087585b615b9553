// The finder's answer, printed.
ghost use Rattle.print_answer.specs.Printed.{refused_text, Prints};
ghost use Rattle.refusal.specs.Refusals.{number, place};
ghost use Rattle.sheet_ask.specs.Inner.{Readable, Tells};

use finder::Answer;
use refusal::Refusal;

// A refusal with its own place.
pub(crate) fn refuse(why: Refusal, out: &mut [u8]) -> usize
    ensures { Prints out.old (refused_text (number why) (place why)) result out.new }
{
    let numbers = why.numbers();
    print_answer::refused(numbers.number, numbers.place, out)
}

// What is printed for an answer, with the plan at the start of its room.
pub(crate) fn tell(answer: Result<Answer, Refusal>, plan: &[u8], out: &mut [u8]) -> usize
    requires { Readable answer plan.now }
    ensures { Tells answer plan.now out.old result out.new }
{
    match answer {
        Ok(Answer::Reach { height, length }) => print_answer::reach(height, &plan[..length], out),
        Ok(Answer::Cannot) => print_answer::cannot(out),
        Err(why) => refuse(why, out),
    }
}
