// What is asked: a goal, by a question, under the rules of a book.
use knowledge::Goal;
use question::Question;

// A valid question, as the search carries it along. For this crate alone.
#[derive(Clone, Copy)]
pub(crate) struct Asked<'a> {
    // How many settings the book has.
    pub(crate) n: u8,
    pub(crate) book: &'a [u8],
    pub(crate) question: Question,
    pub(crate) goal: Goal<'a>,
}
