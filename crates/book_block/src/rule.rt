// Where the table of a rule stands: in the tables of its setting, and in a book.
ghost use Rattle.std.specs.Prelude.{◌≡◌};
ghost use Rattle.book_block.specs.Rule.{table_place, rule_place};

use super::POST;
use crate::BLOCK;
use ground::TABLE;

// The two rules that a setting has for each post.
#[derive(Clone, Copy, Debug, PartialEq, Eq)]
pub enum Right {
    // who may look at the setting
    Look,
    // who may set it
    Set,
}

// The byte at which a post's table begins, in the tables of one setting.
#[tactic(auto, unfolding(crate::specs::Rule::table_place))]
pub fn table_at(post: u8, right: Right) -> usize
    ensures { result ≡ table_place post right }
{
    let look = POST * (post as usize);
    match right {
        Right::Look => look,
        Right::Set => look + TABLE,
    }
}

// The byte of a book at which the table of a rule begins: of the setting and post with these
// indexes. This is the one way to a rule's bytes.
pub fn rule_at(book: &[u8], setting: u8, post: u8, right: Right) -> usize
    ensures { result ≡ rule_place book.now setting post right }
{
    BLOCK * (1 + setting as usize) + table_at(post, right)
}
