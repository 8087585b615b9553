// What is found at one valuation, up to eight judgements at once as the bits of a byte, and the columns
// of all valuations.
ghost use Rattle.std.specs.Prelude.{◌≡◌, ◌&&◌, ℕ, ◌^◌, ◌≤◌, ◌<◌};
ghost use Rattle.ground.specs.Digits.{bit};
ghost use Rattle.ground.specs.Table.{truth};
ghost use Rattle.book_block.specs.Rule.{rule};
ghost use Rattle.finder_sides.specs.Inner.{PostsAt, EachColumn, doubled};

use crate::VALUATIONS;
use book_block::{Right, rule_at};
use ground::{POSTS_MOST, Present, bit_of, valuations};

// Whether the post is of the team and its rule on the setting is true.
fn post_at(book: &[u8], team: u8, setting: u8, post: u8, right: Right, v: Present) -> bool
    requires { v.0 < 128 }
    ensures { result ≡ (bit team post && truth (rule book.now setting post right) v.0) }
{
    bit_of(team, post) && v.finds(book, rule_at(book, setting, post, right))
}

// The bits one place up, and one more below them.
fn push(bits: u8, low: bool) -> u8
    requires { bits < 128 }
    ensures { result ≡ doubled bits low }
{
    bits * 2 + low as u8
}

// The column of the posts at the valuation v. For this crate alone.
pub(crate) fn posts_at(book: &[u8], team: u8, setting: u8, right: Right, v: Present) -> u8
    requires { v.0 < 128 }
    ensures { PostsAt book.now team setting right v.0 result }
{
    let mut bits: u8 = 0;
    for post in (0..POSTS_MOST as u8).rev() {
        bits = push(bits, post_at(book, team, setting, post, right, v));
    }
    bits
}

// The columns of all valuations of up to seven settings, each as the caller finds it. For this crate alone.
pub(crate) fn columns_of<F: Fn(u8) -> u8>(n: u8, found: F) -> [u8; VALUATIONS]
    requires most { n ≤ 7 }
    requires findable { (v : ℕ) → v < 128 → F.pre found v }
    ensures { EachColumn (F.post found) (2 ^ n) result }
{
    let mut columns = [0u8; VALUATIONS];
    for v in 0..valuations(n) {
        columns[v as usize] = found(v);
    }
    columns
}
