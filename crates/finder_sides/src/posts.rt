// Which posts of a team may act on each setting, at each present side.
ghost use Rattle.std.specs.Prelude.{◌≡◌, min};
ghost use Rattle.finder_sides.specs.Tables.{acting_on, PostTables};

use crate::SIDES;
use crate::columns::{columns_of, posts_at};
use crate::counts::up_to_seven;
use crate::filled::fill;
use book_block::Right;
use ground::{Present, SETTINGS_MOST, bit_of};

// The posts of the team that may act on a setting: none where it is held.
#[tactic(auto, unfolding(crate::specs::Tables::acting_on))]
fn acting_on(team: u8, held: u8, setting: u8) -> u8
    ensures { result ≡ acting_on team held setting }
{
    if bit_of(held, setting) { 0 } else { team }
}

// For each of the n settings and each side, the posts of the team whose look or set rule is known to
// hold there; 0 where the setting is held, past the n settings and past their sides. More than seven
// settings count as seven.
pub fn posts_allowed(
    book: &[u8],
    n: u8,
    team: u8,
    held: u8,
    right: Right,
) -> [[u8; SIDES]; SETTINGS_MOST]
    ensures { PostTables (min n 7) book.now (acting_on team held) right result }
{
    let settings = up_to_seven(n);
    let mut tables = [[0u8; SIDES]; SETTINGS_MOST];
    for setting in 0..settings {
        let acting = acting_on(team, held, setting);
        let columns = columns_of(
            settings,
            |v| posts_at(book, acting, setting, right, Present(v)),
        );
        tables[setting as usize] = fill(settings, &columns);
    }
    tables
}
