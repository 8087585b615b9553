// The rules' desk: what rules have stated so far, by value, with the formulas as their tables.
ghost use Rattle.std.specs.Prelude.{[], ◌≤◌};
ghost use Rattle.sheet_rules.specs.Rules.{size_of};
ghost use Rattle.sheet_rules.specs.Desk.{RulesOnDesk};

use crate::unstated::unstated_rights;
use book_block::TABLES;
use ground::{SETTINGS_MOST, TABLE};

// The bytes of the rights of 7 settings, and how many rights there are.
pub(crate) const RIGHTS: usize = SETTINGS_MOST * TABLES;

pub(crate) const SLOTS: usize = RIGHTS / TABLE;

// The size and the rights. Any caller may make one: that it is a text's is what a contract says of it
// (`RulesOnDesk`).
#[derive(Clone, Copy)]
pub struct RulesDesk {
    pub settings: u8,
    pub posts: u8,
    // The tables of the rights, as in memory, and a byte for each: 1 where it is stated.
    pub rights: [u8; RIGHTS],
    pub stated: [u8; SLOTS],
}

// A desk on which only the size is stated.
pub(crate) fn sized(settings: u8, posts: u8) -> RulesDesk
    requires { (1 ≤ settings) × (settings ≤ 7) × (1 ≤ posts) × (posts ≤ 8) }
    ensures { RulesOnDesk (size_of settings posts) [] result }
{
    let rights = unstated_rights(settings, posts);
    RulesDesk {
        settings,
        posts,
        rights,
        stated: [0u8; SLOTS],
    }
}
