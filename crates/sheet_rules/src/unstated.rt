// What a right is that nobody wrote down, and the rights of which none is stated.
ghost use Rattle.std.specs.Prelude.{◌≡◌, ◌≤◌, length};
ghost use Rattle.formula.specs.Read.{Accepts};
ghost use Rattle.sheet_rules.specs.Rules.{unstated};
ghost use Rattle.sheet_rules.specs.Turns.{unstated_at, Laid, Unstated};

use crate::desk::{RIGHTS, SLOTS};
use book_block::Right;
use ground::TABLE;

// The rights of one setting: a look and a set for each of eight posts.
const SETTING_SLOTS: usize = SLOTS / ground::SETTINGS_MOST;

// "A look right that nobody wrote down is open, because the settings are on the screen"; a set right is closed.
fn unstated(right: Right) -> [u8; 1]
    ensures { result ≡ unstated right }
{
    match right {
        Right::Look => [b'1'],
        Right::Set => [b'0'],
    }
}

// The table of such a right, for n settings.
fn unstated_table(n: u8, right: Right) -> [u8; TABLE]
    requires { (1 ≤ n) × (n ≤ 7) }
    ensures { Accepts n (unstated right) result }
{
    formula::read(n as usize, &unstated(right)).unwrap()
}

// What stands at this place among all rights: the table of a right of the size, and past it zeros.
fn unstated_at(n: u8, m: u8, looks: [u8; TABLE], sets: [u8; TABLE], slot: usize) -> [u8; TABLE]
    ensures { result ≡ unstated_at n m looks sets slot }
{
    if n as usize <= slot / SETTING_SLOTS {
        return [0u8; TABLE];
    }
    if m as usize <= slot % SETTING_SLOTS / 2 {
        return [0u8; TABLE];
    }
    if slot % 2 == 0 { looks } else { sets }
}

// The rights of n settings and m posts of which none is stated.
fn lay(n: u8, m: u8, looks: [u8; TABLE], sets: [u8; TABLE]) -> [u8; RIGHTS]
    requires { (length looks ≡ 16) × (length sets ≡ 16) }
    ensures { Laid n m looks sets 112 result }
{
    let mut rights = [0u8; RIGHTS];
    for slot in 0..SLOTS {
        let table = unstated_at(n, m, looks, sets, slot);
        rights[TABLE * slot..TABLE * slot + TABLE].copy_from_slice(&table);
    }
    rights
}

// The same, by what an unstated right is.
pub(crate) fn unstated_rights(n: u8, m: u8) -> [u8; RIGHTS]
    requires { (1 ≤ n) × (n ≤ 7) }
    ensures { Unstated n m result }
{
    lay(
        n,
        m,
        unstated_table(n, Right::Look),
        unstated_table(n, Right::Set),
    )
}
