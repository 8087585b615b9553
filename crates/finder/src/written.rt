// The plan written: first its length, so that a room too short is left as it was, then its bytes.
// Each step leads to a lower rank, so both are at most 255 deep.
ghost use Rattle.std.specs.Prelude.{◌≡◌, ◌+◌, ◌≤◌, length};
ghost use Rattle.std.proofs.lemmas.List.Edits.{sets};
ghost use Rattle.plan.specs.Plans.{System, Plan};
ghost use Rattle.plan.specs.Ranks.{Written};
ghost use Rattle.plan.specs.Bytes.{encode};
ghost use Rattle.finder.specs.Tables.{TablesTell, Ranked, PlanFits};

use crate::steps::choose;
use finder_sides::SIDES;
use ground::SETTINGS_MOST;
use knowledge::{look_at, set_to};
use knowledge_acts::Act;

// How many bytes the plan written from k has. For this crate alone: k has a rank below 255.
pub(crate) fn length(
    n: u8,
    set: &[[u8; SIDES]; SETTINGS_MOST],
    look: &[[u8; SIDES]; SETTINGS_MOST],
    ranks: &[u8],
    k: u32,
) -> usize
    requires { Ranked n set.now look.now ranks.now k }
    ensures { (result ≤ 32640) × ((S : System) → TablesTell n set.now look.now ranks.now S → (p : Plan) × Written S k p × (result ≡ length (encode p))) }
{
    let Some(act) = choose(n, set, look, ranks, k) else {
        return 1;
    };
    match act {
        Act::Set { setting, value, .. } => {
            1 + length(n, set, look, ranks, set_to(k, setting, value))
        }
        Act::Look { setting, .. } => {
            let no = length(n, set, look, ranks, look_at(k, setting, false));
            let yes = length(n, set, look, ranks, look_at(k, setting, true));
            1 + no + yes
        }
    }
}

// Writes the plan from k into the room at `at`, and gives the place after it. For this crate alone: k has
// a rank below 255, and the plan fits.
pub(crate) fn write(
    n: u8,
    set: &[[u8; SIDES]; SETTINGS_MOST],
    look: &[[u8; SIDES]; SETTINGS_MOST],
    ranks: &[u8],
    k: u32,
    room: &mut [u8],
    at: usize,
) -> usize
    requires { Ranked n set.now look.now ranks.now k × PlanFits n set.now look.now ranks.now k at (length room.old) }
    ensures { (S : System) → TablesTell n set.now look.now ranks.now S →
        (p : Plan) × Written S k p × (room.new ≡ sets room.old at (encode p))
        × (result ≡ at + length (encode p)) }
{
    let Some(act) = choose(n, set, look, ranks, k) else {
        room[at] = 0;
        return at + 1;
    };
    room[at] = act.byte();
    match act {
        Act::Set { setting, value, .. } => {
            write(n, set, look, ranks, set_to(k, setting, value), room, at + 1)
        }
        Act::Look { setting, .. } => {
            let next = write(
                n,
                set,
                look,
                ranks,
                look_at(k, setting, false),
                room,
                at + 1,
            );
            write(n, set, look, ranks, look_at(k, setting, true), room, next)
        }
    }
}
