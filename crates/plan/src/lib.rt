// Plans and ranks, their meaning and their theory: no code, so that every finder and every check
// stands on the same definitions and laws.
#![tactic(auto)]

use refusal::Why;

// What is said of an act where a team knows so much.
#[derive(Clone, Copy, Debug, PartialEq, Eq)]
pub enum Permit {
    // It is permitted.
    Given,
    // It is not permitted, and why.
    Denied(Why),
    // It would be, but it sets the value that the team knows is already there.
    ChangesNothing,
}
