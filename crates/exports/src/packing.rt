// A refusal and a finder's answer as one number, and where a replay stands as two, for the C interface.
ghost use Rattle.std.specs.Prelude.{◌≡◌, ◌+◌, ◌*◌, ◌%◌, ◌^◌, ◌<◌};
ghost use Rattle.refusal.specs.Refusals.{and_one};
ghost use Rattle.exports.specs.Packed.{packed, packed_at};
ghost use Rattle.exports.specs.Returned.{find_returned, reached_as};

use finder::Answer as Found;
use refusal::Refusal;
use station::Running;

// The second number in bits 40 to 47, the number in bits 32 to 39, and the low 32 bits of the place.
fn joined(second: u8, number: u64, place: usize) -> u64
    requires { number < 256 }
    ensures { result ≡ second * 2 ^ 40 + number * 2 ^ 32 + place % 2 ^ 32 }
{
    ((second as u64) << 40) + (number << 32) + (place as u64) % (1 << 32)
}

// A second number and one, or 0 where there is none.
fn above(second: Option<u8>) -> u8
    requires { and_one second < 256 }
    ensures { result ≡ and_one second }
{
    match second {
        Some(second) => second + 1,
        None => 0,
    }
}

// The second number is one more than it is, and 0 where there is none. Every place that a function gives
// fits 32 bits (proofs/Apart).
pub fn packed(why: Refusal) -> u64
    ensures { result ≡ packed why }
{
    let told = why.numbers();
    joined(above(told.second), told.number, told.place)
}

// A refusal of a text, with its line in the place of its own.
pub fn packed_at(why: Refusal, line: usize) -> u64
    ensures { result ≡ packed_at why line }
{
    let told = why.numbers();
    joined(above(told.second), told.number, line)
}

// A finder's answer: "reach" as height << 16 | plan length, "cannot" as 0, or a refusal.
pub fn found_as(answer: Result<Found, Refusal>) -> u64
    ensures { result ≡ find_returned answer }
{
    match answer {
        Ok(found) => match found {
            Found::Reach { height, length } => (height as u64) * 65536 + (length as u64) % 65536,
            Found::Cannot => 0,
        },
        Err(why) => packed(why),
    }
}

// The count of acts and the valuation.
pub fn reached_as(running: Running) -> [u64; 2]
    ensures { result ≡ reached_as running }
{
    let present = running.present;
    [running.count as u64, present.0 as u64]
}
