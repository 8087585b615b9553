// Text into a lent room from a place on: bytes, words and numbers in decimal. A place past the room is
// counted and not written, so each function gives the place after its text, whatever the room's length.
// It refuses nothing. For this repository alone: its functions ask that places stay below 2^64.
#![tactic(auto)]

ghost use Rattle.std.specs.Prelude.{[], ◌∷◌};
ghost use Rattle.print_room.specs.Decimal.{decimal};
ghost use Rattle.print_room.specs.Wrote.{Ends, Wrote};

// One byte.
pub fn put(byte: u8, out: &mut [u8], to: usize) -> usize
    requires { Ends to (byte ∷ []) }
    ensures { Wrote out.old to (byte ∷ []) out.new result }
{
    if to < out.len() {
        out[to] = byte;
    }
    to + 1
}

// A run of bytes.
pub fn word(text: &[u8], out: &mut [u8], to: usize) -> usize
    requires { Ends to text.now }
    ensures { Wrote out.old to text.now out.new result }
{
    let mut at = to;
    for byte in text {
        at = put(*byte, out, at);
    }
    at
}

// A number's decimal digits: those of a tenth of it first, so at most 20 deep.
pub fn number(n: u64, out: &mut [u8], to: usize) -> usize
    requires { Ends to (decimal n) }
    ensures { Wrote out.old to (decimal n) out.new result }
{
    if n < 10 {
        return put(b'0' + n as u8, out, to);
    }
    let next = number(n / 10, out, to);
    put(b'0' + (n % 10) as u8, out, next)
}
