// One setting's knowledge digit: what it tells of the value now and at the start, and the digit after
// an act. A side is 0 for unknown, 1 for false, 2 for true.
ghost use Rattle.std.specs.Prelude.{◌≡◌};
ghost use Rattle.knowledge_acts.specs.Seven.{start_told, now_told, after_set, after_look, first_digit};

// How many knowledge digits there are, 0 to 6. That there are as many settings is chance.
const DIGITS: usize = 7;

// The digit after a set: a row for each digit, a column for each value, false and true.
const AFTER_SET: [[u8; 2]; DIGITS] = [
    [1, 2], // 0
    [1, 2], // 1
    [1, 2], // 2
    [3, 4], // 3
    [3, 4], // 4
    [5, 6], // 5
    [5, 6], // 6
];

// What the digit tells of the value now.
pub fn now_side(digit: u8) -> u8
    ensures { result ≡ now_told digit }
{
    if digit == 0 {
        return 0;
    }
    if DIGITS <= digit as usize {
        return 0;
    }
    if digit % 2 == 1 {
        return 1;
    }
    2
}

// What the digit tells of the value at the start.
pub fn start_side(digit: u8) -> u8
    ensures { result ≡ start_told digit }
{
    if digit < 3 {
        return 0;
    }
    if digit < 5 {
        return 1;
    }
    if (digit as usize) < DIGITS {
        return 2;
    }
    0
}

// The digit after its setting was set to the value.
pub fn after_set(digit: u8, value: bool) -> u8
    ensures { result ≡ after_set digit value }
{
    if DIGITS <= digit as usize {
        return 0;
    }
    let at = digit as usize;
    let row = AFTER_SET[at];
    if value { row[1] } else { row[0] }
}

// The digit after a look that saw the value.
pub fn after_look(value: bool) -> u8
    ensures { result ≡ after_look value }
{
    if value { 6 } else { 3 }
}

// The digit at the start, by whether the value is known, and the value.
pub fn first_digit(known: bool, value: bool) -> u8
    ensures { result ≡ first_digit known value }
{
    if known {
        return after_look(value);
    }
    0
}
