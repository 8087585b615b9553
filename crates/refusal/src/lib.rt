// Every refusal of the library and of the sheet program, in one enum, with the numbers that paper 01
// gives to each. A refusal is made at the place that finds the fault and is handed upward as it is; its
// numbers stand here alone. The crate refuses nothing itself and writes nothing.
#![tactic(auto)]

ghost use Rattle.std.specs.Prelude.{◌≡◌};
ghost use Rattle.refusal.specs.Refusals.{second_of, numbered, seconded, numbers};

// Why an act is not permitted: the second number of 18. A set of a held setting, 3, is judged first, and
// the others in the order of their numbers.
#[derive(Clone, Copy, Debug, PartialEq, Eq)]
pub enum Why {
    // 0: a look at a known setting.
    KnownSetting,
    // 1: its rule is surely false here.
    SurelyFalse,
    // 2: nobody in the team knows whether its rule holds.
    NotKnown,
    // 3: a set of a held setting.
    HeldSetting,
}

impl Why {
    // Its number.
    fn number(self) -> u8
        ensures { result ≡ second_of self }
    {
        match self {
            Why::KnownSetting => 0,
            Why::SurelyFalse => 1,
            Why::NotKnown => 2,
            Why::HeldSetting => 3,
        }
    }
}

// In the order of their numbers. Where a case holds a number, that number is the place.
#[derive(Clone, Copy, Debug, PartialEq, Eq)]
pub enum Refusal {
    // 1: formula empty or over 255 bytes.
    FormulaLength,
    // 2: byte outside `a` to `g` `0` `1` `~` `&` `|` `(` `)`, at this index.
    StrayByte(usize),
    // 3: letter at or past n, at this index.
    LetterPast(usize),
    // 4: not a sentence: the least i where the first i + 1 bytes begin no sentence; else the length.
    NotSentence(usize),
    // 5: n outside 1 to 7 handed to formula reader or book writer.
    Settings,
    // 6: book not 2 to 8 whole blocks; rights not 256 × n bytes.
    BookLength,
    // 7: the check of this block wrong.
    Check(usize),
    // 8: head's n not blocks − 1, m outside 1 to 8, or other head byte not 0.
    Head,
    // 9: setting block or rights with a bit that must be zero: block 1 to n.
    StrayBit(usize),
    // 10: team empty or with a post at or past m.
    Team,
    // 11: known settings past n, or a value bit for a setting not known.
    Known,
    // 12: make table not 16 bytes, learn tables not 0 to 4 times 16 bytes, or a bit past 2^n in either.
    Goal,
    // 13: rank table under 7^n bytes. Its place is 0 with one leg; with two, the first short table, 1 or 2.
    RankRoom(usize),
    // 14: plan longer than the lent plan room.
    PlanRoom,
    // 15: lent room for rights or book too short.
    Room,
    // 16: plan to check over 32,640 bytes.
    PlanLength,
    // 17: byte names no act of this book and team, at this index.
    NoAct(usize),
    // 18: act not permitted here, or look at a known setting, at this index; and why.
    NotPermitted(usize, Why),
    // 19: stop where the goal isn't settled, at this index.
    NotSettled(usize),
    // 20: plan ends too soon, after this many bytes.
    TooSoon(usize),
    // 21: bytes after a whole plan, the first of them at this index.
    LeftOver(usize),
    // 22: sheet line malformed, absent or out of place: this line.
    Malformed(usize),
    // 23: right, post or setting named twice, on this line.
    Twice(usize),
    // 24: sheet over 32,768 bytes; or another text, or a shift, over its own bound.
    SheetLength,
    // 25: n above 5 in the program. Its place is 1, the line of the size.
    SheetSettings,
    // 26: shift of odd length, or a starting valuation not below 2^n.
    Shift,
    // 27: record with this index no act of the book, or its second byte not 0 or 1 (not 0 for a set).
    NoRecord(usize),
    // 28: the record with this index not permitted on the true settings.
    NotAllowed(usize),
    // 29: the record with this index a look that disagrees with the true settings.
    Disagrees(usize),
    // 30: the head block of a book to be salvaged fails its check, or 8.
    SalvageHead,
    // 31: a held setting past n.
    Held,
    // 32: set to the value that the team knows is already there, at this index.
    ChangesNothing(usize),
}

// The numbers that a refusal gives: "a refusal gives a number and a place", and 18 "carries a second number".
#[derive(Clone, Copy, Debug, PartialEq, Eq)]
pub struct Numbers {
    pub number: u64,
    // 0 unless the refusal names one
    pub place: usize,
    // 18 alone has one
    pub second: Option<u8>,
}

// A refusal's numbers, where it has no second one.
fn numbered(number: u64, place: usize) -> Numbers
    ensures { result ≡ numbered number place }
{
    Numbers {
        number,
        place,
        second: None,
    }
}

// The numbers of 18.
fn not_permitted(at: usize, why: Why) -> Numbers
    ensures { result ≡ seconded 18 at (second_of why) }
{
    Numbers {
        number: 18,
        place: at,
        second: Some(why.number()),
    }
}

impl Refusal {
    // The row of paper 01's table of numbered refusals.
    pub fn numbers(self) -> Numbers
        ensures { result ≡ numbers self }
    {
        match self {
            Refusal::FormulaLength => numbered(1, 0),
            Refusal::StrayByte(at) => numbered(2, at),
            Refusal::LetterPast(at) => numbered(3, at),
            Refusal::NotSentence(at) => numbered(4, at),
            Refusal::Settings => numbered(5, 0),
            Refusal::BookLength => numbered(6, 0),
            Refusal::Check(block) => numbered(7, block),
            Refusal::Head => numbered(8, 0),
            Refusal::StrayBit(block) => numbered(9, block),
            Refusal::Team => numbered(10, 0),
            Refusal::Known => numbered(11, 0),
            Refusal::Goal => numbered(12, 0),
            Refusal::RankRoom(table) => numbered(13, table),
            Refusal::PlanRoom => numbered(14, 0),
            Refusal::Room => numbered(15, 0),
            Refusal::PlanLength => numbered(16, 0),
            Refusal::NoAct(at) => numbered(17, at),
            Refusal::NotPermitted(at, why) => not_permitted(at, why),
            Refusal::NotSettled(at) => numbered(19, at),
            Refusal::TooSoon(at) => numbered(20, at),
            Refusal::LeftOver(at) => numbered(21, at),
            Refusal::Malformed(line) => numbered(22, line),
            Refusal::Twice(line) => numbered(23, line),
            Refusal::SheetLength => numbered(24, 0),
            Refusal::SheetSettings => numbered(25, 1),
            Refusal::Shift => numbered(26, 0),
            Refusal::NoRecord(index) => numbered(27, index),
            Refusal::NotAllowed(index) => numbered(28, index),
            Refusal::Disagrees(index) => numbered(29, index),
            Refusal::SalvageHead => numbered(30, 0),
            Refusal::Held => numbered(31, 0),
            Refusal::ChangesNothing(at) => numbered(32, at),
        }
    }
}
