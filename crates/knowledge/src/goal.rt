// What a question asks for, as tables of formulas that are lent.

// The table of the make formula, 16 bytes, and those of the learn formulas, one after the other.
#[derive(Clone, Copy)]
pub struct Goal<'a> {
    pub make: &'a [u8],
    pub learn: &'a [u8],
}
