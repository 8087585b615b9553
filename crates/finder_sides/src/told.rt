// What one side tells: the valuation, or that some setting is unknown.
ghost use Rattle.std.specs.Prelude.{◌^◌, ◌≤◌, ◌<◌};
ghost use Rattle.finder_sides.specs.Inner.{SideTells};

#[derive(Clone, Copy)]
pub enum SideTold {
    // a setting i is unknown: 3^i, by which the side changes where setting i is false, and twice
    // that where it is true
    Unknown(usize),
    // nothing is unknown: the one valuation that fits
    Valuation(usize),
}

// What the side tells of the n settings. For this crate alone: it is one of the 3^n sides.
pub(crate) fn told_by(n: u8, side: usize) -> SideTold
    requires { (n ≤ 7) × (side < 3 ^ n) }
    ensures { SideTells n side result }
{
    let mut rest = side;
    let mut power: usize = 1;
    let mut value: usize = 0;
    let mut weight: usize = 1;
    for _ in 0..n {
        let digit = rest % 3;
        if digit == 0 {
            return SideTold::Unknown(power);
        }
        value += (digit - 1) * weight;
        rest /= 3;
        power *= 3;
        weight *= 2;
    }
    SideTold::Valuation(value)
}
