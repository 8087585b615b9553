// What a judgement of a table at a side can say.
ghost use Rattle.std.specs.Prelude.{◌≡◌};
ghost use Rattle.knowledge.specs.Judgement.{holds, settles};

// True at all valuations that fit, false at all, or neither.
#[derive(Clone, Copy, Debug, PartialEq, Eq)]
pub enum Judgement {
    TrueAtAll,
    FalseAtAll,
    Neither,
}

impl Judgement {
    // Whether a rule judged so is known to hold.
    pub fn holds(self) -> bool
        ensures { result ≡ holds self }
    {
        matches!(self, Judgement::TrueAtAll)
    }

    // Whether a learn formula judged so is settled.
    pub fn settles(self) -> bool
        ensures { result ≡ settles self }
    {
        !matches!(self, Judgement::Neither)
    }
}
