//! The takings of one term.
ghost use Rattle.std.specs.Prelude.{◌≡◌, length};
ghost use Rattle.cases.specs.Said.{numbered};
ghost use Rattle.theories.specs.Listed.{listed};

/// At most two takings in their order, each by the row of its side, or 0, and the row of its result.
// An enum and no `ArrayVec<_, 2>`: here a match arm is the list, and there it would be pushed together.
#[derive(Clone, Copy, Debug, PartialEq, Eq, Hash)]
pub(crate) enum Takings {
    Zero,
    One((u16, u16)),
    Two((u16, u16), (u16, u16)),
}

impl Takings {
    /// How many there are.
    pub(crate) fn count(self) -> usize
        ensures { result ≡ length (listed self) }
    {
        match self {
            Takings::Zero => 0,
            Takings::One(_) => 1,
            Takings::Two(_, _) => 2,
        }
    }

    /// The taking with a number, counted from 1.
    pub(crate) fn get(self, number: usize) -> Option<(u16, u16)>
        ensures { result ≡ numbered (listed self) number }
    {
        match (self, number) {
            (Takings::One(first) | Takings::Two(first, _), 1) => Some(first),
            (Takings::Two(_, second), 2) => Some(second),
            _ => None,
        }
    }
}
