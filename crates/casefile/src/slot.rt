//! Numbers and the columns that they are written in.
ghost use Rattle.std.specs.Prelude.{◌≡◌, ◌<◌};

use super::number::Number;

// A number and the columns that it is written in.
#[derive(Clone, Copy, Debug, PartialEq, Eq)]
pub(crate) struct Slot {
    pub(crate) width: usize,
    pub(crate) number: u32,
    ghost some: { 0 < width },
}

impl<const W: usize> From<Number<W>> for Slot {
    ghost from_gives = { λ n s. (s.width ≡ W) × (s.number ≡ n.value) };

    // The number, in as many columns as its type says.
    fn from(number: Number<W>) -> Slot {
        Slot {
            width: W,
            number: number.value,
        }
    }
}
