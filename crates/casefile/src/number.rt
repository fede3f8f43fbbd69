//! Numbers that fit a field.
ghost use Rattle.std.specs.Prelude.{◌≡◌, ◌^◌, ◌<◌, ◌≤◌, MatchOption};

/// The widest field: nine digits always fit a `u32`.
pub const WIDEST: usize = 9;

/// A number that a field of `W` columns can hold, of one to nine columns.
#[derive(Clone, Copy, Debug, PartialEq, Eq, Hash)]
pub struct Number<const W: usize> {
    pub value: u32,
    ghost some: { 0 < W },
    ghost few: { W ≤ 9 },
    ghost fits: { value < 10 ^ W },
}

impl<const W: usize> Number<W> {
    /// The number, if a field of `W` columns can hold it.
    // As `NonZero::new`, and no `TryFrom` beside it, which would say the same once more.
    pub fn new(value: u32) -> Option<Self>
        ensures { MatchOption result
            (0 < W → W ≤ 9 → value < 10 ^ W → ⊥)
            (λ n. n.value ≡ value) }
    {
        if W == 0 || W > WIDEST {
            return None;
        }
        if value >= 10u32.pow(W as u32) {
            return None;
        }
        Some(Number { value })
    }
}
