//! How many lines of each letter a text has.
ghost use Rattle.std.specs.Prelude.{◌+◌, ◌<◌};

/// The counts of terms, given marks, asks and shows; each fits a printed summary line.
#[derive(Clone, Copy, Debug, PartialEq, Eq, Hash)]
pub struct Summary {
    pub terms: usize,
    pub given: usize,
    pub asks: usize,
    pub shows: usize,
    ghost few: { terms + given + asks + shows < 100000 },
}
