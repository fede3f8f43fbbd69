//! What every theory answers about a case that it only reads.
ghost use Rattle.std.specs.Prelude.{◌≡◌, length};
ghost use Rattle.knowledge.specs.Meanings.{Meaning, Lawful};
ghost use Rattle.cases.specs.Said.{numbered};
ghost use Rattle.theories.specs.Answers.{builds_at, taking_rows};

use cases::Case;

/// A theory, by the meaning that its answers are pinned to.
///
/// A row that the case does not have cannot be built and has no takings.
// Case and row are an owner and a number in it, as in `Case::row`; a struct of both would be made for each question.
pub trait Theory {
    ghost meaning: { Self → Meaning };

    /// Whether this theory owns a kind.
    // Any number may be asked about, so that a kind is a number here.
    fn owns(&self, kind: u8) -> bool
        ensures { result ≡ (meaning self.now).owns kind };

    /// Whether the term in a row can be built.
    fn can_build(&self, case: &Case, row: u16) -> bool
        ensures { result ≡ builds_at (meaning self.now) case.now row };

    /// How many takings the term in a row has.
    fn takings(&self, case: &Case, row: u16) -> usize
        ensures { result ≡ length (taking_rows (meaning self.now) case.now row) };

    /// The taking with a number, counted from 1: the row of its side, or 0, and the row of its result.
    // The rules have a taking answered as a plain pair of row numbers, 0 for no side.
    fn taking(&self, case: &Case, row: u16, number: usize) -> Option<(u16, u16)>
        ensures { result ≡ numbered (taking_rows (meaning self.now) case.now row) number };

    // The laws: each theory shows that its meaning keeps them.
    ghost lawful: { (theory : Self) → Lawful (meaning theory) };
}
