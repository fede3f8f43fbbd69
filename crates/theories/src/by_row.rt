//! Theories whose steps are read off rows.
ghost use Rattle.std.specs.Prelude.{◌≡◌, ℕ, Some};
ghost use Rattle.knowledge.specs.Meanings.{Meaning, Lawful};
ghost use Rattle.cases.specs.declared.case.Case.{Case};
ghost use Rattle.cases.specs.Case.{row_at, kind_at};
ghost use Rattle.theories.specs.Answers.{builds_at, taking_rows};
ghost use Rattle.theories.specs.Listed.{listed};

use super::takings::Takings;
use super::theory::Theory;
use cases::{Case, Row};

/// A theory that tells from a term's kind whether it can be built, and from its row what is taken from it.
pub(crate) trait ByRow {
    ghost meaning: { Self → Meaning };

    /// Whether this theory owns a kind.
    // Not `owns`, which is the question of `Theory`. Kinds are numbers here, as there.
    fn owns_kind(&self, kind: u8) -> bool
        ensures { result ≡ (meaning self.now).owns kind };

    /// Whether a term of this kind can be built, in whatever row of whatever case it stands.
    fn builds_kind(&self, kind: u8) -> bool
        ensures { (c : Case) (n : ℕ) → kind_at c n ≡ Some kind
            → result ≡ builds_at (meaning self.now) c n };

    /// The takings of a term whose row says this, whichever row of the case that is.
    fn takings_of(&self, case: &Case, row: Row) -> Takings
        ensures { (n : ℕ) → row_at case.now n ≡ Some row
            → listed result ≡ taking_rows (meaning self.now) case.now n };

    // The laws, as for every theory.
    ghost lawful: { (theory : Self) → Lawful (meaning theory) };
}

#[tactic(auto, using(crate::proofs::AtRows::no_rows))]
impl<T: ByRow> Theory for T {
    ghost meaning = { T.ByRow.meaning };

    ghost lawful = { T.ByRow.lawful };

    fn owns(&self, kind: u8) -> bool {
        self.owns_kind(kind)
    }

    fn can_build(&self, case: &Case, row: u16) -> bool {
        case.kind(row).is_some_and(|kind| self.builds_kind(kind))
    }

    fn takings(&self, case: &Case, row: u16) -> usize {
        case.row(row)
            .map_or(0, |held| self.takings_of(case, held).count())
    }

    fn taking(&self, case: &Case, row: u16, number: usize) -> Option<(u16, u16)> {
        let held = case.row(row)?;
        self.takings_of(case, held).get(number)
    }
}
