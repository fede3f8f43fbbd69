//! Piles of theories.
ghost use Rattle.std.specs.Prelude.{◌≡◌};
ghost use Rattle.knowledge.specs.Meanings.{pile};
ghost use Rattle.theories.specs.Answers.{owns_at};
ghost use Rattle.knowledge.proofs.Laws.{pile_lawful};

use super::theory::Theory;
use cases::Case;

/// An upper theory over a lower one: kinds that the upper owns get its steps, all others the lower's.
#[derive(Clone, Debug, Drop, PartialEq, Eq, Hash)]
pub struct Pile<U, L> {
    pub upper: U,
    pub lower: L,
}

impl<U: Theory, L: Theory> Pile<U, L> {
    // Whether the term in a row is of a kind that the upper theory owns.
    fn is_uppers(&self, case: &Case, row: u16) -> bool
        ensures { result ≡ owns_at (U.Theory.meaning self.now.upper) case.now row }
    {
        case.kind(row).is_some_and(|kind| self.upper.owns(kind))
    }
}

// Two arms for each question: tried, and a `&dyn Theory` of one of the two is refused at a type parameter.
impl<U: Theory, L: Theory> Theory for Pile<U, L> {
    ghost meaning = { λ p. pile (U.Theory.meaning p.upper) (L.Theory.meaning p.lower) };

    ghost lawful = { λ p. pile_lawful _ _ (U.Theory.lawful p.upper) (L.Theory.lawful p.lower) };

    fn owns(&self, kind: u8) -> bool {
        self.upper.owns(kind) || self.lower.owns(kind)
    }

    fn can_build(&self, case: &Case, row: u16) -> bool {
        if self.is_uppers(case, row) {
            self.upper.can_build(case, row)
        } else {
            self.lower.can_build(case, row)
        }
    }

    fn takings(&self, case: &Case, row: u16) -> usize {
        if self.is_uppers(case, row) {
            self.upper.takings(case, row)
        } else {
            self.lower.takings(case, row)
        }
    }

    fn taking(&self, case: &Case, row: u16, number: usize) -> Option<(u16, u16)> {
        if self.is_uppers(case, row) {
            self.upper.taking(case, row, number)
        } else {
            self.lower.taking(case, row, number)
        }
    }
}
