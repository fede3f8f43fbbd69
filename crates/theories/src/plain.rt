//! The plain theory: pairs, hashes, ciphers and check values.
ghost use Rattle.knowledge.specs.Kinds.{plain};
ghost use Rattle.knowledge.proofs.Laws.{plain_lawful};

use super::by_row::ByRow;
use super::kind::Kind;
use super::takings::Takings;
use cases::{Case, Row};

/// A pair gives its parts, and a cipher its body to whoever knows the key.
#[derive(Clone, Copy, Debug, PartialEq, Eq, Hash)]
pub struct Plain;

impl ByRow for Plain {
    ghost meaning = { λ _. plain };

    ghost lawful = { λ _. plain_lawful };

    fn owns_kind(&self, kind: u8) -> bool {
        matches!(
            Kind::from(kind),
            Kind::Pair | Kind::Hash | Kind::Cipher | Kind::CheckValue
        )
    }

    #[tactic(auto, using(crate::proofs::Steps::plain_builds))]
    fn builds_kind(&self, kind: u8) -> bool {
        self.owns_kind(kind)
    }

    fn takings_of(&self, _case: &Case, row: Row) -> Takings {
        match Kind::from(row.kind) {
            Kind::Pair => Takings::Two((0, row.left), (0, row.right)),
            Kind::Cipher => Takings::One((row.right, row.left)),
            _ => Takings::Zero,
        }
    }
}
