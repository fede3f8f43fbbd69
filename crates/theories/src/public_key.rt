//! The public-key theory: public keys, sealed terms and signatures.
ghost use Rattle.knowledge.specs.Kinds.{public_keys};
ghost use Rattle.knowledge.proofs.Laws.{public_key_lawful};

use super::by_row::ByRow;
use super::kind::Kind;
use super::takings::Takings;
use cases::{Case, Row};

/// A body sealed under a public key goes to whoever knows that key's secret.
#[derive(Clone, Copy, Debug, PartialEq, Eq, Hash)]
pub struct PublicKey;

impl ByRow for PublicKey {
    ghost meaning = { λ _. public_keys };

    ghost lawful = { λ _. public_key_lawful };

    fn owns_kind(&self, kind: u8) -> bool {
        matches!(
            Kind::from(kind),
            Kind::PublicKey | Kind::Sealed | Kind::Signature
        )
    }

    #[tactic(auto, using(crate::proofs::Steps::public_key_builds))]
    fn builds_kind(&self, kind: u8) -> bool {
        self.owns_kind(kind)
    }

    fn takings_of(&self, case: &Case, row: Row) -> Takings {
        let (Kind::Sealed, Some(key)) = (Kind::from(row.kind), case.row(row.right)) else {
            return Takings::Zero;
        };
        match Kind::from(key.kind) {
            Kind::PublicKey => Takings::One((key.left, row.left)),
            _ => Takings::Zero,
        }
    }
}
