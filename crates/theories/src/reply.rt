//! The reply theory: units that answer what they are asked.
ghost use Rattle.knowledge.specs.Kinds.{replies};
ghost use Rattle.knowledge.proofs.Laws.{reply_lawful};

use super::by_row::ByRow;
use super::kind::Kind;
use super::takings::Takings;
use cases::{Case, Row};

/// A reply gives the answered term to whoever knows the asked one. It cannot be built.
#[derive(Clone, Copy, Debug, PartialEq, Eq, Hash)]
pub struct Reply;

impl ByRow for Reply {
    ghost meaning = { λ _. replies };

    ghost lawful = { λ _. reply_lawful };

    fn owns_kind(&self, kind: u8) -> bool {
        matches!(Kind::from(kind), Kind::Reply)
    }

    fn builds_kind(&self, _kind: u8) -> bool {
        false
    }

    fn takings_of(&self, _case: &Case, row: Row) -> Takings {
        match Kind::from(row.kind) {
            Kind::Reply => Takings::One((row.left, row.right)),
            _ => Takings::Zero,
        }
    }
}
