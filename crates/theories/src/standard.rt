//! The theory of the table of kinds: replies over public keys over plain.
//!
//! A trait's contract holds a theory to the meaning that it names. The contracts here name the meaning, so that they hold the
//! three theories to theirs.
ghost use Rattle.std.specs.Prelude.{◌≡◌, length};
ghost use Rattle.knowledge.specs.Kinds.{standard};
ghost use Rattle.cases.specs.Said.{numbered};
ghost use Rattle.theories.specs.Answers.{builds_at, taking_rows};

use super::pile::Pile;
use super::plain::Plain;
use super::public_key::PublicKey;
use super::reply::Reply;
use super::theory::Theory;
use cases::Case;

/// Replies over public keys over plain.
pub type Standard = Pile<Reply, Pile<PublicKey, Plain>>;

/// The theory itself, to be handed to whatever takes one.
pub fn theory() -> Standard {
    Pile {
        upper: Reply,
        lower: Pile {
            upper: PublicKey,
            lower: Plain,
        },
    }
}

/// Whether one of the three owns a kind.
// Any number may be asked about, as in `Theory`.
pub fn owns(kind: u8) -> bool
    ensures { result ≡ standard.owns kind }
{
    theory().owns(kind)
}

/// Whether the term in a row can be built.
pub fn can_build(case: &Case, row: u16) -> bool
    ensures { result ≡ builds_at standard case.now row }
{
    theory().can_build(case, row)
}

/// How many takings the term in a row has.
pub fn takings(case: &Case, row: u16) -> usize
    ensures { result ≡ length (taking_rows standard case.now row) }
{
    theory().takings(case, row)
}

/// The taking with a number, counted from 1: the row of its side, or 0, and the row of its result.
pub fn taking(case: &Case, row: u16, number: usize) -> Option<(u16, u16)>
    ensures { result ≡ numbered (taking_rows standard case.now row) number }
{
    theory().taking(case, row, number)
}
