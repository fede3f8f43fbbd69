//! The kinds that the three theories own.

/// What a number says as the kind of a term: a kind that one of the three theories owns, or another.
#[derive(Clone, Copy, Debug, PartialEq, Eq, Hash)]
pub(crate) enum Kind {
    Pair,
    Hash,
    Cipher,
    PublicKey,
    Sealed,
    Signature,
    CheckValue,
    Reply,
    /// An atom's 0, a free kind from 9 to 15, or no kind at all.
    // A case of its own, and no `TryFrom`: each `match` on a kind has an arm for the rest anyway.
    Other,
}

impl From<u8> for Kind {
    ghost use Rattle.theories.specs.Kinds.{Reads};

    ghost from_gives = { Reads };

    // Always inlined, so that a match on the kind compiles to a test of the number, and to no look into a table.
    #[inline(always)]
    fn from(number: u8) -> Kind {
        match number {
            1 => Kind::Pair,
            2 => Kind::Hash,
            3 => Kind::Cipher,
            4 => Kind::PublicKey,
            5 => Kind::Sealed,
            6 => Kind::Signature,
            7 => Kind::CheckValue,
            8 => Kind::Reply,
            _ => Kind::Other,
        }
    }
}
