//! How many parts a term of each kind has.
ghost use Rattle.std.specs.Prelude.{◌≡◌};
ghost use Rattle.cases.specs.Parts.{parts_of};

/// The number of parts by kind.
const PARTS: [u8; 16] = [0, 2, 1, 2, 1, 2, 2, 2, 2, 1, 1, 1, 2, 2, 2, 2];

/// How many parts a term of this kind has; nothing for a number that is no kind.
// It takes any number, as callers may hand it one that is no kind.
pub fn parts_of(kind: u8) -> Option<u8>
    ensures { result ≡ parts_of kind }
{
    PARTS.get(usize::from(kind)).copied()
}
