//! What holds of the answers of every theory. Each function does nothing; its contract is a theorem on the definitions in
//! `specs/`.
ghost use Rattle.theories.specs.Example.{Example};
ghost use Rattle.theories.specs.Theorems.{NothingBeyond, TakingsInRows};

/// The rows answered for a taking are those that hold its side and its result.
pub fn takings_in_rows()
    ensures { TakingsInRows }
{}

/// Of a row that the case does not have, nothing can be built and nothing is taken.
pub fn nothing_beyond()
    ensures { NothingBeyond }
{}

/// What replies over public keys over plain answer about each row of a small exchange.
pub fn example_answered()
    ensures { Example }
{}
