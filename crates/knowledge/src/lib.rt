//! What an intruder can reach: terms, theories, rounds and runs, as mathematics.
//!
//! The definitions are in `specs/`, to be read from `Terms` to `Examples`. Each function here does nothing; its contract is a
//! theorem on them, for every theory that keeps the laws.
#![tactic(auto)]

ghost use Rattle.knowledge.specs.Examples.{Examples};
ghost use Rattle.knowledge.specs.Table.{Table};
ghost use Rattle.knowledge.specs.Theorems.{
  DifferentCounts,
  GoalsAreSettled,
  LawfulTheories,
  Locality,
  MoreGiven,
  PilesHold,
  RoundsAreFew,
  RoundsStop,
  RunsAreRounds,
};

/// Some intruder run reaches a term exactly when some round holds it.
pub fn runs_are_rounds()
    ensures { RunsAreRounds }
{}

/// Terms outside a list that is closed under parts and has the given terms make no difference to the terms in it: over all
/// terms there are, each round holds the same terms of the list as within the list.
pub fn locality()
    ensures { Locality }
{}

/// Where a round adds no term of such a list, no later round adds one.
pub fn rounds_stop()
    ensures { RoundsStop }
{}

/// A term of such a list has its smallest round below the number of different terms in the list.
pub fn rounds_are_few()
    ensures few { RoundsAreFew }
    ensures counted { DifferentCounts }
{}

/// More given terms keep every round.
pub fn more_given()
    ensures { MoreGiven }
{}

/// The three theories keep the laws, and so does a pile of two theories that do.
pub fn theories_are_lawful()
    ensures { LawfulTheories }
{}

/// What a pile of two theories does with a term, and which kinds it owns.
pub fn piles_hold()
    ensures { PilesHold }
{}

/// What the three theories do with each kind of term, and which kinds each owns.
pub fn table_of_kinds()
    ensures { Table }
{}

/// Of each goal it can be worked out whether a run reaches it, and if so its smallest round.
pub fn goals_are_settled()
    ensures { GoalsAreSettled }
{}

/// What is to be said of ciphers, sealed terms, signatures and replies in small cases.
pub fn examples_hold()
    ensures { Examples }
{}
