//! What holds of every case. Each function does nothing; its contract is a theorem on the definitions in `specs/`.
ghost use Rattle.cases.specs.Example.{Example};
ghost use Rattle.cases.specs.Theorems.{
  CasesCover,
  CasesKeep,
  GivenRows,
  OneRow,
  RowsSayTerms,
  SoundRows,
  TermsDiffer,
  TermsProper,
};

/// Rows pass the test of a case exactly if each keeps what it should and no two say one term.
pub fn sound_rows()
    ensures { SoundRows }
{}

/// What every case keeps.
pub fn cases_keep()
    ensures { CasesKeep }
{}

/// Each row holds the term that it says by the terms of the rows that it names.
pub fn rows_say_terms()
    ensures { RowsSayTerms }
{}

/// The terms of a case are as the table of kinds has them.
pub fn terms_proper()
    ensures { TermsProper }
{}

/// The given terms are those of the rows that are marked.
pub fn given_rows()
    ensures { GivenRows }
{}

/// The terms of a case are closed under parts, and the given ones are among them.
pub fn cases_cover()
    ensures { CasesCover }
{}

/// The terms of a case differ from one another.
pub fn terms_differ()
    ensures { TermsDiffer }
{}

/// A term has one row at most.
pub fn one_row()
    ensures { OneRow }
{}

/// The rows of a small exchange pass the test, and say its terms.
pub fn example_stands()
    ensures { Example }
{}
