//! Lines and what they say.
ghost use Rattle.std.specs.Prelude.{◌≡◌, ℕ, ◌+◌, ◌<◌, ◌≤◌, min, [], ◌∷◌, length, IfOk, Result, MatchResult};
ghost use Rattle.casefile.specs.Fields.{justified};
ghost use Rattle.casefile.specs.Questions.{WellFormed, ReadsField, Fails, BeforeFields, Reads};
ghost use Rattle.casefile.specs.Layout.{byte_of, widths, SpaceAt};
ghost use Rattle.casefile.specs.Lines.{Cuts, Says, FirstUnread, placed, placed_at};

use super::digits::read_number;
use super::fault::{FieldFault, LineFault};
use super::layout::{
    KIND_COLUMN, KIND_WIDTH, LEFT_COLUMN, Letter, MARK_LENGTH, PART_WIDTH, RIGHT_COLUMN,
    ROW_COLUMN, ROW_WIDTH, SPACE, TERM_LENGTH,
};
use super::number::Number;

/// A part of a line that should hold a number, and the column where it begins.
// A narrower type for the column would ask more of callers, who may build a field.
#[derive(Clone, Copy, Debug, PartialEq, Eq, Hash)]
pub struct Field<'a> {
    pub text: &'a [u8],
    pub column: usize,
}

/// A line taken apart: its letter, and the fields behind it.
#[derive(Clone, Copy, Debug, PartialEq, Eq, Hash)]
pub enum Line<'a> {
    Term {
        row: Field<'a>,
        kind: Field<'a>,
        left: Field<'a>,
        right: Field<'a>,
    },
    Given {
        row: Field<'a>,
    },
    Ask {
        row: Field<'a>,
    },
    Show {
        row: Field<'a>,
    },
}

/// What a line says: its letter, and numbers that fit the fields.
// Two types with `Line` and no generic one: that would take the types of its fields, and say less of either.
#[derive(Clone, Copy, Debug, PartialEq, Eq, Hash)]
pub enum Record {
    Term {
        row: Number<ROW_WIDTH>,
        kind: Number<KIND_WIDTH>,
        left: Number<PART_WIDTH>,
        right: Number<PART_WIDTH>,
    },
    Given {
        row: Number<ROW_WIDTH>,
    },
    Ask {
        row: Number<ROW_WIDTH>,
    },
    Show {
        row: Number<ROW_WIDTH>,
    },
}

impl Field<'_> {
    /// The number that the field holds, in a width of `W` columns.
    // `formed` says of a number read what `answer` says of none, in the same word.
    pub fn number<const W: usize>(&self) -> Result<Number<W>, FieldFault>
        ensures digits { IfOk result (λ n. self.now.text.now ≡ justified W n.value) }
        ensures formed { IfOk result (λ n. WellFormed W self.now.text.now) }
        ensures answer { ReadsField W self.now.column self.now.text.now result }
    {
        let Some(number) = read_number(self.text) else {
            return Err(FieldFault {
                column: self.column,
            });
        };
        Ok(number)
    }
}

// The fault of a line that is `len` bytes long in place of `right`: its first missing or first surplus column.
fn wrong_length(len: usize, right: usize) -> LineFault
    requires { right ≤ 19 }
    ensures { result ≡ LineFault.WrongLength (min len right + 1) }
{
    LineFault::WrongLength(len.min(right) + 1)
}

// A field by its column.
fn field_at<'a>(column: usize, text: &'a [u8]) -> Field<'a>
    ensures column { result.column ≡ column }
    ensures text { result.text.now ≡ text.now }
{
    Field { text, column }
}

// The row of a line that has no other field, from what stands behind its letter.
fn cut_row<'a>(letter: Letter, rest: &'a [u8]) -> Result<Field<'a>, LineFault>
    requires { widths letter ≡ 4 ∷ [] }
    ensures { MatchResult result
        (λ f. (length rest.now ≡ 5) × SpaceAt (byte_of letter ∷ rest.now) 2
        × (placed 4 f ≡ placed_at (byte_of letter ∷ rest.now) (3, 4)))
        (λ e. Fails (byte_of letter ∷ rest.now) e × BeforeFields e) }
{
    if rest.len() != MARK_LENGTH - 1 {
        return Err(wrong_length(rest.len() + 1, MARK_LENGTH));
    }
    let [SPACE, row @ ..] = rest else {
        return Err(LineFault::NoSpace(ROW_COLUMN - 1));
    };
    Ok(field_at(ROW_COLUMN, row))
}

// The four fields of a term's line, from what stands behind its letter.
fn cut_term<'a>(rest: &'a [u8]) -> Result<Line<'a>, LineFault>
    ensures { Cuts (84 ∷ rest.now) result }
{
    if rest.len() != TERM_LENGTH - 1 {
        return Err(wrong_length(rest.len() + 1, TERM_LENGTH));
    }
    let [SPACE, rest @ ..] = rest else {
        return Err(LineFault::NoSpace(ROW_COLUMN - 1));
    };
    let (row, rest) = rest.split_at(ROW_WIDTH);
    let [SPACE, rest @ ..] = rest else {
        return Err(LineFault::NoSpace(KIND_COLUMN - 1));
    };
    let (kind, rest) = rest.split_at(KIND_WIDTH);
    let [SPACE, rest @ ..] = rest else {
        return Err(LineFault::NoSpace(LEFT_COLUMN - 1));
    };
    let (left, rest) = rest.split_at(PART_WIDTH);
    let [SPACE, right @ ..] = rest else {
        return Err(LineFault::NoSpace(RIGHT_COLUMN - 1));
    };
    Ok(Line::Term {
        row: field_at(ROW_COLUMN, row),
        kind: field_at(KIND_COLUMN, kind),
        left: field_at(LEFT_COLUMN, left),
        right: field_at(RIGHT_COLUMN, right),
    })
}

impl<'a> Line<'a> {
    /// Takes a line apart by its letter, length and spaces.
    pub fn cut(text: &'a [u8]) -> Result<Line<'a>, LineFault>
        ensures { Cuts text.now result }
    {
        let [head, rest @ ..] = text else {
            return Err(LineFault::NoLetter);
        };
        let letter = Letter::try_from(*head)?;
        match letter {
            Letter::Term => cut_term(rest),
            Letter::Given => Ok(Line::Given {
                row: cut_row(letter, rest)?,
            }),
            Letter::Ask => Ok(Line::Ask {
                row: cut_row(letter, rest)?,
            }),
            Letter::Show => Ok(Line::Show {
                row: cut_row(letter, rest)?,
            }),
        }
    }

    /// What the line says, or its first field that is no number of its width.
    #[tactic(auto, using(crate::proofs::Readings::first_unread))]
    pub fn record(&self) -> Result<Record, FieldFault>
        ensures { MatchResult result
            (λ said. Says self.now said)
            (λ e. FirstUnread self.now e.column) }
    {
        match self {
            Line::Term {
                row,
                kind,
                left,
                right,
            } => Ok(Record::Term {
                row: row.number()?,
                kind: kind.number()?,
                left: left.number()?,
                right: right.number()?,
            }),
            Line::Given { row } => Ok(Record::Given { row: row.number()? }),
            Line::Ask { row } => Ok(Record::Ask { row: row.number()? }),
            Line::Show { row } => Ok(Record::Show { row: row.number()? }),
        }
    }
}

/// What a line says, or the first question that it fails.
pub fn read_line(text: &[u8]) -> Result<Record, LineFault>
    ensures answer { Reads text.now result }
    ensures only { (q : Result Record LineFault) → Reads text.now q → result ≡ q }
{
    let line = Line::cut(text)?;
    Ok(line.record()?)
}
