//! Where things stand in a case file: its letters, the widths of its fields, and the most bytes it may have.
ghost use Rattle.std.specs.Prelude.{◌≡◌, MatchResult, ◌≢◌};
ghost use Rattle.casefile.specs.declared.fault.LineFault.TheVariants.{NoLetter};
ghost use Rattle.casefile.specs.declared.layout.Letter.{Letter};
ghost use Rattle.casefile.specs.Layout.{byte_of};

use super::fault::LineFault;

/// The most bytes that a text may have.
pub const LIMIT: usize = 65_536;

/// The byte before each field.
pub const SPACE: u8 = b' ';

/// The byte that ends a line.
pub const NEWLINE: u8 = b'\n';

/// Widths of fields, in columns.
pub const ROW_WIDTH: usize = 4;

pub const KIND_WIDTH: usize = 2;

pub const PART_WIDTH: usize = 4;

/// Columns of fields; each stands behind one space.
pub const ROW_COLUMN: usize = 3;

pub const KIND_COLUMN: usize = 8;

pub const LEFT_COLUMN: usize = 11;

pub const RIGHT_COLUMN: usize = 16;

/// Lengths of a term's line, and of a line that has a row only.
pub const TERM_LENGTH: usize = 19;

pub const MARK_LENGTH: usize = 6;

/// The printed fault line: its letter, and its length with the newline.
pub const FAULT: u8 = b'F';

pub const FAULT_LENGTH: usize = 16;

/// The printed summary line: its letter, and its length with the newline.
pub const COUNTS: u8 = b'C';

pub const COUNTS_LENGTH: usize = 26;

/// The width of a count of lines in either.
pub const COUNT_WIDTH: usize = 5;

/// Widths of what else a fault line says: the column, the layer and the number of the question.
pub const COLUMN_WIDTH: usize = 2;

pub const LAYER_WIDTH: usize = 1;

pub const QUESTION_WIDTH: usize = 2;

// The letters that a line begins with.
#[derive(Clone, Copy, Debug, PartialEq, Eq)]
pub(crate) enum Letter {
    Term,
    Given,
    Ask,
    Show,
}

impl TryFrom<u8> for Letter {
    type Error = LineFault;

    ghost try_from_gives = { λ byte r. MatchResult r
        (λ l. byte ≡ byte_of l)
        (λ e. (e ≡ NoLetter) × ((l : Letter) → byte ≢ byte_of l)) };

    fn try_from(byte: u8) -> Result<Letter, LineFault> {
        match byte {
            b'T' => Ok(Letter::Term),
            b'G' => Ok(Letter::Given),
            b'A' => Ok(Letter::Ask),
            b'S' => Ok(Letter::Show),
            _ => Err(LineFault::NoLetter),
        }
    }
}

impl From<Letter> for u8 {
    ghost from_gives = { λ l b. b ≡ byte_of l };

    fn from(letter: Letter) -> u8 {
        match letter {
            Letter::Term => b'T',
            Letter::Given => b'G',
            Letter::Ask => b'A',
            Letter::Show => b'S',
        }
    }
}
