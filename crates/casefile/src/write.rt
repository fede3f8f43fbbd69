//! What is written: a record's line, and the lines that the program prints.
ghost use Rattle.std.specs.Prelude.{◌≡◌, ◌<◌, [], ◌∷◌, ◌++◌};
ghost use Rattle.casefile.specs.Fields.{field_of};
ghost use Rattle.casefile.specs.Layout.{byte_of};
ghost use Rattle.casefile.specs.Printed.{refusal_line, summary_line};
ghost use Rattle.casefile.specs.Put.{Wrote};
ghost use Rattle.casefile.specs.Records.{line_of, spaced};

use super::layout::{
    COLUMN_WIDTH, COUNT_WIDTH, COUNTS, COUNTS_LENGTH, FAULT, FAULT_LENGTH, LAYER_WIDTH, Letter,
    MARK_LENGTH, QUESTION_WIDTH, ROW_WIDTH, TERM_LENGTH,
};
use super::line::Record;
use super::number::Number;
use super::put::{TooShort, Written};
use super::refusal::Refusal;
use super::slot::Slot;
use super::summary::Summary;

impl Record {
    /// Writes the record's one line to the front of `out`, without a newline, and tells its length.
    // Into lent bytes, and no `Vec`: nothing here asks for memory.
    pub fn line_of(&self, out: &mut [u8]) -> Result<usize, TooShort>
        ensures { Wrote (line_of self.now) out.old out.new result }
    {
        match self {
            Record::Term {
                row,
                kind,
                left,
                right,
            } => {
                let slots = [
                    Slot::from(*row),
                    Slot::from(*kind),
                    Slot::from(*left),
                    Slot::from(*right),
                ];
                Written {
                    letter: u8::from(Letter::Term),
                    slots: &slots,
                    len: TERM_LENGTH,
                }
                .put(out)
            }
            Record::Given { row } => put_row(out, Letter::Given, *row),
            Record::Ask { row } => put_row(out, Letter::Ask, *row),
            Record::Show { row } => put_row(out, Letter::Show, *row),
        }
    }
}

// Writes the line of a letter and a row to the front of `out`.
fn put_row(out: &mut [u8], letter: Letter, row: Number<ROW_WIDTH>) -> Result<usize, TooShort>
    ensures { Wrote (byte_of letter ∷ spaced (field_of 4 row.value ∷ [])) out.old out.new result }
{
    Written {
        letter: u8::from(letter),
        slots: &[Slot::from(row)],
        len: MARK_LENGTH,
    }
    .put(out)
}

impl Refusal {
    /// The fault line, with its newline.
    // An array, and no `Display` or `Vec`: printed lines have a fixed length, are made without memory, and are only moved.
    pub fn printed(&self) -> [u8; FAULT_LENGTH]
        ensures { result ≡ refusal_line self.now ++ 10 ∷ [] }
    {
        let report = self.fault.report();
        let line = count_number(self.line);
        let column = Number::<COLUMN_WIDTH> {
            value: report.column as u32,
        };
        let layer = Number::<LAYER_WIDTH> {
            value: u32::from(report.layer),
        };
        let number = Number::<QUESTION_WIDTH> {
            value: u32::from(report.number),
        };
        let slots = [
            Slot::from(line),
            Slot::from(column),
            Slot::from(layer),
            Slot::from(number),
        ];
        Written {
            letter: FAULT,
            slots: &slots,
            len: FAULT_LENGTH - 1,
        }
        .with_newline()
    }
}

// A count of lines as a number that fits its columns.
fn count_number(lines: usize) -> Number<COUNT_WIDTH>
    requires { lines < 100000 }
    ensures { result.value ≡ lines }
{
    Number {
        value: lines as u32,
    }
}

impl Summary {
    /// The summary line, with its newline.
    // An array, and no `Display` or `Vec`: printed lines have a fixed length, are made without memory, and are only moved.
    pub fn printed(&self) -> [u8; COUNTS_LENGTH]
        ensures { result ≡ summary_line self.now ++ 10 ∷ [] }
    {
        let slots = [
            Slot::from(count_number(self.terms)),
            Slot::from(count_number(self.given)),
            Slot::from(count_number(self.asks)),
            Slot::from(count_number(self.shows)),
        ];
        Written {
            letter: COUNTS,
            slots: &slots,
            len: COUNTS_LENGTH - 1,
        }
        .with_newline()
    }
}
