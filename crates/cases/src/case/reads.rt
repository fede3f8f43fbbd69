//! Opening a case and reading it.
ghost use Rattle.std.specs.Prelude.{◌≡◌, [], length, replicate};
ghost use Rattle.cases.specs.Rows.{blank};
ghost use Rattle.cases.specs.Case.{rows_of, row_at, kind_at};

use super::super::row::Row;
use super::super::table::Table;
use super::{CAPACITY, Case};

impl Case {
    /// A new case: all its rows are blank.
    pub fn open() -> Self
        ensures used { rows_of result ≡ [] }
        ensures blank { result.table.rows ≡ replicate 1024 blank }
    {
        Case {
            table: Table {
                rows: [Row::BLANK; CAPACITY],
            },
            used: 0,
        }
    }

    /// The number of rows in use.
    pub fn used(&self) -> u16
        ensures { result ≡ length (rows_of self.now) }
    {
        self.used
    }

    /// The rows in use, from row 1 on.
    pub fn rows(&self) -> &[Row]
        ensures { result.now ≡ rows_of self.now }
    {
        &self.table.rows[..usize::from(self.used)]
    }

    /// The row with this number, counted from 1; nothing where that row is not in use.
    pub fn row(&self, number: u16) -> Option<Row>
        ensures { result ≡ row_at self.now number }
    {
        let place = number.checked_sub(1)?;
        self.rows().get(usize::from(place)).copied()
    }

    /// The kind of the term in the row with this number; nothing where that row is not in use.
    // A number, as in `Row`.
    pub fn kind(&self, number: u16) -> Option<u8>
        ensures { result ≡ kind_at self.now number }
    {
        self.row(number).map(|row| row.kind)
    }
}
