//! A case and what it always keeps.
mod reads;

ghost use Rattle.std.specs.Prelude.{◌≡◌, ◌≤◌, true, length, take, drop};
ghost use Rattle.cases.specs.Rows.{standing, unused};

use super::row::Row;
use super::table::Table;

/// The number of rows that a case has room for.
pub const CAPACITY: usize = 1024;

/// A table of rows, of which the first `used` are in use.
// Every row stands blank from the start, and opening asks for no memory: a `Vec` could fail, an `ArrayVec` holds no blank rows.
#[derive(Debug, Drop, PartialEq, Eq)]
pub struct Case {
    table: Table<Row, CAPACITY>,
    used: u16,
    ghost full: { length table.rows ≡ 1024 },
    ghost few: { used ≤ 1024 },
    ghost stands: { standing (take used table.rows) ≡ true },
    ghost rest: { unused (drop used table.rows) ≡ true },
}
