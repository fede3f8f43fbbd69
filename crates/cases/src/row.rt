//! One row of a case.

/// A term, said by the rows of its parts, and whether it is given.
///
/// Left and right are the numbers of rows. An atom's left is its label, and a part that is absent is 0.
// Plain numbers, and 0 for an absent part, as the rules write a row down.
// `kind` is no enum: 9 to 15 have no names, and a narrower type would ask more of whoever makes a row.
#[derive(Clone, Copy, Debug, PartialEq, Eq, Hash)]
pub struct Row {
    pub kind: u8,
    pub left: u16,
    pub right: u16,
    pub given: bool,
}

impl Row {
    /// A row that is not in use.
    // A constant, and no `Default`: the table's array literal is made of it.
    pub const BLANK: Row = Row {
        kind: 0,
        left: 0,
        right: 0,
        given: false,
    };
}
