//! A plain table of rows.

/// `N` rows, and nothing asked of them.
#[derive(Debug, Drop, PartialEq, Eq)]
pub(crate) struct Table<R, const N: usize> {
    pub(crate) rows: [R; N],
}
