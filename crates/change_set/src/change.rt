//! Changes of tables, and sets of them.
use row_types::{List, Row, RowKey};

/// A change of a table, which is named by its number.
#[derive(Debug, Drop)]
pub enum Change {
    /// The row stands in the table, in place of the one with its primary key if there was one.
    Put(u32, Row),
    /// No row has this primary key any more.
    Delete(u32, RowKey),
    /// The counter has gone up to this number.
    Count(u32, u64),
}

/// Changes by table, in a table its rows by primary key, and then its counter.
#[derive(Debug, Drop)]
pub struct ChangeSet {
    pub changes: List<Change>,
}
