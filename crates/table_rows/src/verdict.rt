//! What is to be said of a row before it comes into a table.

/// The first of these that holds, in this order: `Null`, `Dup`, `Full`.
#[derive(Clone, Copy, Debug, PartialEq, Eq)]
pub enum Verdict {
    Fine,
    /// Another row has the same key in this index, which allows no two such rows.
    Dup(u32),
    /// NULL in this column, which forbids it.
    Null(u32),
    /// The rows would grow beyond the limit.
    Full,
}
