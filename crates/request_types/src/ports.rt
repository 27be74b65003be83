//! The ports of a server.

/// The port that a connection came to. What may be asked depends on it.
#[derive(Clone, Copy, Debug, PartialEq, Eq)]
pub enum Port {
    /// Finds alone.
    Reading,
    /// Finds, changes and inserts.
    Writing,
    /// Statements of SQL.
    Sql,
}
