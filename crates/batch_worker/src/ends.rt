//! How a turn ended.

/// How a turn ended.
#[derive(Clone, Copy, Debug, PartialEq, Eq)]
pub enum TurnEnd {
    /// Its batch was done, and each of its lines is answered.
    Done,
    /// The disk failed. Nothing of its batch was done, and who asked for something is closed.
    DiskFault,
    /// Memory ran out over its batch. The same.
    NoMemory,
    /// Memory ran out before there was a batch. Who holds a whole line is closed.
    NoBatch,
}
