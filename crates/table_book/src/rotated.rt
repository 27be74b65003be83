//! What came of a rotation.

/// What came of a rotation. The rows of a book are the same after each of them.
#[derive(Clone, Copy, Debug, PartialEq, Eq)]
pub enum Rotated {
    /// The journal's live segment has no record but its area.
    Done,
    /// The disk failed.
    DiskFault,
    /// Memory ran out before the disk was called.
    NoMemory,
}
