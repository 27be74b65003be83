//! What came of a batch.
use request_types::Replies;

/// What came of a batch.
#[derive(Debug, Drop)]
pub enum Outcome {
    Done(Replies),
    /// Nothing was done: the disk failed.
    DiskFault,
    /// Nothing was done: memory ran out.
    NoMemory,
}
