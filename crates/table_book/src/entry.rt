//! An entry of a history.
use request_types::Batch;

/// A batch that changed a table.
#[derive(Debug, Drop)]
pub struct Entry {
    /// In whose turn it was carried out.
    pub seat: u32,
    /// How many entries of the same seat stand before it.
    pub number: u64,
    pub batch: Batch,
}
