//! A record of a journal.
use row_types::ByteText;

/// A whole record: the place of its gate, from 0, and its payload.
#[derive(Debug, Drop)]
pub struct Record {
    pub place: u64,
    pub payload: ByteText,
}
