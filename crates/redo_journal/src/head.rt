//! The head of a segment.
use row_types::ByteText;

// The number of the records before a segment, its area, and the place of the gate behind that.
#[derive(Debug, Drop)]
pub struct Head {
    pub first: u64,
    pub area: ByteText,
    pub end: usize,
}
