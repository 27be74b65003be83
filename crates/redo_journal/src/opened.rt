//! What the opening of a journal hands out.
use crate::record::Record;
use row_types::ByteText;

/// The number of the records before the area, the area, which a journal without a root doesn't
/// have, and the records behind it.
#[derive(Debug, Drop)]
pub struct Opened {
    pub first: u64,
    pub area: Option<ByteText>,
    pub records: Vec<Record>,
}
