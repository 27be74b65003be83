//! A changing call of a disk in memory, as it is remembered.
use crate::saved::Saved;

#[derive(Drop)]
pub enum Change {
    /// These bytes were written at this place.
    Wrote(u64, Saved),
    /// A write at this place, of so many bytes, failed.
    LostWrite(u64, u64),
    /// The disk was cut to this length.
    CutTo(u64),
    /// A cut to this length failed.
    LostCut(u64),
    Synced,
    /// A call failed that leaves nothing in doubt: a sync, or a write past the greatest length.
    Lost,
}
