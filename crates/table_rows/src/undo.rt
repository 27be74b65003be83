//! A change, as it is taken back.
use crate::slot_ref::SlotRef;
use row_types::Row;

/// The table that was changed, the slot, the row from before the change, and the table's counter
/// from before, which is 0 where no column is counted. A deletion leaves the counter.
#[derive(Drop)]
pub enum Undo {
    Put(u32, SlotRef, u64),
    Replaced(u32, SlotRef, Row, u64),
    Deleted(u32, SlotRef, Row),
    Count(u32, u64),
}
