//! How a row is named.

/// A slot of a table. It has a row from the change that puts it there to the one that deletes it.
#[derive(Clone, Copy, Debug, PartialEq, Eq)]
pub struct SlotRef(pub u32);
