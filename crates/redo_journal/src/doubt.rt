//! The byte that is in doubt, where a repair is due.

/// A gate or a selector whose write failed, or the sync behind it: its place, and the byte that
/// stood there before.
#[derive(Clone, Copy, Debug, PartialEq, Eq)]
pub struct Doubt {
    pub place: u64,
    pub byte: u8,
}
