//! What a crash is taken to leave of what waited for a sync.

/// Of what was written since the last sync, and of the cuts since.
#[derive(Clone, Copy, Debug, PartialEq, Eq)]
pub enum Pick {
    /// Nothing: the disk is as that sync left it.
    Kept,
    /// All that a read gives.
    Written,
    /// As long as a read says, with a byte 1 wherever a write went, one that failed too.
    Ones,
}
