//! Where a walk begins.

/// Where a walk begins, at a key of some of an index's first cells, and which way it goes.
#[derive(Clone, Copy, Debug, PartialEq, Eq)]
pub enum Bound {
    /// Up from the first row that begins with the key or stands behind it.
    From,
    /// Up from the first row behind all that begin with the key.
    Behind,
    /// Down from the last row that begins with the key or stands before it.
    To,
    /// Down from the last row before all that begin with the key.
    Before,
}
