//! The name of a connection.

/// A connection by its number, which another may have after it, and its generation, which no other
/// has.
#[derive(Clone, Copy, Debug, PartialEq, Eq)]
pub struct ConnId {
    pub number: u32,
    /// How many connections were added before it.
    pub generation: u64,
}
