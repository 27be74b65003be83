//! How much a connection may send before it is read.

/// The most bytes that a line may have, its LF left out.
pub const MAX_LINE_LEN: usize = 65_536;

/// The most bytes that are held.
pub const BUFFER_SIZE: usize = 131_072;
