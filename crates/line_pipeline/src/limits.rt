//! How much is held at a time.

/// The most connections.
pub const MAX_CONNS: usize = 256;

/// The most lines of a connection in a batch.
pub const MAX_LINES: usize = 256;

/// Where more output than this waits, a connection's lines wait too.
pub const MAX_UNSENT: usize = 4_194_304;
