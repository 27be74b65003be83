//! What a line means, before it takes effect.
use crate::handles::Handle;
use request_types::Request;

/// What a line is, by its first token.
#[derive(Clone, Copy, Debug, PartialEq, Eq)]
pub(crate) enum Command {
    /// It opens an index.
    Open,
    /// It tells the secret.
    Tell,
    /// It uses an open id.
    Use(u32),
}

/// What a line that isn't refused does.
#[derive(Debug, Drop)]
pub(crate) enum Meaning {
    Opens(u32, Handle),
    Tells,
    Asks(Request),
}
