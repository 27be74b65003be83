//! What a call makes of one connection.
use crate::reasons::Reason;
use row_types::ByteText;

/// A change of one connection that takes no memory.
#[derive(Drop)]
pub enum Change<'a> {
    /// These bytes were received.
    Feed(&'a [u8]),
    /// The peer has ended, and all its bytes were received.
    End,
    /// So many bytes were sent.
    Sent(usize),
    Close(Reason),
    /// It is closed where it has an end of its own.
    Finish,
    /// It is closed where it asks for something, since memory was refused.
    Refuse,
    /// The text joins its output.
    Answer(ByteText),
    /// The place for a text is given up.
    UsePlace,
}
