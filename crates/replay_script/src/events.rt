//! The events that a script may have.
use hs_token::Token;
use request_types::Port;
use row_types::{ByteText, List};

/// What a line of a script says. A connection goes by its number.
#[derive(Debug, Drop)]
pub enum Event {
    /// These are the tokens of a table line, of which the first is `table`.
    Table(List<Token>),
    /// All rows together have at most this size.
    LimitBytes(u32),
    /// This is the key of a port.
    Secret(Port, ByteText),
    /// The connection is open, on this port.
    Open(u32, Port),
    /// The peer of the connection has sent these bytes.
    Bytes(u32, bytes::Bytes),
    /// The peer of the connection has ended.
    End(u32),
    /// From now on the connection takes so many bytes more.
    Room(u32, u32),
    /// The next call of the connection fails.
    Fault(u32),
    /// One turn of a port's connections, in this order.
    Turn(Port, List<u32>),
    /// The rows of a table are to be printed: its database, and its name.
    Show(ByteText, ByteText),
}
