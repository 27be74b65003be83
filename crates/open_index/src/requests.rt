//! What becomes of a line.
use request_types::Request;
use row_types::ByteText;

/// What becomes of a line.
#[derive(Debug, Drop)]
pub enum Resolved {
    /// It is refused, and this is the number of its refusal.
    Reply(u32),
    /// The id stands for the index from now on.
    Opened,
    /// The connection has told the secret.
    Authed,
    Ask(Request),
}

/// The port's secret, if it has one, and whether the connection has told it.
#[derive(Debug, Drop)]
pub struct Auth {
    pub secret: Option<ByteText>,
    pub passed: bool,
}
