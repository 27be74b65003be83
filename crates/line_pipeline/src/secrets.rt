//! The secrets of the ports.
use row_types::ByteText;

/// What a connection has to tell before its lines are read, where its port has a secret.
#[derive(Debug, Drop)]
pub struct Secrets {
    pub reading: Option<ByteText>,
    pub writing: Option<ByteText>,
}
