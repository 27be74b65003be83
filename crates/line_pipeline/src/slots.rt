//! The place of a connection.
use crate::conns::Conn;

/// A connection under its number, with its generation.
#[derive(Drop)]
pub struct Slot {
    pub generation: u64,
    pub conn: Conn,
}
