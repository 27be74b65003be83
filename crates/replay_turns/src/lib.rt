//! Connections over links in memory on what runs their batches, and one turn of some of them.
//!
//!     what peers and links will do → one turn → `sent` and `closed` lines
//!
//! `Session` holds all of it: connections are opened under numbers, `peer_bytes`, `peer_end`,
//! `room` and `fail_next` say what their peers and links will do, and `turn` carries out a turn and
//! prints what each listed connection was sent and which closed. A batch that fails closes those
//! that asked for something, and the session goes on; `turn` answers how it ended. `show` prints the
//! rows of a table, if one has the names. Contracts see a list of connections and the rows of tables.
//! Want of memory for anything but a batch is answered at once, and what the connections are then
//! isn't said. Reading a script is left to `replay_script`, receiving and sending to `batch_worker`,
//! and what a request means to `batch_answers`.
#![tactic(auto)]

mod connections;
mod entries;
mod laws;
mod lines;
mod sayings;
mod sessions;
mod showing;
mod telling;
#[cfg(test)]
mod tests;

pub use laws::each_line_is_answered_once;
pub use sessions::Session;
