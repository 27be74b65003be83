//! The events of a script, as its lines say them.
//!
//! | Line, a space for each HT | What it says |
//! |---|---|
//! | `table <db> <name> ..` | a table; the rules of its tokens are those of `hs_schema` |
//! | `limit bytes <n>` | the sum of the sizes of all rows is at most n, of 1 to 268,435,456 |
//! | `secret <port> <key>` | a connection of the port has to give the key first |
//! | `open <conn> <port>`, `bytes <conn> <piece>`, `end <conn>` | the peer of a connection opens it, sends bytes, and ends |
//! | `room <conn> <n>`, `fault <conn>` | the connection takes n more bytes, or fails at the next call |
//! | `turn <port> <conn> ..` | one turn of these connections, one at least and none twice |
//! | `show <db> <table>` | the table's rows are to be printed |
//!
//! `event_of` reads one line without its LF, and answers None where it is no event. Which event may come when is left to
//! `hs_replay`: none of the state between events is known here.
#![tactic(auto)]

mod connection_events;
mod event_lines;
mod events;
mod head_events;
mod laws;
mod numbers;
mod ports;
#[cfg(test)]
mod tests;
mod turn_events;

pub use event_lines::event_of;
pub use events::Event;
pub use laws::{example_events, example_refusals, lines_say_the_events};
pub use ports::port_of;
