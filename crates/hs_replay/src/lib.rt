//! Replays a script: events of connections whose requests are answered on tables in memory, and what each turn sent.
//!
//!     script ─ lines ─ events ─ tables, connections, turns ─ `sent`, `closed` and `row` lines
//!
//! | Line of a script | What it says |
//! |---|---|
//! | `table ..`, `limit bytes <n>`, `secret <port> <key>` | the head: the tables, and what holds of the ports and rows |
//! | `open <conn> <port>`, `bytes <conn> <piece>`, `end <conn>`, `room <conn> <n>`, `fault <conn>` | what befalls a connection |
//! | `turn <port> <conn> ..` | its connections receive, are answered and are sent their replies |
//! | `show <db> <table>` | the rows of a table are printed |
//!
//! `top` is the whole command over a source and two sinks; it reads the script in pieces, and what an event prints is
//! passed on before more is read. `path_of` and `asks_help` read the words of the command line. What a line says is the
//! work of `replay_script`, and a turn that of `replay_turns`. Nothing is kept: the journal that a command names isn't
//! opened yet.
#![tactic(auto)]

mod commands;
mod ends;
mod laws;
mod program;
mod replays;
mod running;
mod secrets;

pub use commands::{asks_help, path_of};
pub use ends::{BadLine, Ending, Flaw, Outcome, Step};
pub use laws::{a_row_is_inserted_and_found, example_flaws, the_empty_script_prints_nothing};
pub use program::top;
