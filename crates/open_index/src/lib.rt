//! Reading request lines: from the tokens of a line to a request, with every refusal in its order.
//!
//! | Line | What it asks for |
//! |---|---|
//! | `P <indexid> <db> <table> <index> <columns> [<fcolumns>]` | an open id for an index |
//! | `A <atyp> <akey>` | leave to send other lines |
//! | `<indexid> <op> <vlen> <v1>..<vn> [LIM] [IN] [FILTER ..] [MOD]` | a find, or a change of its rows |
//! | `<indexid> + <vlen> <v1>..<vn>` | an insert |
//!
//! `resolve` reads one line and answers the request, or the code of its first refusal from left to
//! right; a line that is refused leaves the connection's open ids and its auth as they were.
//! `resolve_shared` takes a line whose memory is shared. What a line means depends on the schema,
//! the port, its secret and the connection's earlier lines, and never on the tables' rows. Carrying
//! requests out is left to others.
#![tactic(auto)]

mod changes;
mod handles;
mod laws;
mod lines;
mod meanings;
mod opening;
mod operations;
mod parts;
mod requests;
#[cfg(test)]
mod tests;
mod tokens;
mod values;

pub use handles::{Handle, Handles, MOST_OPEN, OpenColumn, handles_new};
pub use laws::{example_refusals, example_requests, example_states, schemas_that_fit};
pub use lines::{resolve, resolve_shared};
pub use request_types::{Code, InsertSpec, Request};
pub use requests::{Auth, Resolved};
