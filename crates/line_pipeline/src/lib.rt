//! Connections: from the bytes of each to the lines of one batch, and from a batch's replies to the bytes for each.
//!
//!     peer's bytes → feed → held bytes → gather → batch → (run it) → settle → output → unsent, sent → bytes for the peer
//!
//! A connection is live, or closed for a reason and then nothing more. `gather` takes the whole lines of the connections
//! that it is given, at most 256 of each, and reserves the place of their replies; so `settle`, which hands the replies
//! out or closes the connections of a batch that failed, takes no memory. Neither does anything else but `add`. A
//! connection's id has a number, which another may have after it, and a generation, which none has twice.
//!
//! What a line means is left to `open_index`, and running a batch and moving bytes to other crates.
#![tactic(auto)]

mod changes;
mod conns;
mod gathering;
mod limits;
mod lives;
mod outcomes;
mod outputs;
mod reading;
mod reasons;
mod secrets;
mod settling;
mod slots;
mod tables;
mod taking;
#[cfg(test)]
mod tests;

pub use limits::{MAX_CONNS, MAX_LINES, MAX_UNSENT};
pub use outcomes::Outcome;
pub use reasons::{AddFault, ConnState, Reason};
pub use request_types::{Batch, ConnId, Item, ItemKind, Part, Replies};
pub use secrets::Secrets;
pub use tables::{ConnTable, conns_new};
