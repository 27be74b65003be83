//! What changes tables, as a set and as bytes.
//!
//! | Change | Bytes |
//! |---|---|
//! | `Put`: a row that is new or another | 1, the table, the row's values |
//! | `Delete`: the primary key of a row that is gone | 2, the table, the key's values |
//! | `Count`: the counter of a counted column | 3, the table, the counter in 8 bytes |
//!
//! A table is its number in 2 bytes. A value is 0 for NULL, 1 and 8 bytes for an integer, or 2, a
//! length in 4 bytes and so many bytes for a text. A payload is the number of changes in 4 bytes,
//! and the changes: ascending by table, in a table its rows by primary key, one change a key, and
//! then its counter. Numbers have their highest byte first.
//!
//! `from_undo` makes the set of what a batch changed, out of the notes by which it could be taken
//! back, and `apply` puts a set on tables, or says that it doesn't apply. `push_bytes` writes a set,
//! and `read_changes` reads it again, or says where the first change stands that is none. An area is a payload that makes empty tables into others: it deletes nothing
//! and may have no change. `push_put` and `push_count` write one change of it, and
//! `read_area_changes` reads it. Where bytes are kept is left to the crates above.
#![tactic(auto)]

mod applying;
mod bytes;
mod change;
mod clearing;
mod counting;
mod damage;
mod fault;
mod filling;
mod form;
mod laws;
mod net;
mod order;
mod reading;
#[cfg(test)]
mod tests;
mod touched;
mod values;

pub use applying::apply;
pub use bytes::{push_bytes, push_count, push_put};
pub use change::{Change, ChangeSet};
pub use damage::Damage;
pub use laws::{
    net_changes_apply, net_changes_fit, net_changes_lead_on, no_net_change_where_nothing_changed,
    payloads_are_read_again, payloads_are_short, worked_payloads,
};
pub use net::from_undo;
pub use reading::{read_area_changes, read_changes};
