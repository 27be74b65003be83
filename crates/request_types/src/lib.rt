//! The words that requests are made of, for all crates that read, run or answer them.
//!
//! | Type | What it is |
//! |---|---|
//! | `Code` | why a line is refused: a number and a text |
//! | `Fault` | a refusal, or want of memory, which is none |
//! | `FindSpec`, `InSpec`, `FilterSpec` | which rows a find selects, and which columns it answers |
//! | `ModSpec`, `InsertSpec` | what happens to the selected rows; a row to be inserted |
//! | `Request` | what is asked of the tables |
//! | `Port`, `ConnId` | a server's three ports; a connection |
//! | `Item`, `Batch`, `Part`, `Replies` | what the lines of a turn ask for, and what is replied to each |
//!
//! A `column` is a place in the table's list of columns and a `part` a place in the index's parts,
//! each from 0, whatever columns the request's line was opened on. `table_named`, `index_named` and
//! `column_named` look such places up. Reading lines is the work of `open_index`, selecting rows
//! that of `find_scan`, gathering a batch that of `line_pipeline`, and answering it that of
//! `batch_answers`.
#![tactic(auto)]

mod batches;
mod codes;
mod connections;
mod faults;
mod filters;
mod finds;
mod inserts;
mod laws;
mod mods;
mod names;
mod ports;
mod requests;
#[cfg(test)]
mod tests;
mod texts;

pub use batches::{Batch, Item, ItemKind, Part, Replies};
pub use codes::Code;
pub use connections::ConnId;
pub use faults::Fault;
pub use filters::{FilterOp, FilterSpec};
pub use finds::{FindOp, FindSpec, InSpec};
pub use inserts::InsertSpec;
pub use laws::codes_are_distinct;
pub use mods::{ModKind, ModSpec};
pub use names::{column_named, index_named, table_named};
pub use ports::Port;
pub use requests::Request;
pub use texts::text_of;
