//! Areas: all tables of a schema as bytes, as a journal keeps them in place of the records that led
//! to them.
//!
//!     number of the records (8 bytes) | length (4 bytes) | area | 0
//!
//! An area is a payload of `change_set` that makes empty tables into these: it puts each row, and
//! has a count for each counter that isn't 1. `push_area` writes one with what stands around it,
//! and `read_area` makes the tables, or says where the bytes are no area. Where areas are kept is
//! the work of `redo_journal`.
#![tactic(auto)]

mod laws;
mod reading;
#[cfg(test)]
mod tests;
mod writing;

pub use laws::an_area_makes_one_database;
pub use reading::read_area;
pub use writing::push_area;
