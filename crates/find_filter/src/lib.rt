//! What a request's filters decide of a row: it is kept, passed over, or the request ends before
//! it.
//!
//! The parts of a request, which `request_types` has, are handed on. Reading lines is the work of
//! `open_index`, selecting rows that of `find_scan`.
#![tactic(auto)]

mod filters;
mod laws;

pub use filters::{Step, passes};
pub use laws::steps_of_examples;
pub use request_types::{FilterOp, FilterSpec, FindOp, FindSpec, InSpec, ModKind, ModSpec};
