//! Which rows a find selects, and the reply that shows them.
//!
//!     key ─ walk of the index ─ rows that stand to the key ─ filters ─ offset, limit ─ slots
//!     slots ─ columns ─ reply
//!
//! `select` walks the index from the key on, or from it down, once for each value of a list, and
//! ends as soon as nothing more is selected. `render` appends the reply that shows rows, unless it
//! would be too big. A reply of other cells is written by `push_cells` and `end_reply`, and need go
//! no further than `has_room` says. Reading a find is the work of `open_index`, changing what it
//! selects that of `find_modify`.
#![tactic(auto)]

mod cells;
mod ends;
mod laws;
mod listed;
mod replies;
mod selecting;
mod selection;
#[cfg(test)]
mod tests;
mod walking;

pub use cells::{push_cell, push_cells};
pub use ends::{end_reply, has_room};
pub use laws::finds_of_examples;
pub use replies::{Rendered, render};
pub use selecting::select;
