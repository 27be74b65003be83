//! The rows of all tables of a schema: walked by any index, checked, changed in place, and changes
//! taken back.
//!
//! | Call | What it is for |
//! |---|---|
//! | `new`, `reserve` | empty tables; slots for more rows. Only these take memory |
//! | `check_put` | what bars a row: a NULL, a clash in an index, want of space, or nothing |
//! | `put`, `replace`, `delete` | a change, noted in an `UndoList` |
//! | `undo_to` | takes back all changes since a mark, of the counters too |
//! | `counter`, `next_number`, `raise_counter` | the counter of a counted column |
//! | `rows`, `walk` | all rows; those of an index from a key on, up or down. No search a row |
//! | `find_key`, `get`, `row` | the slot of a primary key; the row in a slot |
//! | `seek`, `step` | a walk by slots, with a search a row, for walks between changes |
//!
//! A table with a counted column has a counter from 1 to 2^63, which is above every value of that
//! column: `put` and `replace` raise it, and nothing lowers it but `undo_to`.
//!
//! A row is named by its slot, from the change that puts it there to the one that deletes it.
//! Contracts see a table as the list of its rows, each beside its slot, ascending by primary key.
//! Selecting rows is the work of `find_scan`, and what a batch of changes is on disk that of
//! `change_set`.
//!
//! Inside, a `RowStore` keeps the rows of one table, and a `RowOrder` an index of it:
//!
//!     slot   0       1       2       3        kept     the rows beside their slots
//!     row    (7, b)  (2, c)  vacant  (5, a)   walk     the same in the order of some cells
//!     by the first cell:   1, 3, 0            next(1) is 3, prev(1) is None
//!     by the second cell:  3, 0, 1
//!
//! An index goes by its own cells and then by those of the primary key. It holds a mark of 12 bytes
//! a row: the slot, and a digest of the row's first cell in that order, so that a search looks at a
//! row only where digests are equal. Where a slot is vacant a put can't be refused, so that
//! whatever was done can be undone.
#![tactic(auto)]

mod bound;
mod cells;
mod checks;
mod counters;
mod cuts;
mod digest;
mod dups;
mod edge;
mod laws;
mod mark;
mod one_table;
mod orders;
mod room;
mod rounds;
mod slot_ref;
mod store;
mod store_walk;
mod tables;
#[cfg(test)]
mod tests;
mod undo;
mod undo_list;
mod vacant;
mod verdict;
mod walk;

pub use bound::Bound;
pub use cells::has_key;
pub use edge::Edge;
pub use laws::{worked_changes, worked_counters, worked_keys_and_slots, worked_verdicts};
pub use slot_ref::SlotRef;
pub use tables::Tables;
pub use undo::Undo;
pub use undo_list::UndoList;
pub use verdict::Verdict;
pub use walk::Walk;
