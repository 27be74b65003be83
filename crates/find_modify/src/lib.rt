//! Changing the rows that were selected: all of them, or none.
//!
//! | Kind | What becomes of a row |
//! |---|---|
//! | `Update` | the first of the columns take the values |
//! | `Add` | each value is added to its column's cell; a NULL cell stays NULL |
//! | `Subtract` | each value is taken off; a cell whose sign would turn stays, and so does NULL |
//! | `Remove` | the row is deleted |
//!
//! The rows are changed in the order of their slots' list, each as the tables are by then. The
//! first row that is refused ends the change with its code: 18 where a number would be outside 64
//! bits, and else one of those that `row_insert` has. The rows are then as they were before. Room
//! for the notes is taken before the first change, and no slot is added. Selecting rows is the work
//! of `find_scan`. `worked_cells` and `worked_changes` show what the contracts' words mean, by
//! examples that are proved.
#![tactic(auto)]

mod cells;
mod laws;
mod modifies;
mod one_row;
#[cfg(test)]
mod tests;

pub use laws::{worked_cells, worked_changes};
pub use modifies::{Modified, modify};
