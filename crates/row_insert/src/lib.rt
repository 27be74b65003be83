//! Inserting a row, and why a row is refused.
//!
//! | Code | When |
//! |---|---|
//! | 18 | a number is to be drawn, and the counter is 2^63 |
//! | 15 | a text is longer than its column |
//! | 17 | NULL in a column that forbids it |
//! | 16 | another row has the same key in the primary index, or in a unique one and no part is NULL |
//! | 19 | the rows would grow beyond the limit on all rows |
//!
//! The first of these that holds, in this order, is the answer, and the rows are then as before.
//! `refusal_of` gives it for a row that comes new or in place of another; `insert` puts a new row,
//! in which a column without a value has its preset, and the counted column the number that is drawn
//! where it would have NULL or 0. What is changed is noted, so that a caller can
//! take it back. Which insert a line asks for is the work of `open_index`, and keeping rows that of
//! `table_rows`.
#![tactic(auto)]

mod drawing;
mod inserts;
mod laws;
mod new_rows;
mod refusals;
#[cfg(test)]
mod tests;

pub use drawing::Arrival;
pub use inserts::{Inserted, insert};
pub use laws::{worked_draws, worked_refusals, worked_rows};
pub use refusals::refusal_of;
