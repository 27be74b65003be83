//! Which rows meet a condition, looked up in an index where one serves.
//!
//!     condition ─ tests of columns ─ the index that they serve furthest ─ range ─ rows that meet it
//!
//! | Call | What it is for |
//! |---|---|
//! | `range_of` | the range of an index in which all rows lie that meet a condition, or the whole table |
//! | `scan` | the rows that meet a condition, by primary key, looked for in such a range |
//! | `look_up` | the same with the rows beside their slots |
//! | `Looker` | the tables, and a count of the steps that were taken in them |
//! | `sort_rows` | rows by some columns, and where they are the same by primary key |
//!
//! An index is served by tests of its first parts by `=`, and by one that bounds the part behind
//! them. A condition that calculates with a column gets no range, since it may overflow on a row
//! that isn't in it. What an expression is worth is the work of `sql_value`, and running statements
//! that of `sql_exec`.
#![tactic(auto)]

mod column_tests;
mod comparing;
mod contents;
mod edges;
mod laws;
mod looker;
mod picking;
mod plans;
mod ranges;
mod scanning;
mod serving;
mod sorting;
#[cfg(test)]
mod tests;

pub use laws::plans_of_examples;
pub use looker::Looker;
pub use picking::Picked;
pub use plans::{Plan, range_of};
pub use scanning::{Found, look_up, scan};
pub use serving::primary_parts;
pub use sorting::sort_rows;
