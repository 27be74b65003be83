//! What a batch is answered, and the rows that it leaves.
//!
//! | Item | Reply | Rows |
//! |---|---|---|
//! | a code | the code and its text; 0 has none | stay |
//! | a find | the selected rows, or `20 1 big` where they are more than 16,777,216 bytes | stay |
//! | a change | the selected rows from before it, or how many they are | all selected rows are changed, or none |
//! | an insert | `0 1`, and the number that it drew | one more |
//!
//! Items are carried out in order, each on the rows that the one before it left, whatever connection it is of. Items of one
//! connection that stand together are answered by one part. A refused item leaves the rows as they were, and those behind
//! it go on. Where memory is wanting anywhere, all that the batch did is taken back.
//!
//! Which rows a find selects is the work of `find_scan`, changing them that of `find_modify`, and putting a row that of
//! `row_insert`. Here their words, which speak of slots, come to what is said of rows alone.
#![tactic(auto)]

mod batches;
mod changes;
mod codes;
mod finds;
mod inserts;
mod items;
mod laws;
mod runs_batches;
mod tables_alone;

pub use batches::run_batch;
pub use laws::{items_are_answered_by_lines, worked_answers};
pub use runs_batches::RunsBatches;
pub use tables_alone::TablesAlone;
