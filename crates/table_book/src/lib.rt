//! Tables that are kept on a disk: a batch is carried out on them, and is on the disk before it is
//! answered.
//!
//! | Call | What it does |
//! |---|---|
//! | `open_on` | reads the tables that a disk shows, or makes a new journal |
//! | `run_batch` | carries a batch out, and writes its net changes as one record; or undoes all |
//! | `rotate` | puts all rows in place of the records that led to them |
//! | `tables`, `bytes_max` | the rows, and how many bytes they may fill |
//! | `place`, `since_area` | how many batches changed a table, in all and in the segment |
//! | `close` | hands the disk back |
//!
//! A book keeps its rows, the journal's state and the disk, and no history: `specs/Histories.antt`
//! has the words on histories of batches, which are legal, and which tables they lead to.
#![tactic(auto)]

mod book;
mod committing;
mod entry;
mod fault;
mod laws;
mod rotated;
#[cfg(test)]
mod rotation_tests;
mod running;
#[cfg(test)]
mod tests;

pub use book::Book;
pub use entry::Entry;
pub use laws::a_history_goes_on;
pub use rotated::Rotated;
