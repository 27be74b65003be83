//! Records in a file, each on the disk before it is acknowledged.
//!
//!     1 | mark | length, schema text | 1 | length, payload | .. | not 1 | anything
//!     segment: number of the records before it | length, area | 1 | length, payload | .. | not 1
//!
//! A record counts once its gate is 1, and a gate is written last, between two syncs. So a crash at
//! any moment of `append` leaves the records from before the call, with the new one or without.
//!
//! One record may be a root, which names the live segment by one of its two cells. `turn_over`
//! writes it, and `rotate` writes the other cell and then names that. A segment's area stands for
//! all records before it.
//!
//! Where the last write of a call fails, or the sync behind it, that one byte is in doubt, and the
//! next call puts it back first. `open_on` reads what a crash left, or names the damaged gate. What
//! a payload and an area mean is left to the crates above.
#![tactic(auto)]

mod doubt;
mod head;
mod image;
mod journal;
mod laws;
mod live;
mod make;
mod open;
mod opened;
mod record;
mod refusal;
mod root;
mod segment;
#[cfg(test)]
mod tests;
mod writes;

pub use journal::Journal;
pub use laws::{an_image_reads_one_way, what_follows_is_free, worked_examples};
pub use open::open_on;
pub use opened::Opened;
pub use record::Record;
pub use refusal::{DiskFault, Refusal};
