//! Counts of faults: what is outside the program fails, and a count tells it.
//!
//! A source, a sink or a disk keeps a count of its failed calls. The count never falls, a call
//! answers a failure only where the count rose in it, and so a contract above can say of each fault
//! that it hands on that it came from there. A count has 64 bits and stands still at its end, where
//! one more fault can't be told from none.
#![tactic(auto)]

mod counts;

pub use counts::raised;
