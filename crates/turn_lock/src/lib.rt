//! A lock under which several workers make one history.
//!
//! A value under the lock stands for a history: it is what the entries, in their order, made of the value as it was
//! opened. A worker has a pass. It draws a ticket, waits until that ticket is served, and has the value in hand; it hands
//! the value in, with the entry that it added to the history or with none, and the next ticket is served.
//!
//! | Word | What it counts, modulo 2^64 |
//! |---|---|
//! | TICKET | the tickets that were drawn: one more than the last |
//! | SERVING | the turns that have ended: the ticket whose turn it is |
//! | COUNT | the number of the value as it was opened, and the entries since then |
//!
//! Each pass has seen a beginning of the one history, and has its own entries there in order. The history itself is kept
//! nowhere: it stands in the rule of the table of words (`specs/Serial.antt`) and in what passes know, which take no
//! memory. Nothing is claimed of progress: not that a turn comes, nor how soon.
//!
//! A pass that finds a ticket out waits for a while without one, and then draws one; it leaves its processor to others, and
//! sleeps on SERVING where its ticket isn't served for long. A turn that ends while a ticket is out wakes those that sleep.
#![tactic(auto)]

mod handing;
mod keeps;
mod laws;
mod pass;
mod rule;
#[cfg(test)]
mod tests;
mod turns;
mod view;
mod waiting;

pub use keeps::Keeps;
pub use laws::one_history;
pub use pass::{Held, Pass, Turn};
pub use turns::Turns;
