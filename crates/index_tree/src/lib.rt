//! A row of items whose order is told from outside, walked in either direction from any cut.
//!
//!              cut
//!     7 --- 2 --|-- 4 --- 9      items    small and copied, as the marks of a table's rows
//!      before   |   behind       spare    how many inserts fit before the next `reserve`
//!
//! Items stand in chunks, each of 256 items' memory and at least half full where there are two,
//! and the chunks' first items in a list of their own. So an insert or a removal costs a search by
//! halves in that list and in one chunk, and a move within one chunk, at times two.
//! `reserve` alone takes memory, a chunk for every 128 items, and a tree keeps what it has. After
//! it so many calls of `insert` can't be refused, and each `remove_at` gives back the room of one.
//! `first_behind` and `last_before` find an item from a `Cut`, `next` and `prev` go on from it.
//!
//! A tree knows no key. A cut tells of each item whether it stands before it; the caller's part is
//! that all such items stand in front of all others, which they do where he inserts by one order
//! and cuts by that order. specs/Ordered.antt says what a change makes of ordered items.
#![tactic(auto)]

mod chunk;
mod chunks;
mod cut;
mod firsts;
mod laws;
mod place;
mod pool;
mod shifts;
mod spot;
mod tree;
mod walk;

pub use cut::Cut;
pub use laws::{ascending_items, worked_examples};
pub use place::Place;
pub use tree::Tree;
pub use walk::Walk;
