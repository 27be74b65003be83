//! One turn of some connections, over any link.
//!
//!     link → receive → lines → one batch → run → its outcome → replies → send → link
//!
//! `Links` holds connections, each beside its link, which is found by the connection's number.
//! `solo_turn` is one turn of some of them. It is two calls around the batch: `begin_turn` receives
//! and gathers, `end_turn` hands out what came of the batch and sends. So whoever runs batches under
//! a lock holds it for the batch alone. Where memory is refused before there is a batch,
//! `end_refused_turn` sends. A connection is closed for its link only where a call of that link
//! failed; a closed one stays until it is removed. Neither half takes memory, but for the batch.
//!
//! What a batch is answered, and what is written of it, is left to what runs it; waiting for links
//! that are ready is left to other crates.
#![tactic(auto)]

mod ends;
mod laws;
mod links;
mod receiving;
mod sending;
mod solo;
#[cfg(test)]
mod tests;
mod turns;

pub use ends::TurnEnd;
pub use laws::{
    a_failed_batch_closes_who_asked, a_link_closes_only_by_its_fault,
    a_turn_answers_each_connection, how_bytes_are_cut_makes_no_difference,
    links_that_tell_fix_a_turn, nothing_is_lost_and_nothing_sent_twice,
};
pub use links::{Links, links_new};
pub use solo::solo_turn;
