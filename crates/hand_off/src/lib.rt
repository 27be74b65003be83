//! A bounded queue by which one thread hands values to others: first in, first out, each value out at most once.
//!
//! All values that were ever offered stand in one order. Each caller has a pass, which knows a beginning of that order, and
//! which places of it are of the values that it offered and took. So a value that comes out is the one at the place of its
//! turn, and no place comes out twice. What stands in the order, and what has come out of it, is kept nowhere: it is the
//! rule of the queue (`specs/Order.antt`) and what passes know, which take no memory.
//!
//! Nothing is claimed of progress: not that a value is ever taken.
#![tactic(auto)]

mod hand_off;
mod hand_pass;
mod knows;
mod rule;
#[cfg(test)]
mod tests;

pub use hand_off::HandOff;
pub use hand_pass::HandPass;
pub use knows::Knows;
