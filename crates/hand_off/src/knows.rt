//! What a pass knows. No value of it is made.
use std::collections::LinkedList;

/// What a pass knows of the order in which all values were offered.
pub struct Knows<A> {
    /// How many of the parts of the queue it has. Who has all is alone with it.
    pub parts: u64,
    /// The values that were offered, as far as it saw.
    pub seen: LinkedList<A>,
    /// The places in the order of the values that it offered.
    pub offered: LinkedList<u64>,
    /// The places in the order of the values that it took.
    pub taken: LinkedList<u64>,
}
