//! What a pass knows, and what the table is told. A `View` exists in proofs alone: no value of it is made.
use std::collections::LinkedList;
use std::snapshot::Snapshot;

/// Where a pass is in its round.
pub enum Stage<E> {
    /// It is a pass that has no ticket.
    Rests,
    /// It is no pass, but the seat from which passes are dealt: so many were.
    Deals(u64),
    /// It waits with this ticket.
    Waits(u64),
    /// It has the turn of this ticket.
    Holds(u64),
    /// It is a pass that has just taken in another: that one's number, what that one had seen, that one's own entries, and
    /// what it had seen itself.
    Joins(u64, LinkedList<E>, LinkedList<E>, LinkedList<E>),
    /// It was joined into another.
    Spent,
}

/// What a pass knows.
pub struct View<B, E> {
    /// The value as it was opened.
    pub opened: Option<B>,
    pub stage: Stage<E>,
    pub number: u64,
    /// How many passes it stands for: itself, and those that were joined into it. The seat of the dealing stands for those
    /// that are still to be dealt.
    pub passes: u64,
    /// The history that it saw last.
    pub seen: LinkedList<E>,
    /// Its own entries.
    pub mine: LinkedList<E>,
    /// The most faults that it knows of.
    pub faults: u64,
    /// For each turn how long a history it found, and how many faults.
    pub found: LinkedList<(u64, u64)>,
    /// For each turn that ended how many faults it left.
    pub left: LinkedList<u64>,
}

/// What the table is told once: the value as it was opened, and how many passes there are.
#[derive(Drop)]
pub struct Dealt<B> {
    pub opened: Snapshot<B>,
    pub passes: u64,
}
