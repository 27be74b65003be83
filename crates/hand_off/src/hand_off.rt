//! The hand-off.
ghost use Rattle.std.specs.Prelude.{◌≡◌, ◌<◌, IfOk, MatchOption, MatchResult};
ghost use Rattle.crossbeam_utils.specs.Padded.{padded_value};
ghost use Rattle.hand_off.specs.Order.{newcomer, whole, Offers, Takes, Held, together, less_one, one_part};
ghost use Rattle.hand_off.specs.Passes.{Line};

use crate::hand_pass::HandPass;
use crate::knows::Knows;
use crate::rule::{Both, Deal, Offer, Ordered, Take};
use crossbeam_queue::RuledArrayQueue;
use crossbeam_utils::CachePadded;
use std::alloc::{AllocError, Global};
use std::marker::Model;
use std::sync::Wait;

type Queue<A> = RuledArrayQueue<A, Knows<A>, Ordered>;

/// A queue of values that are handed from thread to thread. To a contract it is which one it is, and how
/// many values it can hold.
#[derive(Drop)]
pub struct HandOff<A> {
    queue: CachePadded<Queue<A>>,
}

impl<A> Model for HandOff<A> {
    ghost use Rattle.hand_off.specs.Passes.{Line};
    ghost use Rattle.hand_off.specs.Inside.{line_of};

    ghost Value = { Line };

    ghost view = { λ line. line_of line.queue };
}

impl<A: Drop> HandOff<A> {
    /// An empty queue that can hold so many values, and the one pass to it, which has all its parts.
    pub fn new(alloc: Global, capacity: u32) -> Result<(HandOff<A>, HandPass<A>), AllocError>
        requires some { 0 < capacity }
        ensures line { IfOk result (λ made. made.0.capacity ≡ capacity) }
        ensures pass { IfOk result (λ made. made.1
            ≡ record { line = made.0.id; knows = newcomer whole }) }
    {
        let (queue, seat) = Queue::ruled(alloc, capacity as usize)?;
        let queue = CachePadded::new(queue);
        Ok((HandOff { queue }, HandPass { seat }))
    }

    /// A pass of its own for another caller, with one part.
    pub fn split(&self, pass: &mut HandPass<A>) -> HandPass<A>
        requires line { pass.old.line ≡ self.now.id }
        requires parts { 1 < pass.old.knows.parts }
        ensures left { pass.new ≡ record pass.old { knows = less_one pass.old.knows } }
        ensures right { result ≡ record pass.old { knows = one_part pass.old.knows } }
    {
        let queue: &Queue<A> = &self.queue;
        let seat = queue.another::<Deal>(&mut pass.seat);
        HandPass { seat }
    }

    /// Takes another pass into this one, which then knows what both knew.
    pub fn join(&self, pass: &mut HandPass<A>, other: HandPass<A>)
        requires line { pass.old.line ≡ self.now.id }
        requires other_line { other.line ≡ self.now.id }
        ensures { pass.new ≡ record pass.old { knows = together pass.old.knows other.knows } }
    {
        let queue: &Queue<A> = &self.queue;
        queue.absorb::<Both>(&mut pass.seat, other.seat);
    }

    /// Puts a value behind all that were offered. It comes back where the queue was full at one moment
    /// of the call.
    pub fn offer<R: Wait>(&self, rt: &R, pass: &mut HandPass<A>, value: A) -> Result<(), A>
        requires line { pass.old.line ≡ self.now.id }
        ensures line { pass.new.line ≡ pass.old.line }
        ensures offer { MatchResult result
            (λ _. Offers pass.old.knows value pass.new.knows)
            (λ back. (back ≡ value) × (pass.new ≡ pass.old)
            × Held self.now.capacity pass.old.knows) }
    {
        let queue: &Queue<A> = &self.queue;
        queue.push_as::<Offer, R>(rt, &mut pass.seat, value)
    }

    /// The value that was offered first of those that haven't come out. None comes where the queue was
    /// empty at one moment of the call.
    pub fn take<R: Wait>(&self, rt: &R, pass: &mut HandPass<A>) -> Option<A>
        requires line { pass.old.line ≡ self.now.id }
        ensures line { pass.new.line ≡ pass.old.line }
        ensures take { MatchOption result
            ((pass.new ≡ pass.old) × Held 0 pass.old.knows)
            (λ value. Takes pass.old.knows value pass.new.knows) }
    {
        let queue: &Queue<A> = &self.queue;
        queue.pop_as::<Take, R>(rt, &mut pass.seat)
    }
}
