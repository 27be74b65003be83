//! The rule of the queue, and the names of its steps.
ghost use Rattle.std.specs.Prelude.{length};
ghost use Rattle.hand_off.specs.Order.{IsQueue, newcomer, whole, Offers, Takes, Held, together, less_one, one_part};

use crate::knows::Knows;
use crossbeam_queue::protocol::{Join, Lesson, Outcome, Protocol, Split};

/// One order for all passes.
pub struct Ordered;

impl<A> Protocol<A, Knows<A>> for Ordered {
    ghost holds = { IsQueue };

    ghost first = { newcomer whole };
}

pub(crate) struct Offer;

impl<A> Outcome<A, Knows<A>> for Offer {
    ghost then = { Offers };
}

impl<A> Lesson<A, Knows<A>> for Offer {
    ghost fact = { λ v items. Held (length items) v };
}

pub(crate) struct Take;

impl<A> Outcome<A, Knows<A>> for Take {
    ghost then = { Takes };
}

impl<A> Lesson<A, Knows<A>> for Take {
    ghost fact = { λ v items. Held (length items) v };
}

pub(crate) struct Deal;

impl<A> Split<Knows<A>> for Deal {
    ghost left = { less_one };

    ghost right = { one_part };
}

pub(crate) struct Both;

impl<A> Join<Knows<A>> for Both {
    ghost both = { together };

    ghost spent = { newcomer 0 };
}
