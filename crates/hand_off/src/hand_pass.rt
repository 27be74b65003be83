//! The right to offer to a hand-off and to take from it.
ghost use Rattle.hand_off.specs.Passes.{Handed, handed_of, IsAtRest};

use crate::knows::Knows;
use crossbeam_queue::Pass;
use std::marker::Model;

/// The right to offer values and to take them. To a contract it is what it knows.
#[derive(Drop)]
pub struct HandPass<A> {
    pub(crate) seat: Pass<A, Knows<A>>,
}

impl<A> Model for HandPass<A> {
    ghost Value = { Handed A };

    ghost view = { λ pass. handed_of pass.seat };

    ghost invariant = { λ pass. IsAtRest pass.seat };
}
