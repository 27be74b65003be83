//! A pass, by which one worker takes turns, and the turn that it has.
ghost use Rattle.std.specs.Prelude.{◌≡◌};
ghost use Rattle.turn_lock.specs.Known.{Known, IsPass, IsTurn, known_of};

use crate::keeps::Keeps;
use crate::view::View;
use atomic_table::Seat;
use std::marker::Model;

pub(crate) type Place<B, E> = Seat<Option<B>, View<B, E>>;

/// The right to take turns. To a contract it is what it knows.
#[derive(Drop)]
pub struct Pass<B: Keeps> {
    pub(crate) number: u32,
    pub(crate) passes: u32,
    pub(crate) seat: Place<B, B::Entry>,
}

impl<B: Keeps> Model for Pass<B> {
    ghost Value = { Known B B.Entry };

    ghost view = { λ p. known_of p.seat };

    ghost invariant = { λ p. IsPass p.number p.passes p.seat };
}

/// A turn, which ends in `Turns::leave`. To a contract it is what its pass knows.
pub struct Turn<B: Keeps> {
    pub(crate) number: u32,
    pub(crate) passes: u32,
    pub(crate) seat: Place<B, B::Entry>,
}

impl<B: Keeps> Model for Turn<B> {
    ghost Value = { Known B B.Entry };

    ghost view = { λ t. known_of t.seat };

    ghost invariant = { λ t. IsTurn t.number t.passes t.seat };
}

/// The value, for one turn.
pub struct Held<B: Keeps> {
    pub value: B,
    pub turn: Turn<B>,
}

impl<B: Keeps> Pass<B> {
    /// Its number. The passes of a lock are numbered from 0.
    pub fn number(&self) -> u32
        ensures { result ≡ self.now.number }
    {
        self.number
    }
}
