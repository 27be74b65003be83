//! Where a pair stands in a tree.
use std::marker::Model;

/// A pair's place in one tree. It belongs to that tree until the tree's next change.
#[derive(Clone, Copy)]
pub struct Place {
    number: usize,
}

impl Model for Place {
    ghost use Rattle.std.specs.Prelude.{ℕ};

    ghost Value = { ℕ };

    ghost view = { λ place. place.number };

    ghost inverse = { λ number. record { number = number } };
}

impl Place {
    ghost use Rattle.std.specs.Prelude.{◌≡◌};

    pub(crate) fn of(number: usize) -> Place
        ensures { result ≡ number }
    {
        Place { number }
    }

    pub(crate) fn number(self) -> usize
        ensures { result ≡ self }
    {
        self.number
    }
}
