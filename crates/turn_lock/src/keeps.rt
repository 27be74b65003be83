//! What a value under the lock says of itself.
ghost use Rattle.std.specs.Prelude.{◌≡◌, ℕ, List};

/// A value that stands for a history, and holds no list of its entries.
pub trait Keeps {
    /// What one turn adds to the history.
    type Entry;

    // Of the value as it was opened, the entries since then in their order, and the value: it is what they made of it.
    ghost stands: { Self → List Self.Entry → Self → Type 0 };

    // The number of the pass in whose turn an entry was made.
    ghost maker: { Self.Entry → ℕ };

    // The number that the value's next entry has.
    ghost place: { Self → ℕ };

    // How many faults of the outside the value has met.
    ghost faults: { Self → ℕ };

    /// The number that the next entry has.
    fn next_number(&self) -> u64
        ensures { result ≡ place self.now };
}
