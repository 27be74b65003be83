//! What the tree of an index keeps for each row.
ghost use Rattle.std.specs.Prelude.{◌≡◌};
ghost use Rattle.table_rows.specs.Marks.{mark_of, digest_in};

const HALF: u64 = 1 << 32;

/// A slot, and the digest of the first cell that its row is ordered by. A `u64` would make its 12
/// bytes 16. The lower half comes first, so that both are read at once.
#[derive(Clone, Copy)]
pub(crate) struct Mark {
    low: u32,
    high: u32,
    pub(crate) slot: u32,
}

impl Mark {
    pub(crate) fn of(digest: u64, slot: u32) -> Mark
        ensures { result ≡ mark_of digest slot }
    {
        Mark {
            low: (digest % HALF) as u32,
            high: (digest / HALF) as u32,
            slot,
        }
    }

    pub(crate) fn digest(&self) -> u64
        ensures { result ≡ digest_in self.now }
    {
        self.high as u64 * HALF + self.low as u64
    }
}
