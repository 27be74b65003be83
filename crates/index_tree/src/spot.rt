//! Where an item stands or may be put: its chunk, and how many items of the chunk are before it.
ghost use Rattle.std.specs.Prelude.{◌≡◌, ℕ, ◌+◌, ◌-◌, ◌*◌, ◌/◌, ◌%◌, ◌<◌, ◌≤◌, List, Some, None, length, nat_lt, if◌then◌else◌};
ghost use Rattle.index_tree.specs.Contents.{Finds, one_before};
ghost use Rattle.index_tree.specs.Chunked.{joined, chunk_at, start, held, IsShaped};

use crate::Place;
use crate::chunk::{Chunk, FULL, HALF};

/// A chunk's number, and an offset in the chunk.
#[derive(Clone, Copy)]
pub(crate) struct Spot {
    pub(crate) chunk: usize,
    pub(crate) offset: usize,
}

impl Spot {
    /// The spot that a place names.
    pub(crate) fn of(place: Place) -> Spot
        ensures chunk { result.chunk ≡ place / 256 }
        ensures offset { result.offset ≡ place % 256 }
    {
        Spot {
            chunk: place.number() / FULL,
            offset: place.number() % FULL,
        }
    }

    // The place of an item here.
    fn place(self) -> Place
        requires few { self.chunk ≤ 4294967296 }
        requires within { self.offset < 256 }
        ensures { result ≡ 256 * self.chunk + self.offset }
    {
        Place::of(FULL * self.chunk + self.offset)
    }

    /// Right behind an item here.
    pub(crate) fn behind(self) -> Spot
        requires { self.offset < 256 }
        ensures chunk { result.chunk ≡ self.chunk }
        ensures offset { result.offset ≡ self.offset + 1 }
    {
        Spot {
            chunk: self.chunk,
            offset: self.offset + 1,
        }
    }

    /// Where the spot is once its chunk is split.
    pub(crate) fn beside_split(self) -> Spot
        requires { self.chunk ≤ 4294967296 }
        ensures chunk { result.chunk
            ≡ (if nat_lt 128 self.offset then self.chunk + 1 else self.chunk) }
        ensures offset { result.offset
            ≡ (if nat_lt 128 self.offset then self.offset - 128 else self.offset) }
    {
        if HALF < self.offset {
            Spot {
                chunk: self.chunk + 1,
                offset: self.offset - HALF,
            }
        } else {
            self
        }
    }

    /// The first item here or behind.
    pub(crate) fn first_from<T: Copy>(self, chunks: &[Chunk<T>]) -> Option<Place>
        requires shaped { IsShaped chunks.now }
        requires few { length chunks.now ≤ 4294967296 }
        requires within { self.offset ≤ length (chunk_at chunks.now self.chunk) }
        requires inside { 0 < self.chunk → self.chunk < length chunks.now }
        ensures { (pool : List (List T)) → Finds (held chunks.now pool)
            (if nat_lt (start chunks.now self.chunk + self.offset) (length (joined chunks.now))
            then Some (start chunks.now self.chunk + self.offset) else None) result }
    {
        if self.chunk < chunks.len() && self.offset < chunks[self.chunk].len() {
            return Some(self.place());
        }
        if self.chunk + 1 < chunks.len() {
            let next = Spot {
                chunk: self.chunk + 1,
                offset: 0,
            };
            return Some(next.place());
        }
        None
    }

    /// The last item in front.
    pub(crate) fn last_until<T: Copy>(self, chunks: &[Chunk<T>]) -> Option<Place>
        requires shaped { IsShaped chunks.now }
        requires few { length chunks.now ≤ 4294967296 }
        requires within { self.offset ≤ length (chunk_at chunks.now self.chunk) }
        requires inside { 0 < self.chunk → self.chunk < length chunks.now }
        ensures { (pool : List (List T)) → Finds (held chunks.now pool)
            (one_before (start chunks.now self.chunk + self.offset)) result }
    {
        if self.offset != 0 {
            let in_front = Spot {
                chunk: self.chunk,
                offset: self.offset - 1,
            };
            return Some(in_front.place());
        }
        if self.chunk == 0 {
            return None;
        }
        let chunk = self.chunk - 1;
        let in_front = Spot {
            chunk,
            offset: chunks[chunk].len() - 1,
        };
        Some(in_front.place())
    }
}
