//! A source over bytes in memory, some of whose reads fail.
ghost use Rattle.std.specs.Prelude.{ℕ, max, min, ◌≡◌, ◌↔◌, ◌<◌, ◌≤◌, Contains, IfOk, length};
ghost use Rattle.hs_outside.specs.Streams.{ReadDoes};
ghost use Rattle.fault_count.specs.Cause.{next_count};
ghost use Rattle.hs_outside.specs.Memory.{known_source, source_of};
ghost use Rattle.hs_outside.specs.declared.sources.Read.TheVariants as reads;

use crate::copying::copy_at;
use crate::sources::{Read, Source};
use fault_count::raised;
use std::alloc::{AllocError, Global};
use std::marker::Model;

/// Gives the bytes that it was made of, and fails the reads that it was told to fail.
#[derive(Drop)]
pub struct MemSource {
    bytes: Vec<u8>,
    place: usize,
    most: usize,
    fail_at: Vec<u64>,
    calls: u64,
    faults: u64,
    is_ended: bool,
}

impl Model for MemSource {
    ghost use Rattle.std.specs.Prelude.{◌≤◌, ◌<◌, drop, length};
    ghost use Rattle.hs_outside.specs.Memory.{SourceInMemory};

    ghost Value = { SourceInMemory };

    ghost view = { λ s. record {
      left = drop s.place s.bytes.items;
      is_ended = s.is_ended;
      faults = s.faults;
      calls = s.calls;
      fail_at = s.fail_at.items;
      most = s.most;
    } };

    ghost invariant = { λ s. (s.place ≤ length s.bytes.items) × (0 < s.most) };
}

impl MemSource {
    /// Reads are numbered from 1; those of the numbers in `fail_at` fail.
    pub fn new(alloc: Global, bytes: &[u8], fail_at: &[u64]) -> Result<MemSource, AllocError>
        ensures { IfOk result (λ source. source ≡ source_of bytes.now fail_at.now) }
    {
        Ok(MemSource {
            bytes: Vec::from_slice(alloc, bytes)?,
            place: 0,
            most: usize::MAX,
            fail_at: Vec::from_slice(alloc, fail_at)?,
            calls: 0,
            faults: 0,
            is_ended: false,
        })
    }

    /// The same source, which gives at most so many bytes a read, and at least one.
    pub fn in_pieces(self, most: usize) -> MemSource
        ensures { result ≡ record self { most = max most 1 } }
    {
        let MemSource {
            bytes,
            place,
            most: _,
            fail_at,
            calls,
            faults,
            is_ended,
        } = self;
        MemSource {
            bytes,
            place,
            most: most.max(1),
            fail_at,
            calls,
            faults,
            is_ended,
        }
    }
}

impl Source for MemSource {
    ghost giver = { known_source };

    fn faults(&self) -> u64 {
        self.faults
    }

    fn ended(&self) -> bool {
        self.is_ended
    }

    fn read(&mut self, buffer: &mut [u8]) -> Read
        requires { 0 < length buffer.old }
        ensures gives { ReadDoes result (known_source self.old) (known_source self.new) buffer.new }
        ensures later { self.old.faults ≤ self.new.faults }
        ensures fails { (result ≡ reads.Failed)
            ↔ Contains self.old.fail_at (next_count self.old.calls) }
        ensures calls { self.new.calls ≡ next_count self.old.calls }
        ensures pieces { (count : ℕ) → result ≡ reads.Got count →
            count ≡ min (min (length self.old.left) (length buffer.new)) self.old.most }
        ensures counted { result ≡ reads.Failed → self.new.faults ≡ next_count self.old.faults }
        ensures kept { (self.new.fail_at ≡ self.old.fail_at) × (self.new.most ≡ self.old.most) }
    {
        self.calls = raised(self.calls);
        if self.fail_at.contains(&self.calls) {
            self.faults = raised(self.faults);
            return Read::Failed;
        }
        let left = self.bytes.len() - self.place;
        if left == 0 {
            self.is_ended = true;
            return Read::End;
        }
        let count = left.min(buffer.len()).min(self.most);
        copy_at(&self.bytes, self.place, count, buffer);
        self.place += count;
        Read::Got(count)
    }
}
