//! A sink into memory, some of whose calls fail.
ghost use Rattle.std.specs.Prelude.{ℕ, max, min, ◌≡◌, ◌↔◌, ◌⊎◌, ◌<◌, ◌≤◌, [], Contains, IfOk, IsErr, IsTrue, length};
ghost use Rattle.hs_outside.specs.Streams.{WriteDoes, SendDoes};
ghost use Rattle.fault_count.specs.Cause.{next_count};
ghost use Rattle.hs_outside.specs.Memory.{known_sink, sink_of};
ghost use Rattle.hs_outside.specs.declared.sinks.Wrote.TheVariants as writes;

use crate::sinks::{Failed, Sink, Wrote};
use fault_count::raised;
use std::alloc::{AllocError, Global};
use std::marker::Model;

/// Keeps the bytes that it takes, and fails the calls that it was told to fail.
#[derive(Drop)]
pub struct MemSink {
    bytes: Vec<u8>,
    most: usize,
    fail_at: Vec<u64>,
    calls: u64,
    faults: u64,
    is_short: bool,
}

impl Model for MemSink {
    ghost use Rattle.std.specs.Prelude.{◌<◌};
    ghost use Rattle.hs_outside.specs.Memory.{SinkInMemory};

    ghost Value = { SinkInMemory };

    ghost view = { λ s. record {
      taken = s.bytes.items;
      faults = s.faults;
      calls = s.calls;
      fail_at = s.fail_at.items;
      most = s.most;
      is_short = s.is_short;
    } };

    ghost invariant = { λ s. 0 < s.most };
}

impl MemSink {
    /// Writes and flushes are numbered together, from 1; those of the numbers in `fail_at` fail.
    pub fn new(alloc: Global, fail_at: &[u64]) -> Result<MemSink, AllocError>
        ensures { IfOk result (λ sink. sink ≡ sink_of fail_at.now) }
    {
        Ok(MemSink {
            bytes: Vec::new(alloc),
            most: usize::MAX,
            fail_at: Vec::from_slice(alloc, fail_at)?,
            calls: 0,
            faults: 0,
            is_short: false,
        })
    }

    /// The same sink, which takes at most so many bytes a write, and at least one.
    pub fn in_pieces(self, most: usize) -> MemSink
        ensures { result ≡ record self { most = max most 1 } }
    {
        let MemSink {
            bytes,
            most: _,
            fail_at,
            calls,
            faults,
            is_short,
        } = self;
        MemSink {
            bytes,
            most: most.max(1),
            fail_at,
            calls,
            faults,
            is_short,
        }
    }

    /// The bytes taken so far.
    pub fn bytes(&self) -> &[u8]
        ensures { result.now ≡ self.now.taken }
    {
        self.bytes.as_slice()
    }

    /// Whether memory was refused when it had to grow. From then on each call fails.
    pub fn short(&self) -> bool
        ensures { result ≡ self.now.is_short }
    {
        self.is_short
    }
}

impl MemSink {
    /// Counts a call, and says whether it is to fail.
    fn fails(&mut self) -> bool
        ensures named { IsTrue result ↔
            (Contains self.old.fail_at (next_count self.old.calls) ⊎ IsTrue self.old.is_short) }
        ensures counted { self.new ≡ record self.old { calls = next_count self.old.calls } }
    {
        self.calls = raised(self.calls);
        self.is_short || self.fail_at.contains(&self.calls)
    }
}

impl Sink for MemSink {
    ghost taker = { known_sink };

    fn faults(&self) -> u64 {
        self.faults
    }

    fn write(&mut self, bytes: &[u8]) -> Wrote
        requires { 0 < length bytes.now }
        ensures takes { WriteDoes result (known_sink self.old) (known_sink self.new) bytes.now }
        ensures later { self.old.faults ≤ self.new.faults }
        ensures fails { (result ≡ writes.Failed)
            ↔ (Contains self.old.fail_at (next_count self.old.calls) ⊎ IsTrue self.new.is_short) }
        ensures calls { self.new.calls ≡ next_count self.old.calls }
        ensures pieces { (count : ℕ) → result ≡ writes.Took count →
            count ≡ min (length bytes.now) self.old.most }
        ensures counted { result ≡ writes.Failed → self.new.faults ≡ next_count self.old.faults }

        // A failure by name says nothing of memory, and once it was refused it stays so.
        ensures named { Contains self.old.fail_at (next_count self.old.calls) →
            self.new.is_short ≡ self.old.is_short }
        ensures short { IsTrue self.old.is_short → IsTrue self.new.is_short }
        ensures kept { (self.new.fail_at ≡ self.old.fail_at) × (self.new.most ≡ self.old.most) }
    {
        if self.fails() {
            self.faults = raised(self.faults);
            return Wrote::Failed;
        }
        let count = bytes.len().min(self.most);
        if self.bytes.extend_from_slice(&bytes[..count]).is_err() {
            self.is_short = true;
            self.faults = raised(self.faults);
            return Wrote::Failed;
        }
        Wrote::Took(count)
    }

    fn flush(&mut self) -> Result<(), Failed>
        ensures sends { SendDoes result (known_sink self.old) (known_sink self.new) [] }
        ensures later { self.old.faults ≤ self.new.faults }
        ensures fails { IsErr result
            ↔ (Contains self.old.fail_at (next_count self.old.calls) ⊎ IsTrue self.new.is_short) }
        ensures calls { self.new.calls ≡ next_count self.old.calls }
        ensures counted { IsErr result → self.new.faults ≡ next_count self.old.faults }
        ensures short { self.new.is_short ≡ self.old.is_short }
        ensures kept { (self.new.fail_at ≡ self.old.fail_at) × (self.new.most ≡ self.old.most) }
    {
        if self.fails() {
            self.faults = raised(self.faults);
            return Err(Failed);
        }
        Ok(())
    }
}
