//! The file that a disk is kept in: what is asked of it, and what it tells.
ghost use Rattle.std.specs.Prelude.{◌≡◌, ◌≤◌, ℕ, List, Bool, false, Option, None, Some, OnOk, OnErr, IfOk, IfSome, length, take};
ghost use Rattle.std.specs.Io.{ReadsAtMost, WritesAtMost};
ghost use Rattle.hs_disk.specs.HostFile.{Reads, Puts, Cuts};

use std::fs::File;
use std::io;
use std::os::unix::fs::FileExt;

/// A file that is open for reading and writing.
pub trait HostFile {
    /// The bytes that it holds, where it tells them. A file of the system tells none.
    ghost holds: { Self → Option (List ℕ) };

    /// Whether any of them wait for a sync, where it tells.
    ghost waits: { Self → Option Bool };

    /// How many bytes it holds.
    fn len(&mut self) -> io::Result<u64>
        ensures told { IfOk result (λ n. IfSome (holds self.old) (λ held. n ≡ length held)) }
        ensures kept { holds self.new ≡ holds self.old };

    /// Reads some bytes from a place on to the front of the buffer, none only at the end.
    fn read_at(&mut self, at: u64, buf: &mut [u8]) -> io::Result<usize>
        ensures bound { ReadsAtMost result buf.new }
        ensures told { IfOk result (λ n. IfSome (holds self.old) (λ held.
            Reads at n held buf.new)) }
        ensures kept { holds self.new ≡ holds self.old };

    /// Writes a front of the bytes at a place.
    fn write_at(&mut self, at: u64, bytes: &[u8]) -> io::Result<usize>
        ensures bound { WritesAtMost result bytes.now }
        ensures puts { IfOk result (λ n. Puts at (take n bytes.now) (holds self.old)
            (holds self.new)) }
        ensures err { OnErr result (holds self.new ≡ holds self.old) };

    /// Cuts it to a length, or has it grow to it.
    fn set_len(&mut self, len: u64) -> io::Result<()>
        ensures cuts { IfSome (holds self.old) (λ held. len ≤ length held) →
            OnOk result (Cuts len (holds self.old) (holds self.new)) }
        ensures err { OnErr result (holds self.new ≡ holds self.old) };

    /// Has all that it holds outlast a crash.
    fn sync(&mut self) -> io::Result<()>
        ensures synced { OnOk result (IfSome (waits self.new) (λ is. is ≡ false)) }
        ensures kept { holds self.new ≡ holds self.old };
}

impl HostFile for File {
    ghost holds = { λ _. None };

    ghost waits = { λ _. None };

    fn len(&mut self) -> io::Result<u64> {
        Ok(self.metadata()?.len())
    }

    fn read_at(&mut self, at: u64, buf: &mut [u8]) -> io::Result<usize> {
        FileExt::read_at(self, buf, at)
    }

    fn write_at(&mut self, at: u64, bytes: &[u8]) -> io::Result<usize> {
        FileExt::write_at(self, bytes, at)
    }

    fn set_len(&mut self, len: u64) -> io::Result<()> {
        File::set_len(self, len)
    }

    fn sync(&mut self) -> io::Result<()> {
        self.sync_data()
    }
}
