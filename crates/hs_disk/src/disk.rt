//! A disk as its users see it: bytes that are read, written and synced, and the images that a crash
//! may leave.
ghost use Rattle.std.specs.Prelude.{◌≡◌, ◌+◌, ◌^◌, ◌<◌, ◌≤◌, ◌++◌, List, ℕ, length, take, IfOk, OnOk, OnErr};
ghost use Rattle.fault_count.specs.Cause.{HasCause, next_count};
ghost use Rattle.hs_disk.specs.Disk.{written, Torn, Cut, Fills, Follows, AddsNone, Only, Elapses};

/// A call of the disk failed, and its count of faults rose.
#[derive(Clone, Copy, Debug, PartialEq, Eq)]
pub struct Failed;

pub trait Disk {
    /// Whether the disk tells what it holds. A real one tells nothing.
    ghost tells: { Type 0 };

    /// The bytes that a read gives.
    ghost seen: { Self → List ℕ };

    /// The images that a crash now may leave.
    ghost may_leave: { Self → List ℕ → Type 0 };

    /// The moment, as a number that never falls.
    ghost moment: { Self → ℕ };

    /// The images that a crash at a moment up to now may have left, during a call or between two.
    ghost left_at: { Self → ℕ → List ℕ → Type 0 };

    /// How many calls have failed so far. The count stands still at its type's end.
    ghost fault_count: { Self → ℕ };

    /// How many changing calls were asked for so far, in a count that stands still likewise.
    ghost calls: { Self → ℕ };

    /// Which disk it is. So a struct that holds a borrowed one says that it keeps it.
    ghost which: { Self → ℕ };

    fn faults(&self) -> u64
        ensures { result ≡ fault_count self.now };

    /// How many bytes the disk holds.
    fn len(&mut self) -> Result<u64, Failed>
        ensures length { tells → IfOk result (λ n. n ≡ length (seen self.old)) }
        ensures bound { IfOk result (λ n. n < 2 ^ 63) }
        ensures seen { tells → seen self.new ≡ seen self.old }
        ensures crash { tells → AddsNone (may_leave self.old) (may_leave self.new) }
        ensures reading { tells → may_leave self.new (seen self.new) }
        ensures time { tells → Elapses (moment self.old) (moment self.new)
            (left_at self.old) (left_at self.new) (may_leave self.new) }
        ensures calls { tells → calls self.new ≡ calls self.old }
        ensures same { which self.new ≡ which self.old }
        ensures faultless { OnOk result (fault_count self.new ≡ fault_count self.old) }
        ensures cause { HasCause (fault_count self.old) (fault_count self.new) result };

    /// Fills the buffer from this place on, except at the disk's end, and says how many bytes it
    /// read.
    fn read(&mut self, at: u64, buf: &mut [u8]) -> Result<usize, Failed>
        ensures bytes { tells → IfOk result (λ n. Fills (seen self.old) at n buf.old buf.new) }
        ensures bound { IfOk result (λ n. n ≤ length buf.old) }
        ensures seen { tells → seen self.new ≡ seen self.old }
        ensures crash { tells → AddsNone (may_leave self.old) (may_leave self.new) }
        ensures reading { tells → may_leave self.new (seen self.new) }
        ensures time { tells → Elapses (moment self.old) (moment self.new)
            (left_at self.old) (left_at self.new) (may_leave self.new) }
        ensures calls { tells → calls self.new ≡ calls self.old }
        ensures same { which self.new ≡ which self.old }
        ensures faultless { OnOk result (fault_count self.new ≡ fault_count self.old) }
        ensures cause { HasCause (fault_count self.old) (fault_count self.new) result };

    /// Writes over what is there, and past the end. Until a sync, a crash may leave any bytes in
    /// the range.
    fn write_at(&mut self, at: u64, bytes: &[u8]) -> Result<(), Failed>
        requires { tells → at ≤ length (seen self.old) }
        ensures written { tells → OnOk result
            (seen self.new ≡ written at bytes.now (seen self.old)) }
        ensures torn { tells → OnErr result
            (Torn at (length bytes.now) (seen self.old) (seen self.new)) }
        ensures room { OnOk result (at + length bytes.now < 2 ^ 63) }
        ensures crash { tells → Follows (Torn at (length bytes.now))
            (may_leave self.old) (may_leave self.new) }
        ensures reading { tells → may_leave self.new (seen self.new) }
        ensures time { tells → Elapses (moment self.old) (moment self.new)
            (left_at self.old) (left_at self.new) (may_leave self.new) }
        ensures calls { tells → calls self.new ≡ next_count (calls self.old) }
        ensures same { which self.new ≡ which self.old }
        ensures faultless { OnOk result (fault_count self.new ≡ fault_count self.old) }
        ensures cause { HasCause (fault_count self.old) (fault_count self.new) result };

    /// Writes three pieces one after another, as `write_at` would write them joined.
    fn write_pieces(&mut self, at: u64, head: &[u8], body: &[u8], tail: &[u8]) -> Result<(), Failed>
        requires { tells → at ≤ length (seen self.old) }
        ensures written { tells → OnOk result
            (seen self.new ≡ written at (head.now ++ body.now ++ tail.now) (seen self.old)) }
        ensures torn { tells → OnErr result
            (Torn at (length (head.now ++ body.now ++ tail.now)) (seen self.old) (seen self.new)) }
        ensures room { OnOk result (at + length (head.now ++ body.now ++ tail.now) < 2 ^ 63) }
        ensures crash { tells → Follows (Torn at (length (head.now ++ body.now ++ tail.now)))
            (may_leave self.old) (may_leave self.new) }
        ensures reading { tells → may_leave self.new (seen self.new) }
        ensures time { tells → Elapses (moment self.old) (moment self.new)
            (left_at self.old) (left_at self.new) (may_leave self.new) }
        ensures calls { tells → calls self.new ≡ next_count (calls self.old) }
        ensures same { which self.new ≡ which self.old }
        ensures faultless { OnOk result (fault_count self.new ≡ fault_count self.old) }
        ensures cause { HasCause (fault_count self.old) (fault_count self.new) result };

    /// Cuts the disk to a length, and leaves a shorter one. Until a sync, a crash may leave either
    /// length.
    fn cut(&mut self, len: u64) -> Result<(), Failed>
        ensures cut { tells → OnOk result (seen self.new ≡ take len (seen self.old)) }
        ensures torn { tells → OnErr result (Cut len (seen self.old) (seen self.new)) }
        ensures crash { tells → Follows (Cut len) (may_leave self.old) (may_leave self.new) }
        ensures reading { tells → may_leave self.new (seen self.new) }
        ensures time { tells → Elapses (moment self.old) (moment self.new)
            (left_at self.old) (left_at self.new) (may_leave self.new) }
        ensures calls { tells → calls self.new ≡ next_count (calls self.old) }
        ensures same { which self.new ≡ which self.old }
        ensures faultless { OnOk result (fault_count self.new ≡ fault_count self.old) }
        ensures cause { HasCause (fault_count self.old) (fault_count self.new) result };

    /// After it, a crash leaves what a read gives.
    fn sync(&mut self) -> Result<(), Failed>
        ensures durable { tells → OnOk result (Only (seen self.old) (may_leave self.new)) }
        ensures seen { tells → seen self.new ≡ seen self.old }
        ensures crash { tells → AddsNone (may_leave self.old) (may_leave self.new) }
        ensures reading { tells → may_leave self.new (seen self.new) }
        ensures time { tells → Elapses (moment self.old) (moment self.new)
            (left_at self.old) (left_at self.new) (may_leave self.new) }
        ensures calls { tells → calls self.new ≡ next_count (calls self.old) }
        ensures same { which self.new ≡ which self.old }
        ensures faultless { OnOk result (fault_count self.new ≡ fault_count self.old) }
        ensures cause { HasCause (fault_count self.old) (fault_count self.new) result };

    /// What a crash now may leave, one at this moment may leave.
    ghost counts_now: { (disk : Self) (image : List ℕ) → tells
        → may_leave disk image → left_at disk (moment disk) image };

    /// And nothing else.
    ghost only_now: { (disk : Self) (image : List ℕ) → tells
        → left_at disk (moment disk) image → may_leave disk image };
}

impl<D: Disk> Disk for &mut D {
    ghost tells = { D.tells };

    ghost seen = { λ d. D.seen d.now };

    ghost may_leave = { λ d. D.may_leave d.now };

    ghost moment = { λ d. D.moment d.now };

    ghost left_at = { λ d. D.left_at d.now };

    ghost fault_count = { λ d. D.fault_count d.now };

    ghost calls = { λ d. D.calls d.now };

    ghost which = { λ d. d.ghost_name };

    ghost counts_now = { λ d. D.counts_now d.now };

    ghost only_now = { λ d. D.only_now d.now };

    fn faults(&self) -> u64 {
        (**self).faults()
    }

    fn len(&mut self) -> Result<u64, Failed> {
        (**self).len()
    }

    fn read(&mut self, at: u64, buf: &mut [u8]) -> Result<usize, Failed> {
        (**self).read(at, buf)
    }

    fn write_at(&mut self, at: u64, bytes: &[u8]) -> Result<(), Failed> {
        (**self).write_at(at, bytes)
    }

    fn write_pieces(
        &mut self,
        at: u64,
        head: &[u8],
        body: &[u8],
        tail: &[u8],
    ) -> Result<(), Failed> {
        (**self).write_pieces(at, head, body, tail)
    }

    fn cut(&mut self, len: u64) -> Result<(), Failed> {
        (**self).cut(len)
    }

    fn sync(&mut self) -> Result<(), Failed> {
        (**self).sync()
    }
}
