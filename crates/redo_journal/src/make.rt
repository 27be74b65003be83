//! The making of a new journal.
ghost use Rattle.std.specs.Prelude.{◌≡◌, ◌^◌, ◌<◌, ◌++◌, ◌∷◌, [], None, length, IfOk, OnOk};
ghost use Rattle.std.specs.Int.{w32, to_be_bytes};
ghost use Rattle.hs_disk.specs.Cause.{HasCause};
ghost use Rattle.hs_disk.specs.Disk.{LeavesOnly, calls_after};
ghost use Rattle.redo_journal.specs.Bytes.{front, mark};
ghost use Rattle.redo_journal.specs.Image.{IsFresh, IsImageAt, StandsFor, nothing};
ghost use Rattle.redo_journal.specs.Gates.{Is, Throughout, Passes};

use crate::refusal::DiskFault;
use crate::writes::{set_byte, write_record};
use hs_disk::Disk;

// Leaves nothing on a disk that nothing was written to.
fn empty<D: Disk>(disk: &mut D) -> Result<(), DiskFault>
    ensures passes { D.tells → Throughout IsFresh (D.seen disk.old) (D.may_leave disk.old)
        → Passes D.seen D.may_leave D.moment D.left_at disk.old disk.new
        IsFresh (Is []) IsFresh result }
    ensures calls { D.tells → OnOk result (D.calls disk.new ≡ calls_after 2 (D.calls disk.old)) }
    ensures same { D.which disk.new ≡ D.which disk.old }
    ensures faultless { OnOk result (D.fault_count disk.new ≡ D.fault_count disk.old) }
    ensures cause { HasCause (D.fault_count disk.old) (D.fault_count disk.new) result }
{
    disk.cut(0)?;
    disk.sync()?;
    Ok(())
}

// Writes one closed gate on a disk that holds nothing.
fn blank<D: Disk>(disk: &mut D) -> Result<(), DiskFault>
    ensures passes { D.tells → Throughout (Is []) (D.seen disk.old) (D.may_leave disk.old)
        → Passes D.seen D.may_leave D.moment D.left_at disk.old disk.new
        IsFresh (Is (0 ∷ [])) IsFresh result }
    ensures calls { D.tells → OnOk result (D.calls disk.new ≡ calls_after 2 (D.calls disk.old)) }
    ensures same { D.which disk.new ≡ D.which disk.old }
    ensures faultless { OnOk result (D.fault_count disk.new ≡ D.fault_count disk.old) }
    ensures cause { HasCause (D.fault_count disk.old) (D.fault_count disk.new) result }
{
    disk.write_at(0, &[0])?;
    disk.sync()?;
    Ok(())
}

// The mark, and a length in four bytes.
fn marked(len: u32) -> [u8; 12]
    ensures { result ≡ mark ++ to_be_bytes w32 len }
{
    let [a, b, c, d] = len.to_be_bytes();
    [b'H', b'S', b'J', b'R', b'N', b'L', b'0', b'1', a, b, c, d]
}

// Makes a journal without records, and hands out the place of its last gate.
pub(crate) fn make<D: Disk>(disk: &mut D, text: &[u8]) -> Result<u64, DiskFault>
    requires fits { length text.now < 2 ^ 32 }
    requires fresh { D.tells → Throughout IsFresh (D.seen disk.old) (D.may_leave disk.old) }
    ensures moments { D.tells → LeavesOnly D.moment D.left_at disk.old disk.new
        (StandsFor text.now nothing) }
    ensures ok { D.tells → IfOk result (λ gate. Throughout (IsImageAt text.now nothing None gate)
        (D.seen disk.new) (D.may_leave disk.new)) }
    ensures bytes { D.tells → OnOk result (D.seen disk.new ≡ front text.now [] ++ 0 ∷ []) }
    ensures place { IfOk result (λ gate. (gate ≡ length (front text.now [])) × (gate < 2 ^ 63)) }
    ensures calls { D.tells → OnOk result (D.calls disk.new ≡ calls_after 8 (D.calls disk.old)) }
    ensures same { D.which disk.new ≡ D.which disk.old }
    ensures faultless { OnOk result (D.fault_count disk.new ≡ D.fault_count disk.old) }
    ensures cause { HasCause (D.fault_count disk.old) (D.fault_count disk.new) result }
{
    empty(disk)?;
    blank(disk)?;
    let head = marked(text.len() as u32);
    write_record(disk, 1, &head, text)?;
    set_byte(disk, 0, 1)?;
    Ok(13 + text.len() as u64)
}
