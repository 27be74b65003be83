//! Writes that a sync follows.
ghost use Rattle.std.specs.Prelude.{◌≡◌, ◌+◌, ◌^◌, ◌<◌, ◌≤◌, ◌++◌, ◌∷◌, [], length, OnOk};
ghost use Rattle.hs_disk.specs.Cause.{HasCause};
ghost use Rattle.hs_disk.specs.Disk.{calls_after, written};
ghost use Rattle.std.specs.Int.{w64, to_be_bytes};
ghost use Rattle.redo_journal.specs.Gates.{Syncs, TornFrom};
ghost use Rattle.redo_journal.specs.Root.{cell_number, cell_place};

use crate::refusal::DiskFault;
use crate::root::Root;
use hs_disk::Disk;

// Writes contents, in two pieces, and a closed gate behind them, and syncs.
pub(crate) fn write_record<D: Disk>(
    disk: &mut D,
    place: u64,
    head: &[u8],
    body: &[u8],
) -> Result<(), DiskFault>
    requires within { D.tells → place ≤ length (D.seen disk.old) }
    ensures syncs { D.tells → Syncs D.seen D.may_leave D.moment D.left_at disk.old disk.new
        (TornFrom place (length (head.now ++ body.now ++ 0 ∷ [])) (D.may_leave disk.old))
        (written place (head.now ++ body.now ++ 0 ∷ []) (D.seen disk.old)) result }
    ensures room { OnOk result (place + length (head.now ++ body.now) + 1 < 2 ^ 63) }
    ensures calls { D.tells → OnOk result (D.calls disk.new ≡ calls_after 2 (D.calls disk.old)) }
    ensures same { D.which disk.new ≡ D.which disk.old }
    ensures faultless { OnOk result (D.fault_count disk.new ≡ D.fault_count disk.old) }
    ensures cause { HasCause (D.fault_count disk.old) (D.fault_count disk.new) result }
{
    disk.write_pieces(place, head, body, &[0])?;
    disk.sync()?;
    Ok(())
}

// Writes a byte, and syncs.
pub(crate) fn set_byte<D: Disk>(disk: &mut D, place: u64, byte: u8) -> Result<(), DiskFault>
    requires within { D.tells → place ≤ length (D.seen disk.old) }
    ensures syncs { D.tells → Syncs D.seen D.may_leave D.moment D.left_at disk.old disk.new
        (TornFrom place 1 (D.may_leave disk.old))
        (written place (byte ∷ []) (D.seen disk.old)) result }
    ensures calls { D.tells → OnOk result (D.calls disk.new ≡ calls_after 2 (D.calls disk.old)) }
    ensures same { D.which disk.new ≡ D.which disk.old }
    ensures faultless { OnOk result (D.fault_count disk.new ≡ D.fault_count disk.old) }
    ensures cause { HasCause (D.fault_count disk.old) (D.fault_count disk.new) result }
{
    disk.write_at(place, &[byte])?;
    disk.sync()?;
    Ok(())
}

// Makes two writes, and syncs.
pub(crate) fn write_both<D: Disk>(
    disk: &mut D,
    place: u64,
    bytes: &[u8],
    second_place: u64,
    second_bytes: &[u8],
) -> Result<(), DiskFault>
    requires within { D.tells → place ≤ length (D.seen disk.old) }
    requires second_within { D.tells
        → second_place ≤ length (written place bytes.now (D.seen disk.old)) }
    ensures syncs { D.tells → Syncs D.seen D.may_leave D.moment D.left_at disk.old disk.new
        (TornFrom second_place (length second_bytes.now)
        (TornFrom place (length bytes.now) (D.may_leave disk.old)))
        (written second_place second_bytes.now (written place bytes.now (D.seen disk.old))) result }
    ensures room { OnOk result (place + length bytes.now < 2 ^ 63) }
    ensures second_room { OnOk result (second_place + length second_bytes.now < 2 ^ 63) }
    ensures calls { D.tells → OnOk result (D.calls disk.new ≡ calls_after 3 (D.calls disk.old)) }
    ensures same { D.which disk.new ≡ D.which disk.old }
    ensures faultless { OnOk result (D.fault_count disk.new ≡ D.fault_count disk.old) }
    ensures cause { HasCause (D.fault_count disk.old) (D.fault_count disk.new) result }
{
    disk.write_at(place, bytes)?;
    disk.write_at(second_place, second_bytes)?;
    disk.sync()?;
    Ok(())
}

// Writes a segment at the place that a root's cell is to hold, then that cell, and syncs.
pub(crate) fn write_segment<D: Disk>(
    disk: &mut D,
    root: &Root,
    segment: &[u8],
) -> Result<(), DiskFault>
    requires gate { root.now.gate < 2 ^ 63 }
    requires within { D.tells → root.now.live ≤ length (D.seen disk.old) }
    requires cell { D.tells
        → cell_place root.now.gate root.now.second ≤ length (D.seen disk.old) }
    ensures syncs { D.tells → Syncs D.seen D.may_leave D.moment D.left_at disk.old disk.new
        (TornFrom (cell_place root.now.gate root.now.second) 8
        (TornFrom root.now.live (length segment.now) (D.may_leave disk.old)))
        (written (cell_place root.now.gate root.now.second) (to_be_bytes w64 root.now.live)
        (written root.now.live segment.now (D.seen disk.old))) result }
    ensures room { OnOk result (root.now.live + length segment.now < 2 ^ 63) }
    ensures calls { D.tells → OnOk result (D.calls disk.new ≡ calls_after 3 (D.calls disk.old)) }
    ensures same { D.which disk.new ≡ D.which disk.old }
    ensures faultless { OnOk result (D.fault_count disk.new ≡ D.fault_count disk.old) }
    ensures cause { HasCause (D.fault_count disk.old) (D.fault_count disk.new) result }
{
    write_both(
        disk,
        root.live,
        segment,
        root.cell(),
        &root.live.to_be_bytes(),
    )
}

// Writes the number of a root's cell as its selector, and syncs.
pub(crate) fn select<D: Disk>(disk: &mut D, root: &Root) -> Result<(), DiskFault>
    requires gate { root.now.gate < 2 ^ 63 }
    requires within { D.tells → root.now.gate + 9 ≤ length (D.seen disk.old) }
    ensures syncs { D.tells → Syncs D.seen D.may_leave D.moment D.left_at disk.old disk.new
        (TornFrom (root.now.gate + 9) 1 (D.may_leave disk.old))
        (written (root.now.gate + 9) (cell_number root.now.second ∷ []) (D.seen disk.old)) result }
    ensures calls { D.tells → OnOk result (D.calls disk.new ≡ calls_after 2 (D.calls disk.old)) }
    ensures same { D.which disk.new ≡ D.which disk.old }
    ensures faultless { OnOk result (D.fault_count disk.new ≡ D.fault_count disk.old) }
    ensures cause { HasCause (D.fault_count disk.old) (D.fault_count disk.new) result }
{
    set_byte(disk, root.selector(), root.number())
}
