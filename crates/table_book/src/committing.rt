//! The writing of what a batch changed, as one record.
ghost use Rattle.std.specs.Prelude.{◌≡◌, ◌≢◌, ◌≤◌, ◌+◌, [], false, List, ℕ};
ghost use Rattle.fault_count.specs.Cause.{Rose};
ghost use Rattle.table_rows.specs.Undoing.{since, AreUndoable};
ghost use Rattle.table_rows.specs.Valid.{IsValidState};
ghost use Rattle.change_set.specs.Fitting.{AreValuesHeld};
ghost use Rattle.change_set.specs.Payload.{payload};
ghost use Rattle.redo_journal.specs.Committing.{Commits};
ghost use Rattle.redo_journal.specs.Image.{Contents, added};
ghost use Rattle.redo_journal.specs.Journal.{StandsOn, IsJournalOn, is_due};
ghost use Rattle.table_book.specs.Committing.{noted, IfCalled, IfNotCalled, IfIdle, IfWritten, IfDisk};

use crate::fault::Fault;
use change_set::{from_undo, push_bytes};
use hs_disk::Disk;
use redo_journal::Journal;
use std::alloc::Global;
use table_rows::{Tables, UndoList};

// So many records a journal never has.
const MAX_RECORDS: u64 = u64::MAX - 1;

/// Writes what changed, if anything did, and answers whether it was anything.
pub(crate) fn commit<D: Disk>(
    alloc: Global,
    tables: &Tables,
    undo: &UndoList,
    journal: &mut Journal,
    disk: &mut D,
) -> Result<bool, Fault>
    requires undoable { AreUndoable (since 0 undo.now.entries) tables.now }
    requires stands { D.tells
        → IsJournalOn journal.old (D.seen disk.old) (D.may_leave disk.old) }
    ensures valid { IsValidState tables.now }
    ensures idle { IfIdle result (noted undo.now.entries tables.now ≡ []) }
    ensures changed { IfCalled result (noted undo.now.entries tables.now ≢ []) }
    ensures held { IfCalled result (AreValuesHeld (noted undo.now.entries tables.now)) }
    ensures uncalled { IfNotCalled result
        ((journal.new ≡ journal.old) × (disk.new ≡ disk.old)) }

    // Whatever text and contents the journal stands for.
    ensures commits { D.tells → (text : List ℕ) (contents doubtful : Contents)
        → StandsOn text contents doubtful journal.old (D.seen disk.old) (D.may_leave disk.old)
        → IfCalled result (Commits D.seen D.may_leave D.moment D.left_at text contents doubtful
        (added contents (payload (noted undo.now.entries tables.now)))
        journal.old journal.new disk.old disk.new result) }
    ensures counted { IfWritten result
        ((journal.new.since ≡ journal.old.since + 1) × (is_due journal.new ≡ false)) }
    ensures uncounted { IfDisk result (journal.new.since ≡ journal.old.since) }
    ensures kept { (journal.new.first ≡ journal.old.first)
        × (journal.new.root ≡ journal.old.root) }
    ensures later { D.fault_count disk.old ≤ D.fault_count disk.new }
    ensures fault { IfDisk result (Rose (D.fault_count disk.old) (D.fault_count disk.new)) }
    ensures faultless { IfWritten result (D.fault_count disk.new ≡ D.fault_count disk.old) }
    ensures same { D.which disk.new ≡ D.which disk.old }
{
    // The rows are valid, which this call tells.
    let _ = tables.schema();
    let set = from_undo(alloc, tables, undo)?;
    if set.changes.as_slice().is_empty() {
        return Ok(false);
    }
    let mut bytes = Vec::new(alloc);
    push_bytes(&set, &mut bytes)?;
    if journal.records() >= MAX_RECORDS {
        return Err(Fault::NoMemory);
    }
    journal.append(disk, &bytes)?;
    Ok(true)
}
