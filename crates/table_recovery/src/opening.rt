//! The tables of a disk as it stands.
ghost use Rattle.std.specs.Prelude.{◌≡◌, ◌≢◌, ◌≤◌, None, IfOk, IfErr, OnOk, IsErrOf};
ghost use Rattle.hs_disk.specs.Cause.{Rose};
ghost use Rattle.hs_disk.specs.Disk.{LeavesOnly, AllImages};
ghost use Rattle.row_types.specs.Valid.{IsValid};
ghost use Rattle.hs_schema.specs.Spelling.{spelled};
ghost use Rattle.table_rows.specs.Database.{database_of};
ghost use Rattle.table_rows.specs.Sizes.{most_bytes};
ghost use Rattle.redo_journal.specs.Image.{Contents, StandsFor, IsFresh};
ghost use Rattle.redo_journal.specs.Journal.{IsJournalOn, records};
ghost use Rattle.table_recovery.specs.Shown.{ImageShows};
ghost use Rattle.table_recovery.specs.Answers.{ShownOn, RefusesTables, IsOfBytes};

use crate::leading::{begin, lead_all};
use crate::recovered::Recovered;
use hs_disk::Disk;
use hs_schema::SchemaLines;
use redo_journal::{Refusal, open_on};
use row_types::Schema;
use std::alloc::Global;

/// The tables that the journal on a disk shows, or empty ones where nothing was written yet. A
/// journal without a root stays so.
pub(crate) fn open_tables<D: Disk>(
    alloc: Global,
    disk: &mut D,
    schema: &Schema,
    bytes_max: u64,
) -> Result<Recovered, Refusal>
    requires schema { IsValid schema.now }
    requires bytes { bytes_max ≤ most_bytes }
    ensures reads { D.tells → IfOk result (λ found. ImageShows schema.now bytes_max
        (database_of found.tables) (records found.journal) (D.seen disk.old)) }
    ensures stands { D.tells → IfOk result (λ found. ShownOn schema.now bytes_max
        (database_of found.tables) found.journal (D.seen disk.new) (D.may_leave disk.new)) }
    ensures is_journal { D.tells → IfOk result (λ found. IsJournalOn found.journal
        (D.seen disk.new) (D.may_leave disk.new)) }
    ensures quiet { IfOk result (λ found. found.journal.doubt ≡ None) }
    ensures of_schema { IfOk result (λ found. (found.tables.schema ≡ schema.now)
        × (found.tables.bytes_max ≡ bytes_max)) }
    ensures refused { D.tells
        → IfErr result (RefusesTables schema.now bytes_max (D.seen disk.old)) }
    ensures any_moment { D.tells → (contents : Contents)
        → AllImages (StandsFor (spelled schema.now) contents) (D.may_leave disk.old)
        → LeavesOnly D.moment D.left_at disk.old disk.new
        (StandsFor (spelled schema.now) contents) }
    ensures again { D.tells → (contents : Contents)
        → AllImages (StandsFor (spelled schema.now) contents) (D.may_leave disk.old)
        → AllImages (StandsFor (spelled schema.now) contents) (D.may_leave disk.new) }
    ensures untouched { D.tells → (IsFresh (D.seen disk.old) → ⊥)
        → D.seen disk.new ≡ D.seen disk.old }
    ensures harmless { D.tells → (IsFresh (D.seen disk.old) → ⊥)
        → LeavesOnly D.moment D.left_at disk.old disk.new (D.may_leave disk.old) }
    ensures begun { D.tells → IfErr result (λ refusal. IsOfBytes refusal
        → IsFresh (D.seen disk.old) → ⊥) }
    ensures among { D.tells → OnOk result (D.may_leave disk.old (D.seen disk.old)) }
    ensures same { D.which disk.new ≡ D.which disk.old }
    ensures later { D.fault_count disk.old ≤ D.fault_count disk.new }
    ensures fault { IsErrOf result Refusal.DiskFault
        → Rose (D.fault_count disk.old) (D.fault_count disk.new) }
    ensures told { IfErr result (λ refusal. refusal ≢ Refusal.DiskFault
        → D.fault_count disk.new ≡ D.fault_count disk.old) }
    ensures faultless { OnOk result (D.fault_count disk.new ≡ D.fault_count disk.old) }
{
    let text = schema.spell(alloc)?;
    let (journal, opened) = open_on(alloc, disk, &text)?;
    let gate = journal.root_gate().unwrap_or(0);
    let mut tables = begin(alloc, schema, bytes_max, opened.area.as_ref(), gate)?;
    lead_all(alloc, opened.records.as_slice(), &mut tables)?;
    Ok(Recovered { tables, journal })
}
