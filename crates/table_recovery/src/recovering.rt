//! The recovery of tables from a disk.
ghost use Rattle.std.specs.Prelude.{◌≡◌, ◌≢◌, ◌≤◌, List, ℕ, Some, None, IsSome, IfOk, IfErr, OnOk, IsErrOf};
ghost use Rattle.hs_disk.specs.Cause.{Rose};
ghost use Rattle.hs_disk.specs.Disk.{LeavesOnly};
ghost use Rattle.row_types.specs.Valid.{IsValid};
ghost use Rattle.hs_schema.specs.Spelling.{spelled};
ghost use Rattle.table_rows.specs.Database.{Database, database_of};
ghost use Rattle.table_rows.specs.Sizes.{most_bytes};
ghost use Rattle.check_point.specs.Area.{Makes, area_of};
ghost use Rattle.redo_journal.specs.Gates.{Throughout};
ghost use Rattle.redo_journal.specs.Image.{Contents, Journals, area_alone, nothing};
ghost use Rattle.redo_journal.specs.Journal.{StandsOn, IsJournalOn, records};
ghost use Rattle.table_recovery.specs.Shown.{ImageShows, AllShow};
ghost use Rattle.table_recovery.specs.Answers.{ShownOn, RefusesTables, Turns, IsOfBytes};

use crate::opening::open_tables;
use crate::recovered::Recovered;
use check_point::push_area;
use hs_disk::Disk;
use redo_journal::{Journal, Refusal};
use row_types::Schema;
use std::alloc::Global;
use table_rows::Tables;

/// The tables that the journal on a disk shows, or empty ones where nothing was written yet. It
/// begins with a sync, and a journal without a root gets one. After a failure it may be called
/// again.
pub fn recover<D: Disk>(
    alloc: Global,
    disk: &mut D,
    schema: &Schema,
    bytes_max: u64,
) -> Result<Recovered, Refusal>
    requires schema { IsValid schema.now }
    requires bytes { bytes_max ≤ most_bytes }

    // What a read gives shows the tables and the number of the journal's records.
    ensures reads { D.tells → IfOk result (λ found. ImageShows schema.now bytes_max
        (database_of found.tables) (records found.journal) (D.seen disk.old)) }
    ensures stands { D.tells → IfOk result (λ found. ShownOn schema.now bytes_max
        (database_of found.tables) found.journal (D.seen disk.new) (D.may_leave disk.new)) }
    ensures rooted { IfOk result (λ found. IsSome found.journal.root) }
    ensures is_journal { D.tells → IfOk result (λ found. IsJournalOn found.journal
        (D.seen disk.new) (D.may_leave disk.new)) }
    ensures quiet { IfOk result (λ found. found.journal.doubt ≡ None) }
    ensures of_schema { IfOk result (λ found. (found.tables.schema ≡ schema.now)
        × (found.tables.bytes_max ≡ bytes_max)) }
    ensures refused { D.tells
        → IfErr result (RefusesTables schema.now bytes_max (D.seen disk.old)) }

    // What all images before the call show, they show at each moment of it and behind it.
    ensures any_moment { D.tells → (db : Database) (place : ℕ)
        → AllShow schema.now bytes_max db place (D.seen disk.old) (D.may_leave disk.old)
        → LeavesOnly D.moment D.left_at disk.old disk.new
        (ImageShows schema.now bytes_max db place) }
    ensures again { D.tells → (db : Database) (place : ℕ)
        → AllShow schema.now bytes_max db place (D.seen disk.old) (D.may_leave disk.old)
        → AllShow schema.now bytes_max db place (D.seen disk.new) (D.may_leave disk.new) }

    // A disk whose bytes are refused, and one with a root, is synced and not touched.
    ensures untouched { D.tells → IfErr result (λ refusal. IsOfBytes refusal
        → D.seen disk.new ≡ D.seen disk.old) }
    ensures harmless { D.tells → IfErr result (λ refusal. IsOfBytes refusal
        → LeavesOnly D.moment D.left_at disk.old disk.new (D.may_leave disk.old)) }
    ensures untouched_root { D.tells → (contents : Contents) (area : List ℕ)
        → Journals (spelled schema.now) contents (D.seen disk.old)
        → contents.area ≡ Some area → D.seen disk.new ≡ D.seen disk.old }
    ensures harmless_root { D.tells → (contents : Contents) (area : List ℕ)
        → Journals (spelled schema.now) contents (D.seen disk.old)
        → contents.area ≡ Some area
        → LeavesOnly D.moment D.left_at disk.old disk.new (D.may_leave disk.old) }
    ensures same { D.which disk.new ≡ D.which disk.old }

    // A call of the disk failed exactly where that is the answer.
    ensures later { D.fault_count disk.old ≤ D.fault_count disk.new }
    ensures fault { IsErrOf result Refusal.DiskFault
        → Rose (D.fault_count disk.old) (D.fault_count disk.new) }
    ensures told { IfErr result (λ refusal. refusal ≢ Refusal.DiskFault
        → D.fault_count disk.new ≡ D.fault_count disk.old) }
    ensures faultless { OnOk result (D.fault_count disk.new ≡ D.fault_count disk.old) }
{
    let mut found = open_tables(alloc, disk, schema, bytes_max)?;
    if found.journal.has_root() {
        return Ok(found);
    }
    give_root(alloc, disk, &found.tables, &mut found.journal)?;
    Ok(found)
}

// Gives a journal a root, whose area makes the tables that its records led to.
fn give_root<D: Disk>(
    alloc: Global,
    disk: &mut D,
    tables: &Tables,
    journal: &mut Journal,
) -> Result<(), Refusal>
    requires no_root { journal.old.root ≡ None }
    requires quiet { journal.old.doubt ≡ None }
    requires stands { D.tells
        → IsJournalOn journal.old (D.seen disk.old) (D.may_leave disk.old) }
    ensures any_moment { D.tells → (text : List ℕ) (contents : Contents)
        → StandsOn text contents nothing journal.old (D.seen disk.old) (D.may_leave disk.old)
        → LeavesOnly D.moment D.left_at disk.old disk.new
        (Turns text contents (database_of tables.now) (records journal.old)) }
    ensures again { D.tells → (text : List ℕ) (contents : Contents)
        → StandsOn text contents nothing journal.old (D.seen disk.old) (D.may_leave disk.old)
        → Throughout (Turns text contents (database_of tables.now) (records journal.old))
        (D.seen disk.new) (D.may_leave disk.new) }
    ensures stands { D.tells → (text : List ℕ) (contents : Contents)
        → StandsOn text contents nothing journal.old (D.seen disk.old) (D.may_leave disk.old)
        → OnOk result (StandsOn text
        (area_alone (records journal.old) (area_of (database_of tables.now))) nothing
        journal.new (D.seen disk.new) (D.may_leave disk.new)) }
    ensures makes { OnOk result (Makes tables.now.schema tables.now.bytes_max
        (area_of (database_of tables.now)) (database_of tables.now)) }
    ensures rooted { OnOk result (IsSome journal.new.root) }
    ensures quiet { OnOk result (journal.new.doubt ≡ None) }
    ensures counted { OnOk result (records journal.new ≡ records journal.old) }
    ensures not_of_bytes { IfErr result (λ refusal. IsOfBytes refusal → ⊥) }
    ensures same { D.which disk.new ≡ D.which disk.old }
    ensures later { D.fault_count disk.old ≤ D.fault_count disk.new }
    ensures fault { IsErrOf result Refusal.DiskFault
        → Rose (D.fault_count disk.old) (D.fault_count disk.new) }
    ensures told { IfErr result (λ refusal. refusal ≢ Refusal.DiskFault
        → D.fault_count disk.new ≡ D.fault_count disk.old) }
    ensures faultless { OnOk result (D.fault_count disk.new ≡ D.fault_count disk.old) }
{
    let mut segment = Vec::new(alloc);
    push_area(tables, journal.records(), &mut segment)?;
    Ok(journal.turn_over(disk, &segment)?)
}
