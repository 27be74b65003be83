//! A book: tables, and the journal that keeps them.
ghost use Rattle.std.specs.Prelude.{◌≡◌, ◌≢◌, ◌⊎◌, ◌≤◌, ℕ, suc, List, false, IfOk, IfErr};
ghost use Rattle.std.specs.List.{AllByRecursion};
ghost use Rattle.fault_count.specs.Cause.{Rose};
ghost use Rattle.hs_disk.specs.Disk.{AllImages, LeavesOnly};
ghost use Rattle.request_types.specs.Batches.{StandTogether};
ghost use Rattle.request_types.specs.Fits.{ItemFits};
ghost use Rattle.row_types.specs.Valid.{IsValid};
ghost use Rattle.table_rows.specs.Database.{Database};
ghost use Rattle.table_rows.specs.Sizes.{most_bytes};
ghost use Rattle.table_rows.specs.Undoing.{since, AreUndoable};
ghost use Rattle.change_set.specs.Putting.{NoneLower};
ghost use Rattle.batch_answers.specs.Answers.{after, parts_for};
ghost use Rattle.redo_journal.specs.Journal.{records, is_due};
ghost use Rattle.redo_journal.specs.declared.refusal.Refusal.TheVariants.{DiskFault as disk_fault};
ghost use Rattle.table_recovery.specs.Shown.{ImageShows, AllShow};
ghost use Rattle.table_recovery.specs.Answers.{RefusesTables, IsOfBytes};
ghost use Rattle.table_book.specs.declared.entry.Entry.{Entry};
ghost use Rattle.table_book.specs.Histories.{LeadsTo, with_entry};
ghost use Rattle.table_book.specs.Books.{rows, place, ShowsBook, ShowsEither, ShowsStep, IsKeptBeside, IsKept, IsCounted, disk_behind};
ghost use Rattle.table_book.specs.Committing.{before_all, book_before};
ghost use Rattle.table_book.specs.Settling.{Settles};
ghost use Rattle.table_book.specs.Outcomes.{IfDone, IfUndone, IfDiskFault, IfRotated, IfRotationFault, IfNoRotation};

use crate::committing::commit;
use crate::fault::Fault;
use crate::rotated::Rotated;
use batch_answers::run_batch;
use check_point::push_area;
use hs_disk::Disk;
use line_pipeline::Outcome;
use redo_journal::{Journal, Refusal};
use request_types::{Batch, Replies};
use row_types::Schema;
use std::alloc::Global;
use std::marker::Model;
use table_recovery::recover;
use table_rows::{Tables, UndoList};

/// Tables, the journal of what was done to them, and the disk that it stands on.
#[derive(Drop)]
pub struct Book<D> {
    schema: Schema,
    tables: Tables,
    journal: Journal,
    disk: D,
    log_max: u64,
}

impl<D> Model for Book<D> {
    ghost use Rattle.std.specs.Prelude.{◌≡◌, IsSome};
    ghost use Rattle.table_book.specs.Books.{Keeping};

    ghost Value = { Keeping D };

    ghost view = { λ b. record {
      tables = b.tables;
      journal = b.journal;
      disk = b.disk;
      log_max = b.log_max;
    } };

    ghost invariant = { λ b. (b.schema ≡ b.tables.schema) × IsSome b.journal.root };
}

impl<D: Disk> Book<D> {
    /// The book that a disk shows, or a new one where nothing was written yet. A segment of its
    /// journal takes `log_max` records before all rows are written in place of them. Where it
    /// isn't opened, the disk is handed back.
    pub fn open_on(
        alloc: Global,
        disk: D,
        schema: Schema,
        log_max: u64,
        bytes_max: u64,
    ) -> Result<Book<D>, (Refusal, D)>
        requires schema { IsValid schema }
        requires bytes { bytes_max ≤ most_bytes }

        // What a read gives shows the book.
        ensures reads { D.tells → IfOk result (λ book. ShowsBook book (D.seen disk)) }
        ensures kept { D.tells → IfOk result (IsKept D.seen D.may_leave) }
        ensures quiet { IfOk result (λ book. is_due book.journal ≡ false) }
        ensures of_schema { IfOk result (λ book. (book.tables.schema ≡ schema)
            × (book.tables.bytes_max ≡ bytes_max)) }
        ensures of_log { IfOk result (λ book. book.log_max ≡ log_max) }
        ensures refused { D.tells → IfErr result (λ refused.
            RefusesTables schema bytes_max (D.seen disk) refused.0) }

        // What all images before the call show, they show at each moment of it and behind it.
        ensures any_moment { D.tells → (db : Database) (number : ℕ)
            → AllShow schema bytes_max db number (D.seen disk) (D.may_leave disk)
            → LeavesOnly D.moment D.left_at disk (disk_behind result)
            (ImageShows schema bytes_max db number) }
        ensures again { D.tells → (db : Database) (number : ℕ)
            → AllShow schema bytes_max db number (D.seen disk) (D.may_leave disk)
            → AllShow schema bytes_max db number (D.seen (disk_behind result))
            (D.may_leave (disk_behind result)) }

        // A disk whose bytes are refused is synced and not touched.
        ensures untouched { D.tells → IfErr result (λ refused. IsOfBytes refused.0
            → D.seen refused.1 ≡ D.seen disk) }
        ensures harmless { D.tells → IfErr result (λ refused. IsOfBytes refused.0
            → LeavesOnly D.moment D.left_at disk refused.1 (D.may_leave disk)) }
        ensures same { D.which (disk_behind result) ≡ D.which disk }

        // A call of the disk failed exactly where that is the answer.
        ensures later { D.fault_count disk ≤ D.fault_count (disk_behind result) }
        ensures fault { IfErr result (λ refused. refused.0 ≡ disk_fault
            → Rose (D.fault_count disk) (D.fault_count refused.1)) }
        ensures told { IfErr result (λ refused. refused.0 ≢ disk_fault
            → D.fault_count refused.1 ≡ D.fault_count disk) }
        ensures faultless { IfOk result (λ book. D.fault_count book.disk ≡ D.fault_count disk) }
    {
        let mut disk = disk;
        match recover(alloc, &mut disk, &schema, bytes_max) {
            Ok(found) => Ok(Book {
                schema,
                tables: found.tables,
                journal: found.journal,
                disk,
                log_max,
            }),
            Err(refusal) => Err((refusal, disk)),
        }
    }

    /// Carries a batch out, and writes what it changed as one record before it answers; or takes
    /// all of it back. Where the journal's segment is full then, it is rotated, and what comes of
    /// that changes nothing here.
    pub fn run_batch(&mut self, alloc: Global, batch: &Batch) -> Outcome
        requires items { AllByRecursion (ItemFits self.old.tables.schema) batch.now.items }
        requires together { StandTogether batch.now.items }
        requires kept { D.tells → IsKept D.seen D.may_leave self.old }
        ensures parts { IfDone result (λ replies.
            replies.parts ≡ parts_for (rows self.old) batch.now.items) }
        ensures rows { IfDone result (λ replies.
            rows self.new ≡ after (rows self.old) batch.now.items) }
        ensures undone { IfUndone result (rows self.new ≡ rows self.old) }
        ensures counted { IsCounted (rows self.old) (rows self.new) (place self.old)
            (place self.new) }
        ensures of_schema { (self.new.tables.schema ≡ self.old.tables.schema)
            × (self.new.tables.bytes_max ≡ self.old.tables.bytes_max)
            × (self.new.log_max ≡ self.old.log_max) }

        // A batch that changes nothing calls the disk for nothing.
        ensures idle { IfDone result (λ replies. rows self.new ≡ rows self.old
            → self.new.disk ≡ self.old.disk) }

        // What a crash leaves, at each moment of the call and behind it.
        ensures any_moment { D.tells → (other : Database) (number : ℕ)
            → IsKeptBeside D.seen D.may_leave other number self.old
            → LeavesOnly D.moment D.left_at self.old.disk self.new.disk
            (ShowsStep self.old other number (after (rows self.old) batch.now.items)) }
        ensures acknowledged { D.tells → IfDone result (λ replies.
            rows self.new ≢ rows self.old
            → AllImages (ShowsBook self.new) (D.may_leave self.new.disk)) }
        ensures kept { D.tells → IsKept D.seen D.may_leave self.new }
        ensures kept_back { D.tells → (other : Database) (number : ℕ)
            → IsKeptBeside D.seen D.may_leave other number self.old → IfUndone result
            (IsKeptBeside D.seen D.may_leave other number self.new
            ⊎ IsKeptBeside D.seen D.may_leave (after (rows self.old) batch.now.items)
            (suc (place self.old)) self.new) }

        // A legal history that led here goes on by the batch, where it changed anything.
        ensures history { (base : Database) (first seat : ℕ) (history : List Entry)
            → LeadsTo base first history (rows self.old) (place self.old)
            → rows self.new ≢ rows self.old
            → LeadsTo base first (with_entry history seat batch.now.items) (rows self.new)
            (place self.new) }
        ensures same_history { (base : Database) (first : ℕ) (history : List Entry)
            → LeadsTo base first history (rows self.old) (place self.old)
            → rows self.new ≡ rows self.old
            → LeadsTo base first history (rows self.new) (place self.new) }
        ensures later { D.fault_count self.old.disk ≤ D.fault_count self.new.disk }
        ensures fault { IfDiskFault result
            (Rose (D.fault_count self.old.disk) (D.fault_count self.new.disk)) }
        ensures same { D.which self.new.disk ≡ D.which self.old.disk }
    {
        let mut undo = UndoList::list_new(alloc);
        match run_batch(alloc, &mut self.tables, &self.schema, batch, &mut undo) {
            Ok(replies) => self.settle(alloc, &mut undo, replies),
            Err(_) => Outcome::NoMemory,
        }
    }
}

impl<D: Disk> Book<D> {
    // Writes what a batch changed as one record, or takes it back, and says what came of the batch.
    // These are its changes, and the replies to it.
    fn settle(&mut self, alloc: Global, undo: &mut UndoList, replies: Replies) -> Outcome
        requires undoable { AreUndoable (since 0 undo.old.entries) self.old.tables }
        requires lower { NoneLower (before_all undo.old.entries self.old.tables).tables
            (rows self.old).tables }
        requires kept { D.tells
            → IsKept D.seen D.may_leave (book_before undo.old.entries self.old) }
        ensures { Settles D.tells D.seen D.may_leave D.moment D.left_at D.fault_count D.which
            replies.parts (book_before undo.old.entries self.old) (rows self.old) result self.new }
    {
        match commit(alloc, &self.tables, undo, &mut self.journal, &mut self.disk) {
            Ok(false) => Outcome::Done(replies),
            Ok(true) => {
                self.make_room(alloc);
                Outcome::Done(replies)
            }
            Err(fault) => {
                self.tables.undo_to(undo, 0);
                match fault {
                    Fault::Disk => Outcome::DiskFault,
                    Fault::NoMemory => Outcome::NoMemory,
                }
            }
        }
    }

    // Rotates the journal's segment where it is full.
    fn make_room(&mut self, alloc: Global)
        requires kept { D.tells → IsKept D.seen D.may_leave self.old }
        requires quiet { is_due self.old.journal ≡ false }
        ensures tables { self.new.tables ≡ self.old.tables }
        ensures place { place self.new ≡ place self.old }
        ensures log { self.new.log_max ≡ self.old.log_max }
        ensures any_moment { D.tells → LeavesOnly D.moment D.left_at self.old.disk self.new.disk
            (ShowsBook self.old) }
        ensures again { D.tells → AllImages (ShowsBook self.new) (D.may_leave self.new.disk) }
        ensures kept { D.tells → IsKept D.seen D.may_leave self.new }
        ensures later { D.fault_count self.old.disk ≤ D.fault_count self.new.disk }
        ensures same { D.which self.new.disk ≡ D.which self.old.disk }
    {
        if self.journal.since_area() < self.log_max {
            return;
        }
        let _ = self.rotate(alloc);
    }

    /// Writes all rows into the journal, in place of the records that led to them. The rows and
    /// their place stay, whatever comes of it.
    pub fn rotate(&mut self, alloc: Global) -> Rotated
        requires kept { D.tells → IsKept D.seen D.may_leave self.old }
        ensures tables { self.new.tables ≡ self.old.tables }
        ensures place { place self.new ≡ place self.old }
        ensures log { self.new.log_max ≡ self.old.log_max }
        ensures emptied { IfRotated result (self.new.journal.since ≡ 0) }
        ensures quiet { IfRotated result (is_due self.new.journal ≡ false) }
        ensures uncalled { IfNoRotation result (self.new ≡ self.old) }

        // What a crash leaves, at each moment of the call and behind it.
        ensures any_moment { D.tells → (other : Database) (number : ℕ)
            → IsKeptBeside D.seen D.may_leave other number self.old
            → LeavesOnly D.moment D.left_at self.old.disk self.new.disk
            (ShowsEither self.old other number) }
        ensures again { D.tells → (other : Database) (number : ℕ)
            → IsKeptBeside D.seen D.may_leave other number self.old
            → AllImages (ShowsEither self.old other number) (D.may_leave self.new.disk) }
        ensures shows { D.tells → IfRotated result
            (AllImages (ShowsBook self.new) (D.may_leave self.new.disk)) }
        ensures kept { D.tells → IsKept D.seen D.may_leave self.new }
        ensures kept_back { D.tells → (other : Database) (number : ℕ)
            → IsKeptBeside D.seen D.may_leave other number self.old
            → IsKeptBeside D.seen D.may_leave other number self.new
            ⊎ IsKeptBeside D.seen D.may_leave (rows self.old) (place self.old) self.new }
        ensures later { D.fault_count self.old.disk ≤ D.fault_count self.new.disk }
        ensures fault { IfRotationFault result
            (Rose (D.fault_count self.old.disk) (D.fault_count self.new.disk)) }
        ensures same { D.which self.new.disk ≡ D.which self.old.disk }
    {
        let mut segment = Vec::new(alloc);
        let Ok(()) = push_area(&self.tables, self.journal.records(), &mut segment) else {
            return Rotated::NoMemory;
        };
        match self.journal.rotate(&mut self.disk, &segment) {
            Ok(()) => Rotated::Done,
            Err(_) => Rotated::DiskFault,
        }
    }
}

impl<D> Book<D> {
    /// The rows as they are.
    pub fn tables(&self) -> &Tables
        ensures { result.now ≡ self.now.tables }
    {
        &self.tables
    }

    /// How many batches have changed a table, in all the life of the journal.
    pub fn place(&self) -> u64
        ensures { result ≡ place self.now }
    {
        self.journal.records()
    }

    /// How many of them stand behind the rows that the journal's segment begins with.
    pub fn since_area(&self) -> u64
        ensures { result ≡ self.now.journal.since }
    {
        self.journal.since_area()
    }

    /// How many bytes the rows may fill.
    pub fn bytes_max(&self) -> u64
        ensures { result ≡ self.now.tables.bytes_max }
    {
        self.tables.bytes_max()
    }

    /// The disk, which is all that is left of the book.
    pub fn close(self) -> D
        ensures { result ≡ self.disk }
    {
        self.disk
    }
}
