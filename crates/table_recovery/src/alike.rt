//! Disks of which all images show the same.
ghost use Rattle.std.specs.Prelude.{ℕ};
ghost use Rattle.row_types.specs.declared.tables.Schema.{Schema};
ghost use Rattle.table_rows.specs.Database.{Database, empty_database};
ghost use Rattle.hs_disk.specs.Disk.{AllImages};
ghost use Rattle.hs_schema.specs.Spelling.{spelled};
ghost use Rattle.redo_journal.specs.Image.{Contents, IsFresh, Journals};
ghost use Rattle.table_recovery.specs.Shown.{Shows, AllShow};

use hs_disk::Disk;

/// All images of a disk that nothing was written to show empty tables and no record. Those of a
/// journal with some contents show what these show.
pub fn all_images_show_alike<D: Disk>(_disk: &D)
    ensures new { (schema : Schema) (bytes_max : ℕ) → AllImages IsFresh (D.may_leave _disk.now)
        → AllShow schema bytes_max (empty_database schema bytes_max) 0 (D.seen _disk.now)
        (D.may_leave _disk.now) }
    ensures begun { (schema : Schema) (bytes_max : ℕ) (contents : Contents) (db : Database)
        (place : ℕ) → Shows schema bytes_max contents db place
        → D.may_leave _disk.now (D.seen _disk.now)
        → AllImages (Journals (spelled schema) contents) (D.may_leave _disk.now)
        → AllShow schema bytes_max db place (D.seen _disk.now) (D.may_leave _disk.now) }
{}
