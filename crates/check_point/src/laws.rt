//! What holds of areas.
ghost use Rattle.std.specs.Prelude.{◌≡◌, ℕ, List};
ghost use Rattle.row_types.specs.declared.tables.Schema.{Schema};
ghost use Rattle.table_rows.specs.Database.{Database, empty_database};
ghost use Rattle.change_set.specs.Fitting.{AreValuesHeld};
ghost use Rattle.change_set.specs.Net.{changes};
ghost use Rattle.change_set.specs.Putting.{IsValidDatabase};
ghost use Rattle.check_point.specs.Area.{Makes, area_of};

/// An area makes one database at most, and that is a valid one.
pub fn an_area_makes_one_database()
    ensures one { (schema : Schema) (bytes_max : ℕ) (area : List ℕ) (db other : Database)
        → Makes schema bytes_max area db → Makes schema bytes_max area other → db ≡ other }
    ensures valid { (schema : Schema) (bytes_max : ℕ) (area : List ℕ) (db : Database)
        → Makes schema bytes_max area db → IsValidDatabase db }
    // Valid tables whose integers have 64 bits are made by the area that is written of them.
    ensures written { (db : Database) → IsValidDatabase db
        → AreValuesHeld (changes (empty_database db.schema db.bytes_max) db)
        → Makes db.schema db.bytes_max (area_of db) db }
{}
