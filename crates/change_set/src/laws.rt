//! What holds of sets of changes and their bytes.
ghost use Rattle.std.specs.Prelude.{◌≡◌, ◌≢◌, ℕ, ◌<◌, ◌^◌, Ok, Err, List, length, take, [], ◌∷◌, ◌++◌};
ghost use Rattle.row_types.specs.declared.tables.Schema.{Schema};
ghost use Rattle.row_types.specs.Valid.{IsValid};
ghost use Rattle.table_rows.specs.Examples.{numbered};
ghost use Rattle.table_rows.specs.Database.{Database, empty_database};
ghost use Rattle.change_set.specs.declared.change.Change.{Change};
ghost use Rattle.change_set.specs.Fitting.{AreChanges, AreValuesHeld};
ghost use Rattle.change_set.specs.Forms.{DeletesNone};
ghost use Rattle.change_set.specs.Net.{changes};
ghost use Rattle.change_set.specs.Payload.{payload};
ghost use Rattle.change_set.specs.Putting.{put, IsValidDatabase, Applies, NoneLower};
ghost use Rattle.change_set.specs.Reading.{set_of, area_set};
ghost use Rattle.change_set.specs.Examples.{first_row, first_payload, gone_row};

/// A set, its payload, and what is wrong with bytes that are none.
pub fn worked_payloads()
    ensures spelled { payload first_row ≡ first_payload }
    ensures read { set_of (numbered 1).schema first_payload ≡ Ok first_row }
    ensures cut_short { set_of (numbered 1).schema (take 3 first_payload) ≡ Err 0 }
    ensures cut { set_of (numbered 1).schema (take 35 first_payload) ≡ Err 25 }
    ensures too_long { set_of (numbered 1).schema (first_payload ++ 0 ∷ []) ≡ Err 36 }
    ensures no_change { set_of (numbered 1).schema (payload []) ≡ Err 0 }
    ensures empty_area { area_set (numbered 1).schema (payload []) ≡ Ok [] }
    ensures deleting { area_set (numbered 1).schema (payload gone_row) ≡ Err 4 }
{}

/// Net changes, put on the tables that they lead from, make those that they lead to.
pub fn net_changes_lead_on()
    ensures { (before after : Database) → IsValidDatabase before → IsValidDatabase after
        → after.schema ≡ before.schema → after.bytes_max ≡ before.bytes_max
        → put before (changes before after) ≡ after }
{}

/// There is no net change exactly where nothing changed.
pub fn no_net_change_where_nothing_changed()
    ensures none { (tables : Database) → changes tables tables ≡ [] }
    ensures same { (before after : Database) → IsValidDatabase before → IsValidDatabase after
        → after.schema ≡ before.schema → after.bytes_max ≡ before.bytes_max
        → changes before after ≡ [] → after ≡ before }
{}

/// Net changes apply to the tables that they lead from, where no counter has gone down.
pub fn net_changes_apply()
    ensures { (before after : Database) → IsValidDatabase before → IsValidDatabase after
        → after.schema ≡ before.schema → after.bytes_max ≡ before.bytes_max
        → NoneLower before.tables after.tables → Applies before (changes before after) }
{}

/// The payload of net changes between valid tables has fewer than 2 ^ 32 bytes.
pub fn payloads_are_short()
    ensures { (before after : Database) → IsValidDatabase before → IsValidDatabase after
        → length (payload (changes before after)) < 2 ^ 32 }
{}

/// Net changes fit the schema of the tables, if their integers have 64 bits.
pub fn net_changes_fit()
    ensures { (before after : Database) → IsValidDatabase before → IsValidDatabase after
        → after.schema ≡ before.schema → AreValuesHeld (changes before after)
        → AreChanges before.schema (changes before after) }
{}

/// Changes that fit a schema are read again, in a payload where there are any, and in an area where
/// they delete nothing.
pub fn payloads_are_read_again()
    ensures payload { (schema : Schema) (set : List Change) → IsValid schema
        → AreChanges schema set → set ≢ [] → set_of schema (payload set) ≡ Ok set }
    ensures area { (schema : Schema) (set : List Change) → IsValid schema
        → AreChanges schema set → DeletesNone set → area_set schema (payload set) ≡ Ok set }
    // What empty tables are made of deletes nothing.
    ensures of_empty { (schema : Schema) (bytes_max : ℕ) (db : Database)
        → DeletesNone (changes (empty_database schema bytes_max) db) }
{}
