//! What holds of the tables that a journal shows.
ghost use Rattle.std.specs.Prelude.{◌≡◌, ◌≢◌, ◌<◌, ◌+◌, ◌^◌, ℕ, List, [], length};
ghost use Rattle.row_types.specs.declared.tables.Schema.{Schema};
ghost use Rattle.table_rows.specs.Database.{Database};
ghost use Rattle.change_set.specs.declared.change.Change.{Change};
ghost use Rattle.change_set.specs.Fitting.{AreValuesHeld};
ghost use Rattle.change_set.specs.Net.{changes};
ghost use Rattle.change_set.specs.Payload.{payload};
ghost use Rattle.change_set.specs.Putting.{IsValidDatabase, NoneLower};
ghost use Rattle.check_point.specs.Area.{Makes, segment_of};
ghost use Rattle.redo_journal.specs.Bytes.{FitsLength};
ghost use Rattle.redo_journal.specs.Image.{Contents, added, area_alone};
ghost use Rattle.redo_journal.specs.Root.{IsRoot};
ghost use Rattle.redo_journal.specs.Segment.{IsSegment};
ghost use Rattle.redo_journal.specs.declared.refusal.Refusal.{Refusal};
ghost use Rattle.redo_journal.specs.declared.refusal.Refusal.TheVariants.{OtherSchema, Damaged};
ghost use Rattle.table_recovery.specs.Shown.{Leads, Shows, ImageShows};
ghost use Rattle.table_recovery.specs.Answers.{RefusesTables, IsOfBytes};

/// Contents show one pair of tables and a number at most, and so does an image.
pub fn an_image_shows_one_thing()
    ensures contents { (schema : Schema) (bytes_max : ℕ) (contents : Contents)
        (db other : Database) (place number : ℕ) → Shows schema bytes_max contents db place
        → Shows schema bytes_max contents other number → (db ≡ other) × (place ≡ number) }
    ensures image { (schema : Schema) (bytes_max : ℕ) (image : List ℕ)
        (db other : Database) (place number : ℕ) → ImageShows schema bytes_max db place image
        → ImageShows schema bytes_max other number image → (db ≡ other) × (place ≡ number) }
{}

/// What contents show, a record behind them leads on.
pub fn a_record_leads_on()
    ensures { (schema : Schema) (bytes_max : ℕ) (contents : Contents) (db after : Database)
        (place : ℕ) (bytes : List ℕ) → Shows schema bytes_max contents db place
        → Leads db bytes after
        → Shows schema bytes_max (added contents bytes) after (place + 1) }
{}

/// An area alone shows what it makes, with the number of the records before it. What `push_area`
/// writes is a segment of the journal.
pub fn segments_are_shown()
    ensures shows { (schema : Schema) (bytes_max : ℕ) (area : List ℕ) (db : Database)
        (number : ℕ) → Makes schema bytes_max area db
        → Shows schema bytes_max (area_alone number area) db number }
    ensures segment { (number : ℕ) (area : List ℕ) → number < 2 ^ 64 → FitsLength area
        → IsSegment number area (segment_of number area) }
{}

/// The payload of net changes leads from the tables before to those after, and a journal takes it
/// as a record.
pub fn net_changes_lead()
    ensures leads { (before after : Database) → IsValidDatabase before → IsValidDatabase after
        → after.schema ≡ before.schema → after.bytes_max ≡ before.bytes_max
        → NoneLower before.tables after.tables → AreValuesHeld (changes before after)
        → changes before after ≢ [] → Leads before (payload (changes before after)) after }
    ensures short { (before after : Database) → IsValidDatabase before → IsValidDatabase after
        → length (payload (changes before after)) < 2 ^ 32 }
    // The payload of no set has the form of a journal's root.
    ensures no_root { (set : List Change) → IsRoot (payload set) → ⊥ }
{}

/// An image is refused for one reason, and damaged at one gate. One that shows tables isn't
/// refused, unless its records have a number from 2^63 on, behind which no journal is opened.
pub fn an_image_is_refused_at_one_place()
    ensures place { (schema : Schema) (bytes_max : ℕ) (image : List ℕ) (place other : ℕ)
        → RefusesTables schema bytes_max image (Damaged place)
        → RefusesTables schema bytes_max image (Damaged other) → place ≡ other }
    ensures reason { (schema : Schema) (bytes_max : ℕ) (image : List ℕ) (place : ℕ)
        → RefusesTables schema bytes_max image OtherSchema
        → RefusesTables schema bytes_max image (Damaged place) → ⊥ }
    ensures no_tables { (schema : Schema) (bytes_max : ℕ) (image : List ℕ) (refusal : Refusal)
        (db : Database) (number : ℕ) → RefusesTables schema bytes_max image refusal
        → IsOfBytes refusal → ImageShows schema bytes_max db number image
        → number < 2 ^ 63 → ⊥ }
{}
