//! The words of the contracts, worked at a table with two rows.
ghost use Rattle.std.specs.Prelude.{◌≡◌, ◌+◌, ◌^◌, [], ◌∷◌, codes, Some, None, pos, negsuc, true, false};
ghost use Rattle.row_types.specs.declared.values.Value.TheVariants as values;
ghost use Rattle.table_rows.specs.declared.verdict.Verdict.TheVariants.{Fine, Dup, Null, Full};
ghost use Rattle.table_rows.specs.declared.undo.Undo.TheVariants.{Put, Deleted};
ghost use Rattle.table_rows.specs.Rows.{entries_of, room_of, counted_at, counter_of};
ghost use Rattle.table_rows.specs.Counters.{counter_if, next_if};
ghost use Rattle.table_rows.specs.Slots.{row_at, row_found, with_row_at, without_at};
ghost use Rattle.table_rows.specs.Sizes.{total};
ghost use Rattle.table_rows.specs.Checks.{verdict_of};
ghost use Rattle.table_rows.specs.Walks.{walk_of, keyed, slot_of, begun, gone_on};
ghost use Rattle.table_rows.specs.Widths.{with_slots};
ghost use Rattle.table_rows.specs.Undoing.{undone};
ghost use Rattle.table_rows.specs.Examples.{some_indexes, some_row, two_rows, third_row, slot_named, numbered, numbered_row};

/// What is said of a third row, where 255 bytes are just enough for it.
pub fn worked_verdicts()
    ensures fine { verdict_of (two_rows 255) 0 third_row None ≡ Fine }
    ensures a_byte_too_many { verdict_of (two_rows 254) 0 third_row None ≡ Full }
    ensures null_before_all { verdict_of (two_rows 9) 0
        (values.Int (pos 1) ∷ values.Text (codes "ab") ∷ values.Null ∷ []) None ≡ Null 2 }
    ensures the_same_key { verdict_of (two_rows 9) 0
        (some_row 1 (values.Text (codes "ab")) 9) None ≡ Dup 0 }
    ensures the_same_code { verdict_of (two_rows 9) 0
        (some_row 1 (values.Text (codes "ab")) 7) None ≡ Dup 1 }
    ensures null_twice { verdict_of (two_rows 255) 0 (some_row 3 values.Null 9) None ≡ Fine }
    // In its own place a row meets itself in no index, and one that does not grow is never too
    // large.
    ensures instead { verdict_of (two_rows 9) 0
        (some_row 2 (values.Text (codes "ab")) 7) (Some (slot_named 0)) ≡ Fine }
{}

/// What changes make of the two rows, and how they stand in each index.
pub fn worked_changes()
    ensures bytes { total (two_rows 255) ≡ 81 + 86 }
    ensures by_n { walk_of (two_rows 255) 0 2
        ≡ (some_row 2 (values.Text (codes "ab")) 5, 0) ∷ (some_row 1 values.Null 9, 1) ∷ [] }
    ensures put { entries_of (with_row_at (two_rows 255) 0 2 (some_row 0 values.Null 7)) 0
        ≡ (some_row 0 values.Null 7, 2) ∷ (some_row 1 values.Null 9, 1)
        ∷ (some_row 2 (values.Text (codes "ab")) 5, 0) ∷ [] }
    ensures replaced { entries_of (with_row_at (two_rows 255) 0 1 third_row) 0
        ≡ (some_row 2 (values.Text (codes "ab")) 5, 0) ∷ (third_row, 1) ∷ [] }
    ensures deleted { undone (Deleted 0 (slot_named 1) (some_row 1 values.Null 9))
        (without_at (two_rows 255) 0 1) ≡ two_rows 255 }
    ensures last { slot_of (gone_on false 1 (walk_of (two_rows 255) 0 2)) ≡ None }
{}

/// Which of the two rows has a key, and how many slots there are where more are asked for.
pub fn worked_keys_and_slots()
    ensures whole_key { slot_of (keyed some_indexes
        (values.Int (pos 2) ∷ values.Int (pos 5) ∷ []) (entries_of (two_rows 255) 0))
        ≡ Some (slot_named 0) }
    ensures half_a_key { slot_of (keyed some_indexes
        (values.Int (pos 1) ∷ []) (entries_of (two_rows 255) 0)) ≡ Some (slot_named 1) }
    ensures no_such_key { slot_of (keyed some_indexes
        (values.Int (pos 2) ∷ values.Int (pos 6) ∷ []) (entries_of (two_rows 255) 0)) ≡ None }
    ensures there { row_found (two_rows 255) 0 1 ≡ Some (some_row 1 values.Null 9) }
    ensures vacant { row_found (two_rows 255) 0 2 ≡ None }
    ensures at_hand { with_slots (two_rows 255) 0 1 ≡ two_rows 255 }
    ensures three_more { room_of (with_slots (two_rows 255) 0 4) 0 ≡ 6 }
{}

/// How a counter goes, from 2 on.
pub fn worked_counters()
    ensures above { counter_of (with_row_at (numbered 2) 0 1 (numbered_row (pos 10))) 0 ≡ 11 }
    ensures the_next { counter_of (with_row_at (numbered 2) 0 1 (numbered_row (pos 2))) 0 ≡ 3 }
    ensures below { counter_of (with_row_at (numbered 20) 0 1 (numbered_row (pos 10))) 0 ≡ 20 }
    ensures less_than_zero { counter_of (with_row_at (numbered 2) 0 1 (numbered_row (negsuc 4))) 0
        ≡ 2 }
    ensures a_deletion_leaves_it { counter_of (without_at (numbered 2) 0 0) 0 ≡ 2 }
    ensures taken_back { undone (Put 0 (slot_named 1) 2)
        (with_row_at (numbered 2) 0 1 (numbered_row (pos 10))) ≡ numbered 2 }
    ensures next { next_if (Some 0) 2 ≡ Some (pos 2) }
    ensures none_left { next_if (Some 0) (2 ^ 63) ≡ None }
    ensures no_counter { counter_if (counted_at (two_rows 255) 0) (counter_of (two_rows 255) 0)
        ≡ None }
{}
