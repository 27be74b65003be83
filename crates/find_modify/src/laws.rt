//! The words of the contracts, worked at cells, at a row, and at a table with one row.
ghost use Rattle.std.specs.Prelude.{◌≡◌, [], ◌∷◌, codes, Ok, Err, pos, negsuc, false};
ghost use Rattle.row_types.specs.declared.values.Value.TheVariants.{Null, Int, Text};
ghost use Rattle.request_types.specs.declared.mods.ModKind.TheVariants.{Update, Add, Subtract, Remove};
ghost use Rattle.request_types.specs.declared.codes.Code.TheVariants as refused;
ghost use Rattle.table_rows.specs.Slots.{with_row_at, without_at};
ghost use Rattle.row_insert.specs.Examples.{person, one_person};
ghost use Rattle.find_modify.specs.Cells.{added, taken_off, changed_row};
ghost use Rattle.find_modify.specs.Change.{changed_all};

/// Sums and differences.
pub fn worked_cells()
    ensures sum { added (Int (pos 5)) (Int (pos 1)) ≡ Ok (Int (pos 6)) }
    ensures outside { added (Int (pos 9223372036854775807)) (Int (pos 1)) ≡ Err refused.Range }
    ensures null_stays { added Null (Int (pos 1)) ≡ Ok Null }
    ensures to_zero { taken_off (Int (pos 5)) (Int (pos 5)) ≡ Ok (Int (pos 0)) }
    ensures from_zero { taken_off (Int (pos 0)) (Int (pos 5)) ≡ Ok (Int (negsuc 4)) }
    // The sign would turn, also where the difference is the greatest number.
    ensures sign_turns { taken_off (Int (pos 5)) (Int (pos 6)) ≡ Ok (Int (pos 5)) }
    ensures turns_to_most { taken_off (Int (negsuc 0)) (Int (negsuc 9223372036854775807))
        ≡ Ok (Int (negsuc 0)) }
    // A cell that stays does not keep the row's other cells.
    ensures other_cells { changed_row Subtract (2 ∷ 0 ∷ []) (Int (pos 9) ∷ Int (pos 1) ∷ [])
        (person 1 (codes "ann") 5) ≡ Ok (person 0 (codes "ann") 5) }
{}

/// Changes of the one person, whose 87 bytes are all that there may be.
pub fn worked_changes()
    ensures changed { changed_all 0 (2 ∷ [])
        (record { kind = Add; values = Int (pos 1) ∷ []; show = false })
        (record { 0 = 0 } ∷ []) (one_person 87)
        ≡ Ok (with_row_at (one_person 87) 0 0 (person 1 (codes "ann") 6)) }
    ensures deleted { changed_all 0 (2 ∷ [])
        (record { kind = Remove; values = []; show = false })
        (record { 0 = 0 } ∷ []) (one_person 87) ≡ Ok (without_at (one_person 87) 0 0) }
    ensures too_long { changed_all 0 (1 ∷ [])
        (record { kind = Update; values = Text (codes "alice") ∷ []; show = false })
        (record { 0 = 0 } ∷ []) (one_person 87) ≡ Err refused.Value }
    ensures too_large { changed_all 0 (1 ∷ [])
        (record { kind = Update; values = Text (codes "anna") ∷ []; show = false })
        (record { 0 = 0 } ∷ []) (one_person 87) ≡ Err refused.Full }
{}
