//! What becomes of rows, by examples.
ghost use Rattle.std.specs.Prelude.{◌≡◌, [], ◌∷◌, pos, true, false};
ghost use Rattle.row_types.specs.declared.values.Value.TheVariants.{Null, Int, Text};
ghost use Rattle.request_types.specs.declared.filters.FilterOp.{FilterOp};
ghost use Rattle.request_types.specs.declared.filters.FilterOp.TheVariants as ops;
ghost use Rattle.find_filter.specs.declared.filters.Step.TheVariants.{Keep, Skip, Stop};
ghost use Rattle.find_filter.specs.Filter.{step_of};

/// The row (4, NULL) under the filters of a line.
pub fn steps_of_examples()
    ensures no_filter { step_of (Int (pos 4) ∷ Null ∷ []) [] ≡ Keep }
    ensures null_is_null { step_of (Int (pos 4) ∷ Null ∷ [])
        (record { stop = true; op = ops.Equal; column = 1; value = Null } ∷ []) ≡ Keep }
    ensures null_first { step_of (Int (pos 4) ∷ Null ∷ [])
        (record { stop = false; op = ops.GreaterEqual; column = 1; value = Text [] } ∷ []) ≡ Skip }
    ensures stops { step_of (Int (pos 4) ∷ Null ∷ [])
        (record { stop = true; op = ops.NotEqual; column = 0; value = Int (pos 4) } ∷ []) ≡ Stop }
    // Both fail, and the first decides.
    ensures first_decides { step_of (Int (pos 4) ∷ Null ∷ [])
        (record { stop = false; op = ops.Less; column = 0; value = Int (pos 4) }
        ∷ record { stop = true; op = ops.NotEqual; column = 1; value = Null } ∷ []) ≡ Skip }
{}
