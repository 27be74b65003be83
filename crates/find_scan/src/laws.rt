//! Which rows finds select, by examples.
ghost use Rattle.std.specs.Prelude.{◌≡◌, [], ◌∷◌, true, false};
ghost use Rattle.request_types.specs.declared.finds.FindOp.TheVariants.{Equal, GreaterEqual, LessEqual};
ghost use Rattle.request_types.specs.declared.filters.FilterOp.TheVariants as ops;
ghost use Rattle.find_scan.specs.Select.{selected, slots_of};
ghost use Rattle.find_scan.specs.Examples.{int, slot, four_rows, find_of, filtered, listed};

/// Finds on the rows (1, a, 4), (2, b, 4), (3, c, 4) and (4, d, 6) in the slots 0 to 3, by id or by
/// the last number.
pub fn finds_of_examples()
    // `<=` descends throughout: the last of the equal rows comes first.
    ensures descends { slots_of (selected four_rows (find_of 1 LessEqual 4 2 0))
        ≡ slot 2 ∷ slot 1 ∷ [] }
    // A repeat in a list is passed over, and the offset counts over the whole.
    ensures listed_once { slots_of (selected four_rows
        (listed (record { part = 0; values = int 3 ∷ int 1 ∷ int 3 ∷ [] }) (find_of 0 Equal 9 2 1)))
        ≡ slot 0 ∷ [] }
    ensures passed_over { slots_of (selected four_rows
        (filtered (record { stop = false; op = ops.NotEqual; column = 0; value = int 2 } ∷ [])
        (find_of 0 GreaterEqual 1 10 0))) ≡ slot 0 ∷ slot 2 ∷ slot 3 ∷ [] }
    ensures ended { slots_of (selected four_rows
        (filtered (record { stop = true; op = ops.NotEqual; column = 0; value = int 2 } ∷ [])
        (find_of 0 GreaterEqual 1 10 0))) ≡ slot 0 ∷ [] }
    // The first filter that a row fails decides.
    ensures first_decides { slots_of (selected four_rows
        (filtered (record { stop = false; op = ops.Equal; column = 2; value = int 4 }
        ∷ record { stop = true; op = ops.NotEqual; column = 0; value = int 3 } ∷ [])
        (find_of 0 GreaterEqual 1 10 0))) ≡ slot 0 ∷ slot 1 ∷ [] }
{}
