//! What holds of the orders, whatever is compared.
ghost use Rattle.std.specs.Prelude.{◌≡◌, [], ◌∷◌, pos};
ghost use Rattle.std.specs.declared.cmp.Ordering.TheVariants.{Less, Equal, Greater};
ghost use Rattle.std.specs.Cmp.{IsTotalOrder};
ghost use Rattle.row_types.specs.declared.values.Value.{Value};
ghost use Rattle.row_types.specs.declared.values.Value.TheVariants.{Null, Int, Text};
ghost use Rattle.row_types.specs.Order.{value_cmp, key_cmp, prefix_cmp};

/// Both orders are total, and values that compare as equal are equal.
pub fn orders_are_total()
    ensures values { IsTotalOrder value_cmp }
    ensures keys { IsTotalOrder key_cmp }
    ensures equal_values { (a b : Value) → value_cmp a b ≡ Equal → a ≡ b }
{}

/// The order by examples: NULL, 3, 7, the empty text, and a text before the texts that it begins.
pub fn orders_of_examples()
    ensures null_first { value_cmp Null (Int (pos 3)) ≡ Less }
    ensures by_number { value_cmp (Int (pos 7)) (Int (pos 3)) ≡ Greater }
    ensures integers_first { value_cmp (Int (pos 7)) (Text []) ≡ Less }
    ensures by_bytes { value_cmp (Text (97 ∷ [])) (Text (97 ∷ 0 ∷ [])) ≡ Less }
    ensures front_first { key_cmp (Int (pos 4) ∷ []) (Int (pos 4) ∷ Null ∷ []) ≡ Less }
    ensures as_many_parts { prefix_cmp (Int (pos 4) ∷ Null ∷ []) (Int (pos 4) ∷ []) ≡ Equal }
{}
