//! What holds of all expressions, and the rules by examples.
ghost use Rattle.std.specs.Prelude.{◌≡◌, ℕ, ℤ, pos, negsuc, List, [], ◌∷◌, map};
ghost use Rattle.row_types.specs.declared.values.Value.{Value as Cell};
ghost use Rattle.row_types.specs.declared.values.Value.TheVariants.{Null, Int, Text};
ghost use Rattle.request_types.specs.declared.filters.FilterOp.{FilterOp};
ghost use Rattle.request_types.specs.declared.filters.FilterOp.TheVariants as ops;
ghost use Rattle.sql_value.specs.declared.exprs.ArithOp.{ArithOp};
ghost use Rattle.sql_value.specs.declared.exprs.ArithOp.TheVariants.{Sum, Difference, Product};
ghost use Rattle.sql_value.specs.declared.exprs.Expr.{Expr};
ghost use Rattle.sql_value.specs.declared.exprs.Expr.TheVariants as exprs;
ghost use Rattle.sql_value.specs.declared.truths.Truth.TheVariants.{Yes, No, Unknown};
ghost use Rattle.sql_value.specs.declared.worth.Evaluated.TheVariants.{Truth as TruthOf, Value as ValueOf, Overflow};
ghost use Rattle.sql_value.specs.Worth.{negated, combined, compared, null_test, opposite, both, either, cell_at};
ghost use Rattle.sql_value.specs.Eval.{eval_of, is_among};

/// What each part of an expression makes of what its operands are worth.
pub fn worth_by_parts()
    ensures literal { (row : List Cell) (value : Cell) →
        eval_of row (exprs.Literal value) ≡ ValueOf value }
    ensures column { (row : List Cell) (place : ℕ) →
        eval_of row (exprs.Column place) ≡ ValueOf (cell_at row place) }
    ensures negate { (row : List Cell) (a : Expr) →
        eval_of row (exprs.Negate a) ≡ negated (eval_of row a) }
    ensures arith { (row : List Cell) (op : ArithOp) (a b : Expr) →
        eval_of row (exprs.Arith op a b) ≡ combined op (eval_of row a) (eval_of row b) }
    ensures compare { (row : List Cell) (op : FilterOp) (a b : Expr) →
        eval_of row (exprs.Compare op a b) ≡ compared op (eval_of row a) (eval_of row b) }
    ensures is_null { (row : List Cell) (a : Expr) →
        eval_of row (exprs.IsNull a) ≡ null_test (eval_of row a) }
    ensures in_list { (row : List Cell) (a : Expr) (all : List Expr) →
        eval_of row (exprs.InList a all) ≡ is_among (eval_of row a) (map (eval_of row) all) }
    ensures negation { (row : List Cell) (a : Expr) →
        eval_of row (exprs.Not a) ≡ opposite (eval_of row a) }
    ensures both_of { (row : List Cell) (a b : Expr) →
        eval_of row (exprs.And a b) ≡ both (eval_of row a) (eval_of row b) }
    ensures either_of { (row : List Cell) (a b : Expr) →
        eval_of row (exprs.Or a b) ≡ either (eval_of row a) (eval_of row b) }
{}

/// NULL is in no sum, and no comparison with it is known.
pub fn null_by_examples()
    ensures no_sum { combined Sum (ValueOf (Int (pos 3))) (ValueOf Null) ≡ ValueOf Null }
    ensures not_equal_to_itself { compared ops.Equal (ValueOf Null) (ValueOf Null) ≡ TruthOf Unknown }
    ensures is_seen { null_test (ValueOf Null) ≡ TruthOf Yes }
    // 3 IN (3, NULL), 4 IN (3, NULL) and 4 NOT IN (3, NULL).
    ensures found_before_null { is_among (ValueOf (Int (pos 3)))
        (ValueOf (Int (pos 3)) ∷ ValueOf Null ∷ []) ≡ TruthOf Yes }
    ensures hides_the_rest { is_among (ValueOf (Int (pos 4)))
        (ValueOf (Int (pos 3)) ∷ ValueOf Null ∷ []) ≡ TruthOf Unknown }
    ensures hides_its_absence { opposite (is_among (ValueOf (Int (pos 4)))
        (ValueOf (Int (pos 3)) ∷ ValueOf Null ∷ [])) ≡ TruthOf Unknown }
    ensures false_wins { both (TruthOf Unknown) (TruthOf No) ≡ TruthOf No }
    ensures true_wins { either (TruthOf Unknown) (TruthOf Yes) ≡ TruthOf Yes }
{}

/// A number outside 64 bits is an overflow of all that it is part of.
pub fn overflow_by_examples()
    ensures greatest { combined Sum (ValueOf (Int (pos 9223372036854775807)))
        (ValueOf (Int (pos 1))) ≡ Overflow }
    ensures least { negated (ValueOf (Int (negsuc 9223372036854775807))) ≡ Overflow }
    ensures product { combined Product (ValueOf (Int (pos 4294967296)))
        (ValueOf (Int (negsuc 2147483647))) ≡ ValueOf (Int (negsuc 9223372036854775807)) }
    ensures is_not_passed_over { both (TruthOf No) (compared ops.Less Overflow
        (ValueOf (Int (pos 1)))) ≡ Overflow }
    ensures is_no_null { null_test Overflow ≡ Overflow }
    ensures in_a_list { is_among (ValueOf (Int (pos 1)))
        (ValueOf (Int (pos 1)) ∷ Overflow ∷ []) ≡ Overflow }
{}
