//! The plans of some conditions.
ghost use Rattle.std.specs.Prelude.{◌≡◌, [], ◌∷◌, Some, None, pos};
ghost use Rattle.request_types.specs.declared.filters.FilterOp.TheVariants as ops;
ghost use Rattle.table_rows.specs.declared.edge.Edge.TheVariants.{Open, With, Without};
ghost use Rattle.sql_value.specs.declared.exprs.ArithOp.TheVariants.{Sum};
ghost use Rattle.sql_value.specs.declared.exprs.Expr.TheVariants.{Literal, Arith, And};
ghost use Rattle.sql_plan.specs.declared.plans.Plan.TheVariants.{Whole, Range};
ghost use Rattle.sql_plan.specs.Plans.{plan_of};
ghost use Rattle.sql_plan.specs.Examples.{some_indexes, int, compared_with, id, n};

/// Conditions on a table whose primary key is `id`, with an index by `n`.
pub fn plans_of_examples()
    // id = 2 AND n > 1
    ensures by_key { plan_of (Some (And (compared_with ops.Equal id 2)
        (compared_with ops.Greater n 1))) some_indexes
        ≡ Range 0 (With (int 2 ∷ [])) (With (int 2 ∷ [])) }
    // n > 3
    ensures from_a_bound { plan_of (Some (compared_with ops.Greater n 3)) some_indexes
        ≡ Range 1 (Without (int 3 ∷ [])) Open }
    // n + 1 > 3
    ensures calculated { plan_of (Some (compared_with ops.Greater (Arith Sum n (Literal (int 1))) 3))
        some_indexes ≡ Whole }
    ensures without_condition { plan_of None some_indexes ≡ Whole }
{}
