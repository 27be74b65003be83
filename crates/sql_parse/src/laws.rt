//! The rules of reading by examples.
ghost use Rattle.std.specs.Prelude.{◌≡◌, ℕ, pos, negsuc, List, [], ◌∷◌, codes, Some, None, Ok, Err};
ghost use Rattle.row_types.specs.declared.values.Value.TheVariants as values;
ghost use Rattle.request_types.specs.declared.filters.FilterOp.TheVariants.{Equal, Less};
ghost use Rattle.sql_value.specs.declared.exprs.ArithOp.TheVariants.{Product};
ghost use Rattle.sql_value.specs.declared.exprs.Expr.TheVariants as exprs;
ghost use Rattle.request_types.specs.declared.codes.Code.TheVariants as codes_of;
ghost use Rattle.sql_parse.specs.Names.{nowhere};
ghost use Rattle.sql_parse.specs.Reading.{parse_of};
ghost use Rattle.sql_parse.specs.Statements.{value, condition, statement};
ghost use Rattle.sql_parse.specs.Examples.{some_columns, some_schema, number, text, id, n, minus, selected, inserted};

/// Values: what binds first, and what a literal is.
pub fn values_by_examples()
    ensures from_the_left { value some_columns 0 (codes "1-2-3")
        ≡ Some (minus (minus (number 1) (number 2)) (number 3), []) }
    ensures products_first { value some_columns 0 (codes "1-2*3")
        ≡ Some (minus (number 1) (exprs.Arith Product (number 2) (number 3)), []) }
    ensures parentheses_before { value some_columns 0 (codes "1-(2-3)")
        ≡ Some (minus (number 1) (minus (number 2) (number 3)), []) }
    ensures least { value some_columns 0 (codes "-9223372036854775808")
        ≡ Some (exprs.Literal (values.Int (negsuc 9223372036854775807)), []) }
    ensures too_large { value some_columns 0 (codes "9223372036854775808") ≡ None }
    ensures signs { value some_columns 0 (codes "- -5")
        ≡ Some (exprs.Negate (exprs.Literal (values.Int (negsuc 4))), []) }
    ensures quotes { value some_columns 0 (codes "'it''s'") ≡ Some (text (codes "it's"), []) }
    ensures escapes { value some_columns 0 (codes "'\\0\\\\'") ≡ Some (text (0 ∷ 92 ∷ []), []) }
    ensures no_escape { value some_columns 0 (codes "'\\x'") ≡ None }
    ensures digits { value some_columns 0 (codes "X'4a6F'") ≡ Some (text (codes "Jo"), []) }
    ensures no_name { value some_columns 0 (codes "1x") ≡ None }
{}

/// Conditions: AND before OR, NOT before both.
pub fn conditions_by_examples()
    ensures and_before_or { condition some_columns (codes "id=1 OR id=2 AND n=3")
        ≡ Some (
          exprs.Or (exprs.Compare Equal id (number 1))
              (exprs.And (exprs.Compare Equal id (number 2)) (exprs.Compare Equal n (number 3))),
          [],
        ) }
    ensures not_before_and { condition some_columns (codes "NOT n<3 AND id=1")
        ≡ Some (
          exprs.And (exprs.Not (exprs.Compare Less n (number 3)))
              (exprs.Compare Equal id (number 1)),
          [],
        ) }
    ensures not_in { condition some_columns (codes "id NOT IN (1,2)")
        ≡ Some (exprs.Not (exprs.InList id (number 1 ∷ number 2 ∷ [])), []) }
    ensures is_not_null { condition some_columns (codes "n IS NOT NULL")
        ≡ Some (exprs.Not (exprs.IsNull n), []) }
    ensures no_value { condition some_columns (codes "n") ≡ None }
{}

/// Lines: the statement that is read, whatever it names, or nothing.
pub fn lines_by_examples()
    ensures all_columns { statement some_schema (codes "SELECT * FROM t;")
        ≡ Some (selected 0 (id ∷ exprs.Column 1 ∷ n ∷ []) None, []) }
    ensures any_case { statement some_schema (codes "sElEcT ID FrOm test.t")
        ≡ Some (selected 0 (id ∷ []) None, []) }
    ensures offset_first { statement some_schema (codes "SELECT n FROM t LIMIT 2, 7")
        ≡ Some (selected 0 (n ∷ []) (Some (record { offset = 2; count = 7 })), []) }
    ensures offset_last { statement some_schema (codes "SELECT n FROM t LIMIT 7 OFFSET 2")
        ≡ Some (selected 0 (n ∷ []) (Some (record { offset = 2; count = 7 })), []) }
    ensures no_condition { statement some_schema (codes "SELECT x FROM t WHERE") ≡ None }
    ensures two_tables { statement some_schema (codes "SELECT x FROM u")
        ≡ Some (selected nowhere (exprs.Column nowhere ∷ []) None, []) }
    ensures few_cells { statement some_schema (codes "INSERT t VALUES (1)") ≡ None }
    ensures nobody_counts { statement some_schema (codes "INSERT x VALUES (1)")
        ≡ Some (inserted nowhere [] (number 1 ∷ []), []) }
{}

/// Refusals: what is no statement comes first, then what names nothing, then kinds.
pub fn refusals_by_examples()
    ensures syntax_before_name { parse_of some_schema (codes "SELECT x FROM nobody WHERE")
        ≡ Err codes_of.Syntax }
    ensures no_table { parse_of some_schema (codes "SELECT n FROM nobody") ≡ Err codes_of.Name }
    ensures two_tables { parse_of some_schema (codes "SELECT n FROM u") ≡ Err codes_of.Name }
    ensures listed_twice { parse_of some_schema (codes "INSERT t(id,ID) VALUES (1,'a')")
        ≡ Err codes_of.Name }
    ensures column_in_a_group { parse_of some_schema (codes "INSERT t(id) VALUES (n)")
        ≡ Err codes_of.Name }
    ensures name_before_kind { parse_of some_schema (codes "SELECT x+name FROM t")
        ≡ Err codes_of.Name }
    ensures kind { parse_of some_schema (codes "SELECT -name FROM t") ≡ Err codes_of.WrongKind }
    ensures none { parse_of some_schema (codes "SELECT -n FROM t")
        ≡ Ok (selected 0 (exprs.Negate n ∷ []) None) }
{}
