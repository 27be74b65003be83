//! What is spelled is read.
ghost use Rattle.std.specs.Prelude.{◌≡◌, ◌++◌, ℕ, List, [], ◌∷◌, codes, true, Some, None, Ok};
ghost use Rattle.row_types.specs.declared.tables.Schema.{Schema};
ghost use Rattle.row_types.specs.Valid.{IsValid};
ghost use Rattle.sql_value.specs.declared.statements.Statement.{Statement};
ghost use Rattle.sql_value.specs.declared.statements.Statement.TheVariants.{Delete};
ghost use Rattle.sql_value.specs.Fits.{StatementFits};
ghost use Rattle.sql_parse.specs.Reading.{parse_of};
ghost use Rattle.sql_parse.specs.Spelling.{StatementHasText, expression, spelled};
ghost use Rattle.sql_parse.specs.Examples.{some_columns, some_schema, number, id, minus};

/// The line of a statement that fits the schema is read as that statement. So each such statement
/// has a line, and no two have the same.
pub fn what_is_spelled_is_read()
    ensures { (schema : Schema) (s : Statement) → IsValid schema → StatementFits schema s
        → StatementHasText s → parse_of schema (spelled schema s) ≡ Ok s }
{}

/// How lines look.
pub fn spelled_by_examples()
    ensures operands { (rest : List ℕ) → expression some_columns (minus id (number 1)) rest
        ≡ codes "( `id` ) - ( 1 ) " ++ rest }
    ensures clauses { spelled some_schema (Delete (record {
      table = 0;
      condition = None;
      order = record { column = 2; down = true } ∷ [];
      limit = Some (record { offset = 0; count = 5 });
    })) ≡ codes "DELETE FROM `test` . `t` ORDER BY `n` DESC LIMIT 5 " }
{}
