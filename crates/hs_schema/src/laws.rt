//! A schema's text is read again; and table lines written out, with what they say.
ghost use Rattle.std.specs.Prelude.{◌≡◌, ◌+◌, ◌<◌, ◌^◌, ℕ, take, false, length, List, [], ◌∷◌, ◌++◌, Some, Ok, codes};
ghost use Rattle.hs_token.specs.declared.tokens.Token.{Token};
ghost use Rattle.hs_token.specs.declared.tokens.Token.TheVariants as tokens;
ghost use Rattle.hs_line.specs.Lines.{lines_of};
ghost use Rattle.row_types.specs.declared.tables.Schema.{Schema};
ghost use Rattle.row_types.specs.declared.tables.TableDef.{TableDef};
ghost use Rattle.row_types.specs.Valid.{IsTable, IsValid};
ghost use Rattle.hs_schema.specs.declared.faults.SchemaRule.{SchemaRule};
ghost use Rattle.hs_schema.specs.declared.faults.SchemaRule.TheVariants.{BadKind, DuplicateName, NoPrimary};
ghost use Rattle.hs_schema.specs.Reading.{broken, has_table, table_at};
ghost use Rattle.hs_schema.specs.Adding.{with_lines};
ghost use Rattle.hs_schema.specs.Spelling.{table_tokens, spelled};
ghost use Rattle.hs_schema.specs.Examples.{word, people_start, people_columns, people_indexes, people_line, people, numbered_columns, numbered, keyed_by, integers};

/// The lines of a valid schema's text, added one after another to no table, give its tables.
pub fn texts_are_read_again()
    ensures { (schema : Schema) → IsValid schema
        → with_lines [] (lines_of (spelled schema)) ≡ Some schema.tables }
{}

/// The text of a valid schema has fewer than 2 ^ 32 bytes.
pub fn texts_are_short()
    ensures { (schema : Schema) → IsValid schema → length (spelled schema) < 2 ^ 32 }
{}

/// A line is read only as a valid table of a new name, and each such table is read from its line.
pub fn lines_say_the_valid_tables()
    ensures valid { (tables : List TableDef) (line : List Token) (t : TableDef)
        → table_at tables line ≡ Ok t
        → IsTable t × (has_table tables t.db t.name ≡ false) × (length tables < 64) }
    ensures again { (tables : List TableDef) (t : TableDef) → IsTable t
        → has_table tables t.db t.name ≡ false → length tables < 64
        → table_at tables (table_tokens t) ≡ Ok t }
{}

/// Lines with the same tokens up to that of the first broken rule break the same rule first.
pub fn lines_are_read_from_the_left()
    ensures { (tables : List TableDef) (line other : List Token) (rule : SchemaRule) (token : ℕ)
        → table_at tables line ≡ broken rule token → token < length line
        → take (token + 1) line ≡ take (token + 1) other
        → table_at tables other ≡ broken rule token }
{}

/// A line, the table that it says, and the line of that table.
pub fn example_table()
    ensures read { table_at [] people_line ≡ Ok people }
    ensures valid { IsTable people }
    ensures spelled { table_tokens people ≡ people_line }
{}

/// Lines that break a rule, with the first that they break.
pub fn example_breaches()
    ensures second_time { table_at (people ∷ []) people_line ≡ broken DuplicateName 2 }
    ensures no_column { table_at [] people_start ≡ broken BadKind 3 }
    ensures no_index { table_at [] (people_start ++ people_columns) ≡ broken NoPrimary 18 }
    ensures column_behind_indexes { table_at [] (people_line ++ word (codes "c") ∷ [])
        ≡ broken BadKind 30 }
    ensures column_cut { table_at [] (people_start ++ word (codes "c") ∷ word (codes "id") ∷ [])
        ≡ broken BadKind 5 }
    // Of two rules at one token the kind comes first.
    ensures null_and_unknown { table_at [] (people_start ++ people_columns ++ word (codes "i")
        ∷ word (codes "PRIMARY") ∷ word (codes "primary") ∷ word (codes "nobody,name") ∷ [])
        ≡ broken BadKind 21 }
{}

/// A table with a counted column, and what such a column may not be.
pub fn example_of_counting()
    ensures read { table_at [] (people_start ++ numbered_columns ++ keyed_by (codes "id"))
        ≡ Ok numbered }
    ensures valid { IsTable numbered }
    ensures spelled { table_tokens numbered
        ≡ people_start ++ numbered_columns ++ keyed_by (codes "id") }
    ensures preset { table_at [] (people_start
        ++ integers (codes "id") (codes "auto") (word (codes "1")))
        ≡ broken BadKind 7 }
    ensures second { table_at [] (people_start ++ numbered_columns
        ++ integers (codes "w") (codes "auto") tokens.Null) ≡ broken BadKind 16 }
    ensures of_texts { table_at [] (people_start ++ word (codes "c") ∷ word (codes "id")
        ∷ word (codes "bytes:9") ∷ word (codes "auto") ∷ []) ≡ broken BadKind 6 }
    // Neither want of a primary index nor want of room is told after it.
    ensures leads_none { table_at [] (people_start ++ numbered_columns
        ++ integers (codes "w") (codes "not") tokens.Null ++ keyed_by (codes "w"))
        ≡ broken BadKind 22 }
    ensures no_primary { table_at [] (people_start ++ numbered_columns) ≡ broken NoPrimary 13 }
{}
