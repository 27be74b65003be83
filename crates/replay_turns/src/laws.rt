//! What a turn keeps to, by its definition.
ghost use Rattle.std.specs.Prelude.{◌≡◌, ◌++◌, ℕ, true, List, Some, nat_eq};
ghost use Rattle.std.specs.List.{list_any};
ghost use Rattle.row_types.specs.Valid.{are_distinct};
ghost use Rattle.row_types.specs.declared.tables.Schema.{Schema};
ghost use Rattle.line_pipeline.specs.declared.conns.Conn.{Conn};
ghost use Rattle.line_pipeline.specs.Gathered.{asked};
ghost use Rattle.table_rows.specs.Database.{Database};
ghost use Rattle.batch_answers.specs.Answers.{replies_to};
ghost use Rattle.batch_worker.specs.declared.ends.TurnEnd.TheVariants.{Done};
ghost use Rattle.batch_worker.specs.Owed.{IsServed};
ghost use Rattle.batch_worker.specs.Told.{Told, received};
ghost use Rattle.replay_turns.specs.Linked.{Linked, linked_at, with};
ghost use Rattle.replay_turns.specs.Session.{answered};
ghost use Rattle.replay_turns.specs.Owed.{turned, owed, lines_of, IsLineForEach};

/// Each line that a turn takes of a connection is answered by one line, behind all that the
/// connection was owed before. Else it is closed, and told why.
pub fn each_line_is_answered_once()
    ensures one_for_each { (schema : Schema) (db : Database) (conn : Conn)
        → IsLineForEach (lines_of conn) (replies_to db (asked schema conn)) }
    ensures behind { (schema : Schema) (db : Database) (t : Told)
        → IsServed (turned schema db t).conn
        → owed (turned schema db t) ≡ owed t ++ replies_to db (asked schema (received t).conn) }

    // Of each connection that it lists, a turn that is done makes this, on the rows that those before
    // it left.
    ensures listed { (schema : Schema) (numbers : List ℕ) (db : Database) (ls : List Linked)
        (number : ℕ) (l : Linked) → are_distinct nat_eq numbers ≡ true
        → list_any (λ other. nat_eq other number) numbers ≡ true → linked_at number ls ≡ Some l
        → (rows : Database) × (linked_at number (answered Done schema numbers db ls).1
        ≡ Some (with (turned schema rows) l)) }
{}
