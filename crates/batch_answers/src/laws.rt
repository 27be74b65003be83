//! What requests are answered, by examples.
ghost use Rattle.std.specs.Prelude.{◌≡◌, List, [], ◌∷◌, true, false};
ghost use Rattle.request_types.specs.declared.finds.FindOp.TheVariants.{LessEqual, GreaterEqual};
ghost use Rattle.request_types.specs.declared.mods.ModKind.TheVariants.{Update, Add, Remove};
ghost use Rattle.request_types.specs.declared.requests.Request.TheVariants.{Find, Modify, Insert};
ghost use Rattle.find_scan.specs.Examples.{int, row, find_of};
ghost use Rattle.batch_answers.specs.Replies.{code_reply, count_reply};
ghost use Rattle.request_types.specs.declared.connections.ConnId.{ConnId};
ghost use Rattle.request_types.specs.declared.batches.Item.{Item};
ghost use Rattle.request_types.specs.declared.batches.ItemKind.{ItemKind};
ghost use Rattle.table_rows.specs.Database.{Database};
ghost use Rattle.batch_answers.specs.Answers.{request_answered, answered, answers, replies_for, items_for, IsReply, AreLines};
ghost use Rattle.batch_answers.specs.Examples.{rows_within, four, showing, change_by, insert_of};

/// Requests on the rows (1, a, 4), (2, b, 4), (3, c, 4) and (4, d, 6), by id or by the last number.
pub fn worked_answers()
    // 0 1 3 2
    ensures find { request_answered (rows_within 0 four)
        (Find (showing (0 ∷ []) (find_of 1 LessEqual 4 2 0)))
        ≡ (48 ∷ 9 ∷ 49 ∷ 9 ∷ 51 ∷ 9 ∷ 50 ∷ 10 ∷ [], rows_within 0 four) }
    ensures added { request_answered (rows_within 0 four)
        (Modify (showing (2 ∷ []) (find_of 0 GreaterEqual 3 9 0)) (change_by Add (int 1 ∷ []) false))
        ≡ (
          count_reply 2,
          rows_within 0
              (row 1 97 4 ∷ row 2 98 4 ∷ row 3 99 5 ∷ row 4 100 7 ∷ []),
        ) }
    // 0 1 4 6: the rows from before the change.
    ensures shown { request_answered (rows_within 0 four)
        (Modify (showing (2 ∷ []) (find_of 0 GreaterEqual 3 9 0)) (change_by Add (int 1 ∷ []) true))
        ≡ (
          48 ∷ 9 ∷ 49 ∷ 9 ∷ 52 ∷ 9 ∷ 54 ∷ 10 ∷ [],
          rows_within 0
              (row 1 97 4 ∷ row 2 98 4 ∷ row 3 99 5 ∷ row 4 100 7 ∷ []),
        ) }
    // The first row becomes 9, and the second would.
    ensures refused { request_answered (rows_within 0 four)
        (Modify (showing (0 ∷ []) (find_of 0 GreaterEqual 3 9 0)) (change_by Update (int 9 ∷ []) false))
        ≡ (code_reply 16, rows_within 0 four) }
    // A row keeps its name when its key changes: each is moved once.
    ensures moved { request_answered (rows_within 0 four)
        (Modify (showing (0 ∷ []) (find_of 0 LessEqual 4 9 0)) (change_by Add (int 1 ∷ []) false))
        ≡ (
          count_reply 4,
          rows_within 0
              (row 2 97 4 ∷ row 3 98 4 ∷ row 4 99 4 ∷ row 5 100 6 ∷ []),
        ) }
    ensures removed { request_answered (rows_within 0 four)
        (Modify (showing (0 ∷ []) (find_of 0 LessEqual 2 9 0)) (change_by Remove [] false))
        ≡ (count_reply 2, rows_within 0 (row 3 99 4 ∷ row 4 100 6 ∷ [])) }
    ensures barred { request_answered (rows_within 0 four)
        (Insert (insert_of (0 ∷ 2 ∷ []) (int 1 ∷ int 7 ∷ [])))
        ≡ (code_reply 16, rows_within 0 four) }
    ensures full { request_answered (rows_within 0 four)
        (Insert (insert_of (0 ∷ 2 ∷ []) (int 0 ∷ int 7 ∷ [])))
        ≡ (code_reply 19, rows_within 0 four) }
{}

/// Each item is answered by one line, and each connection by as many lines as it has items.
pub fn items_are_answered_by_lines()
    ensures each { (db : Database) (kind : ItemKind) → IsReply (answered db kind).0 }
    ensures of_a_connection { (db : Database) (items : List Item) (id : ConnId)
        → AreLines (replies_for id (answers db items)) (items_for id items) }
{}
