//! Lines and what becomes of them, written out.
ghost use Rattle.std.specs.Prelude.{◌≡◌, [], ◌∷◌, ◌++◌, pos, negsuc, codes, Some, None, true, false};
ghost use Rattle.request_types.specs.declared.ports.Port.TheVariants.{Reading, Writing};
ghost use Rattle.row_types.specs.declared.values.Value.TheVariants.{Null, Int};
ghost use Rattle.request_types.specs.declared.finds.FindOp.TheVariants as finds;
ghost use Rattle.request_types.specs.declared.filters.FilterOp.TheVariants as tests;
ghost use Rattle.request_types.specs.declared.mods.ModKind.TheVariants as mods;
ghost use Rattle.request_types.specs.declared.requests.Request.TheVariants.{Find, Modify, Insert};
ghost use Rattle.open_index.specs.declared.requests.Resolved.TheVariants.{Reply, Opened, Authed, Ask};
ghost use Rattle.row_types.specs.declared.tables.Schema.{Schema};
ghost use Rattle.row_types.specs.Valid.{IsValid};
ghost use Rattle.open_index.specs.Open.{opened, IsNumbered};
ghost use Rattle.open_index.specs.Line.{reads};
ghost use Rattle.open_index.specs.Fits.{HandlesFit};
ghost use Rattle.open_index.specs.Examples.{people, by_id, id_column, name_column, n_column, ids, free, locked, written};

/// Lines that open an index or tell a secret.
pub fn example_states()
    ensures opens { reads people Writing [] free (codes "P\t1\ttest\tt\tPRIMARY\tid,name,n")
        ≡ (Opened, (1, by_id (id_column ∷ name_column ∷ n_column ∷ []) []) ∷ [], free) }
    ensures opens_again { written free (codes "P\t1\ttest\tt\tPRIMARY\t\tn")
        ≡ (Opened, opened ids 1 (by_id [] (n_column ∷ [])), free) }
    ensures tells { written locked (codes "A\t1\tk")
        ≡ (Authed, ids, record locked { passed = true }) }
    ensures tells_none { written free (codes "A\t1\tx")
        ≡ (Authed, ids, record free { passed = true }) }
{}

/// Lines that ask for something.
pub fn example_requests()
    ensures find { written free (codes "1\t>=\t1\t7") ≡ (
      Ask (Find (record {
        table = 0;
        index = 0;
        op = finds.GreaterEqual;
        key = Int (pos 7) ∷ [];
        within = None;
        limit = 1;
        offset = 0;
        filters = [];
        columns = 0 ∷ 1 ∷ 2 ∷ [];
      })),
      ids,
      free,
    ) }
    // LIM, IN, a filter on the second filter column, and a change that shows the rows.
    ensures whole { written free
        (codes "3\t=\t1\t9\t2\t5\t@\t0\t2\t3\t01\tW\t!=\t1\t-4\t+?\t10") ≡ (
          Ask (Modify
              (record {
                table = 0;
                index = 0;
                op = finds.Equal;
                key = Int (pos 9) ∷ [];
                within = Some (record { part = 0; values = Int (pos 3) ∷ Int (pos 1) ∷ [] });
                limit = 2;
                offset = 5;
                filters = record {
                  stop = true;
                  op = tests.NotEqual;
                  column = 0;
                  value = Int (negsuc 3);
                } ∷ [];
                columns = 0 ∷ [];
              })
              (record { kind = mods.Add; values = Int (pos 10) ∷ []; show = true })),
          ids,
          free,
        ) }
    ensures insert { written free (codes "1\t+\t2\t3\t" ++ 0 ∷ []) ≡ (
      Ask (Insert
          (record { table = 0; columns = 0 ∷ 1 ∷ []; values = Int (pos 3) ∷ Null ∷ [] })),
      ids,
      free,
    ) }
    // The values of a deletion aren't read.
    ensures deletes { written free (codes "3\t<\t1\t9\tD\tx") ≡ (
      Ask (Modify
          (record {
            table = 0;
            index = 0;
            op = finds.Less;
            key = Int (pos 9) ∷ [];
            within = None;
            limit = 1;
            offset = 0;
            filters = [];
            columns = 0 ∷ [];
          }) (record { kind = mods.Remove; values = []; show = false })),
      ids,
      free,
    ) }
{}

/// Lines that are refused: neither the open ids nor the auth change.
pub fn example_refusals()
    ensures spelling { written free (codes "1\t=\t1\t1\r") ≡ (Reply 4, ids, free) }
    ensures command { written locked (codes "x") ≡ (Reply 1, ids, locked) }
    ensures auth { written locked (codes "P") ≡ (Reply 3, ids, locked) }
    ensures key { written locked (codes "A\t1\tno") ≡ (Reply 22, ids, locked) }
    ensures twice { written free (codes "P\t9\ttest\tt\tPRIMARY\tn,n") ≡ (Reply 8, ids, free) }
    ensures operator { written free (codes "1\t?\t1\t1") ≡ (Reply 10, ids, free) }
    ensures below { written free (codes "1\t>\t1\t1\t1\t0\t@\t0\t1\t1") ≡ (Reply 12, ids, free) }
    ensures cut { written free (codes "3\t=\t1\t1\tF\t=\t0") ≡ (Reply 2, ids, free) }
    ensures text { written free (codes "1\t=\t1\t1\t+\t1\t1") ≡ (Reply 14, ids, free) }
    ensures reading { reads people Reading ids free (codes "1\t+\tx") ≡ (Reply 9, ids, free) }
{}

/// Every valid schema has numbers of 32 bits, and there are open ids that fit one.
pub fn schemas_that_fit()
    ensures numbered { (schema : Schema) → IsValid schema → IsNumbered schema }
    ensures valid { IsValid people }
    ensures ids { HandlesFit people ids }
{}
