//! The words of the contracts, worked at a table with one row.
ghost use Rattle.std.specs.Prelude.{◌≡◌, ◌^◌, [], ◌∷◌, codes, Some, None, Ok, pos};
ghost use Rattle.row_types.specs.declared.values.Value.TheVariants as values;
ghost use Rattle.row_types.specs.Valid.{IsValid};
ghost use Rattle.request_types.specs.declared.codes.Code.TheVariants as refused;
ghost use Rattle.row_insert.specs.Refusal.{refusal_of};
ghost use Rattle.row_insert.specs.declared.inserts.Inserted.TheVariants.{Done, Refused};
ghost use Rattle.row_insert.specs.Draw.{coming_to};
ghost use Rattle.row_insert.specs.Insert.{new_row, insert_answer};
ghost use Rattle.row_insert.specs.Examples.{people, people_columns, person, one_person, insert_of, numbered_columns, numbered_rows, one_numbered};

/// The rows that inserts make.
pub fn worked_rows()
    ensures valid { IsValid people }
    ensures presets { new_row people_columns (insert_of (0 ∷ []) (values.Int (pos 7) ∷ []))
        ≡ values.Int (pos 7) ∷ values.Null ∷ values.Int (pos 0) ∷ [] }
    ensures by_number { new_row people_columns
        (insert_of (2 ∷ 0 ∷ []) (values.Null ∷ values.Int (pos 7) ∷ []))
        ≡ values.Int (pos 7) ∷ values.Null ∷ values.Null ∷ [] }
{}

/// Why rows are refused beside the person of 87 bytes, where no more fit.
pub fn worked_refusals()
    ensures fine { refusal_of (one_person 174) 0 (person 2 (codes "bob") 5) None ≡ None }
    ensures a_byte_too_many { refusal_of (one_person 173) 0 (person 2 (codes "bob") 5) None
        ≡ Some refused.Full }
    ensures dup_before_full { refusal_of (one_person 0) 0 (person 1 (codes "bob") 5) None
        ≡ Some refused.Dup }
    ensures dup_name { refusal_of (one_person 0) 0 (person 2 (codes "ann") 5) None
        ≡ Some refused.Dup }
    ensures null_before_dup { refusal_of (one_person 0) 0
        (values.Null ∷ values.Text (codes "ann") ∷ values.Int (pos 5) ∷ []) None
        ≡ Some refused.Null }
    ensures long_before_null { refusal_of (one_person 0) 0
        (values.Null ∷ values.Text (codes "alice") ∷ values.Null ∷ []) None ≡ Some refused.Value }
    // In its own place a row is no clash, and one that does not grow is never too large.
    ensures instead { refusal_of (one_person 0) 0 (person 1 (codes "ann") 6)
        (Some (record { 0 = 0 })) ≡ None }
{}

/// The rows that come to a table with a counted column, and what their inserts are answered.
pub fn worked_draws()
    ensures valid { IsValid numbered_rows }
    ensures omitted { coming_to (one_numbered 2) 0
        (new_row numbered_columns (insert_of (1 ∷ []) (values.Int (pos 9) ∷ [])))
        ≡ Ok (record {
          row = values.Int (pos 2) ∷ values.Int (pos 9) ∷ [];
          number = Some (pos 2);
        }) }
    ensures nought { coming_to (one_numbered 11) 0 (values.Int (pos 0) ∷ values.Null ∷ [])
        ≡ Ok (record { row = values.Int (pos 11) ∷ values.Null ∷ []; number = Some (pos 11) }) }
    ensures given { coming_to (one_numbered 2) 0 (values.Int (pos 10) ∷ values.Null ∷ [])
        ≡ Ok (record { row = values.Int (pos 10) ∷ values.Null ∷ []; number = None }) }
    ensures answered { insert_answer (one_numbered 2) 0
        (coming_to (one_numbered 2) 0 (values.Null ∷ values.Null ∷ [])) ≡ Done (Some (pos 2)) }
    ensures the_last { insert_answer (one_numbered 9223372036854775807) 0
        (coming_to (one_numbered 9223372036854775807) 0 (values.Null ∷ values.Null ∷ []))
        ≡ Done (Some (pos 9223372036854775807)) }
    ensures none_left { insert_answer (one_numbered (2 ^ 63)) 0
        (coming_to (one_numbered (2 ^ 63)) 0 (values.Null ∷ values.Null ∷ [])) ≡ Refused 18 }
    // A number that is given needs none that is left.
    ensures clash_before_all { insert_answer (one_numbered (2 ^ 63)) 0
        (coming_to (one_numbered (2 ^ 63)) 0 (values.Int (pos 1) ∷ values.Null ∷ []))
        ≡ Refused 16 }
{}
