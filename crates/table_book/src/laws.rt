//! Laws of histories.
ghost use Rattle.std.specs.Prelude.{◌≡◌, ◌≢◌, ◌+◌, ℕ, suc, List, [], ◌++◌};
ghost use Rattle.request_types.specs.declared.batches.Item.{Item};
ghost use Rattle.table_rows.specs.Database.{Database};
ghost use Rattle.batch_answers.specs.Answers.{after};
ghost use Rattle.table_book.specs.declared.entry.Entry.{Entry};
ghost use Rattle.table_book.specs.Histories.{state, IsLegal, LeadsTo, with_entry};

/// Every history can begin, and goes on by each batch that changes a table. Its beginnings are
/// legal.
pub fn a_history_goes_on()
    ensures begins { (base : Database) (first : ℕ) → LeadsTo base first [] base first }
    ensures goes_on { (base now : Database) (first place seat : ℕ) (history : List Entry)
        (items : List Item) → LeadsTo base first history now place → after now items ≢ now
        → LeadsTo base first (with_entry history seat items) (after now items) (suc place) }
    ensures beginnings { (base : Database) (history more : List Entry)
        → IsLegal base (history ++ more) → IsLegal base history }
    ensures joined { (base : Database) (history more : List Entry)
        → state base (history ++ more) ≡ state (state base history) more }
{}
