//! Running a batch.
ghost use Rattle.std.specs.Prelude.{◌≡◌, ◌<◌, drop, length, IfOk, OnOk, OnErr};
ghost use Rattle.std.specs.List.{AllByRecursion};
ghost use Rattle.table_rows.specs.Database.{database_of};
ghost use Rattle.request_types.specs.Batches.{runs_of, StandTogether};
ghost use Rattle.request_types.specs.Fits.{ItemFits};
ghost use Rattle.table_rows.specs.Widths.{IsRoomier};
ghost use Rattle.batch_answers.specs.Answers.{after, parts_for};
ghost use Rattle.batch_answers.specs.Batches.{parts_of, after_runs};
ghost use Rattle.table_rows.specs.GoingBack.{CanGoBack};
ghost use Rattle.batch_answers.specs.Steps.{ends_run};

use crate::items::answer;
use request_types::{Batch, Item, Part, Replies};
use row_types::{ByteText, List, Schema};
use std::alloc::{AllocError, Global};
use std::mem::replace;
use table_rows::{Tables, UndoList};

/// Carries out the items of a batch in order, each on the rows that the one before it left.
pub fn run_batch(
    alloc: Global,
    tables: &mut Tables,
    schema: &Schema,
    batch: &Batch,
    undo: &mut UndoList,
) -> Result<Replies, AllocError>
    requires schema { schema.now ≡ tables.old.schema }
    requires items { AllByRecursion (ItemFits schema.now) batch.now.items }
    requires together { StandTogether batch.now.items }
    ensures parts { IfOk result (λ replies.
        replies.parts ≡ parts_for (database_of tables.old) batch.now.items) }
    ensures rows { OnOk result
        (database_of tables.new ≡ after (database_of tables.old) batch.now.items) }
    ensures schema { tables.new.schema ≡ tables.old.schema }

    // What the batch changed is noted behind what was noted before, and can be taken back.
    ensures noted { OnOk result
        (CanGoBack tables.old tables.new undo.old.entries undo.new.entries) }

    // Without memory each row is where it was, slots may be more, and no change is noted.
    ensures err { OnErr result (IsRoomier tables.old tables.new) }
    ensures unnoted { OnErr result (undo.new.entries ≡ undo.old.entries) }
{
    let mark = undo.mark();
    match run_all(alloc, tables, schema, batch.items.as_slice(), undo) {
        Ok(parts) => Ok(Replies { parts }),
        Err(error) => {
            tables.undo_to(undo, mark);
            Err(error)
        }
    }
}

// The part of each run of items, and the rows that they leave.
fn run_all(
    alloc: Global,
    tables: &mut Tables,
    schema: &Schema,
    items: &[Item],
    undo: &mut UndoList,
) -> Result<List<Part>, AllocError>
    requires schema { schema.now ≡ tables.old.schema }
    requires items { AllByRecursion (ItemFits schema.now) items.now }
    ensures parts { IfOk result (λ parts.
        parts ≡ parts_of (database_of tables.old) (runs_of items.now)) }
    ensures rows { OnOk result
        (database_of tables.new ≡ after_runs (database_of tables.old) (runs_of items.now)) }
    ensures back { CanGoBack tables.old tables.new undo.old.entries undo.new.entries }
{
    let mut parts = List::new(alloc);
    let mut text = Vec::new(alloc);
    for (place, item) in items.iter().enumerate() {
        answer(alloc, tables, schema, &item.kind, undo, &mut text)?;
        if ends_run(items, place) {
            let text = ByteText::of_vec(replace(&mut text, Vec::new(alloc)));
            parts.push(Part {
                conn: item.conn,
                text,
            })?;
        }
    }
    Ok(parts)
}

// Whether no item of the same connection stands right behind this one.
fn ends_run(items: &[Item], place: usize) -> bool
    requires { place < length items.now }
    ensures { result ≡ ends_run (drop place items.now) }
{
    match items.get(place + 1) {
        None => true,
        Some(next) => next.conn != items[place].conn,
    }
}
