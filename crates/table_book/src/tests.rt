//! What no contract says: that there is memory, and which calls the disk gets.
ghost use Rattle.std.specs.Prelude.{◌≡◌, IfOk};
ghost use Rattle.std.specs.List.{AllByRecursion};
ghost use Rattle.hs_disk.specs.Sound.{images};
ghost use Rattle.request_types.specs.Batches.{StandTogether};
ghost use Rattle.request_types.specs.Fits.{ItemFits};
ghost use Rattle.row_types.specs.Valid.{IsValid};
ghost use Rattle.table_book.specs.Books.{IsKept};

use crate::Book;
use hs_disk::{Disk, MemDisk};
use hs_schema::{SchemaLines, empty};
use hs_token::decode_line;
use line_pipeline::{Outcome, Secrets, conns_new};
use request_types::{Batch, Port};
use row_types::Schema;
use std::alloc::{AllocError, Global};
use std::process::Abort;
use std::test::Fail;

// A table line.
const LINE: &[u8] =
    b"table\ttest\tt\tc\tid\tint\tnot\t\0\tc\tname\tbytes:32\tnull\t\0\tc\tn\tint\tnot\t0\ti\tPRIMARY\tprimary\tid\ti\tby_n\tindex\tn\ti\tby_name\tunique\tname";

// Batches that insert a row.
const ANN: &[u8] = b"P\t1\ttest\tt\tPRIMARY\tid,name,n\n1\t+\t3\t1\tann\t5\n";

const A: &[u8] = b"P\t1\ttest\tt\tPRIMARY\tid,name,n\n1\t+\t3\t1\ta\t1\n";

const B: &[u8] = b"P\t1\ttest\tt\tPRIMARY\tid,name,n\n1\t+\t3\t2\tb\t2\n";

const C: &[u8] = b"P\t1\ttest\tt\tPRIMARY\tid,name,n\n1\t+\t3\t3\tc\t3\n";

// One that adds 1 to a column and takes it off again.
const TO_AND_FRO: &[u8] =
    b"P\t4\ttest\tt\tPRIMARY\tn\n4\t=\t1\t1\t1\t0\t+\t1\n4\t=\t1\t1\t1\t0\t-\t1\n";

fn schema(alloc: Global) -> Result<Schema, Fail>
    ensures { IfOk result IsValid }
{
    let mut schema = empty(alloc);
    schema.add_table(alloc, &decode_line(alloc, LINE)?)?;
    Ok(schema)
}

// These lines of one connection.
fn batch_of(
    rt: &impl Abort,
    alloc: Global,
    schema: &Schema,
    lines: &[u8],
) -> Result<Batch, AllocError>
    requires { IsValid schema.now }
    ensures fits { IfOk result (λ batch. AllByRecursion (ItemFits schema.now) batch.items) }
    ensures together { IfOk result (λ batch. StandTogether batch.items) }
{
    let secrets = Secrets {
        reading: None,
        writing: None,
    };
    let mut table = conns_new(alloc, schema.copy(alloc)?, secrets)?;
    let Ok(conn) = table.add(alloc, Port::Writing) else {
        return Err(AllocError);
    };
    assert!(rt; table.has(conn));
    assert!(rt; lines.len() <= table.room(conn));
    table.feed(conn, lines);
    table.gather(alloc, &[conn])
}

// How many times a batch is refused for the disk before it is done.
fn refusals(rt: &impl Abort, alloc: Global, book: &mut Book<MemDisk>, batch: &Batch) -> u64
    requires fits { AllByRecursion (ItemFits book.old.tables.schema) batch.now.items }
    requires together { StandTogether batch.now.items }
    requires kept { IsKept (λ disk. disk.bytes) images book.old }
    ensures kept { IsKept (λ disk. disk.bytes) images book.new }
    ensures schema { book.new.tables.schema ≡ book.old.tables.schema }
{
    let mut refused: u64 = 0;
    for _ in 0..3u64 {
        let outcome = book.run_batch(alloc, batch);
        if matches!(outcome, Outcome::Done(_)) {
            break;
        }
        assert!(rt; matches!(outcome, Outcome::DiskFault));
        refused = refused.saturating_add(1);
    }
    refused
}

// What a run leaves.
#[derive(Clone, Copy, Debug, PartialEq, Eq)]
struct Left {
    refused: u64,
    place: u64,
    since: u64,
    len: usize,
    calls: u64,
    faults: u64,
}

// Carries batches out on a new disk, each until it is done.
fn run(
    rt: &impl Abort,
    alloc: Global,
    schema: &Schema,
    log_max: u64,
    fail_at: &[u64],
    batches: &[&[u8]],
) -> Result<Left, AllocError>
    requires { IsValid schema.now }
{
    let disk = MemDisk::of(alloc, &[], fail_at)?;
    let Ok(mut book) = Book::open_on(alloc, disk, schema.copy(alloc)?, log_max, 1000) else {
        return Err(AllocError);
    };
    let mut refused: u64 = 0;
    for lines in batches {
        let batch = batch_of(rt, alloc, schema, lines)?;
        refused = refused.saturating_add(refusals(rt, alloc, &mut book, &batch));
    }
    let place = book.place();
    let since = book.since_area();
    let disk = book.close();
    Ok(Left {
        refused,
        place,
        since,
        len: disk.bytes().len(),
        calls: disk.changing_calls(),
        faults: disk.faults(),
    })
}

// How many records a segment has, the calls that fail, the batches, and how many times one is
// refused, the place, the records behind the area, the disk's length, its calls and its faults.
#[test]
fn a_failed_call_is_taken_back_and_tried_again(rt: HostRuntime) -> Result<(), Fail> {
    let alloc = rt.alloc();
    let schema = schema(alloc)?;
    for (log_max, fail_at, batches, left) in [
        (9, [].as_slice(), [ANN].as_slice(), (0, 1, 1, 218, 18, 0)),
        (9, &[15], &[ANN], (1, 1, 1, 218, 19, 1)),
        (9, &[16], &[ANN], (1, 1, 1, 218, 20, 1)),
        // The record's gate is in doubt, and is shut at the next attempt.
        (9, &[17], &[ANN], (1, 1, 1, 218, 23, 1)),
        (9, &[18], &[ANN], (1, 1, 1, 218, 24, 1)),
        (9, &[17, 18], &[ANN], (2, 1, 1, 218, 24, 2)),
        (9, &[17, 19], &[ANN], (2, 1, 1, 218, 25, 2)),
        // What changes nothing is not written.
        (9, &[], &[ANN, TO_AND_FRO], (0, 1, 1, 218, 18, 0)),
        // The second record fills the segment, and the rows are written in its place.
        (2, &[], &[A, B, C], (0, 3, 1, 359, 31, 0)),
        // Where that fails, the batch is done all the same, and the next one makes up for it.
        (2, &[23], &[A, B, C], (0, 3, 0, 386, 32, 1)),
    ] {
        let (refused, place, since, len, calls, faults) = left;
        let want = Left {
            refused,
            place,
            since,
            len,
            calls,
            faults,
        };
        let found = run(&rt, alloc, &schema, log_max, fail_at, batches)?;
        assert_eq!(rt; found, want, "{log_max} {fail_at:?}");
    }
    Ok(())
}
