//! What no contract says: that there is memory to write a set and to read it again, to tell a batch
//! by its notes, and to put a set on tables.
ghost use Rattle.std.specs.Prelude.{◌≡◌, IfOk, false, true};
ghost use Rattle.row_types.specs.declared.values.Value.TheVariants as values;
ghost use Rattle.table_rows.specs.Examples.{some_columns, some_indexes, some_schema};
ghost use Rattle.change_set.specs.Examples.{some_set, coded_schema};
ghost use Rattle.table_rows.specs.GoingBack.{CanGoBack};

use super::*;
use crate::applying::carry_out;
use row_types::{ByteText, Column, IndexDef, IndexKind, Kind, List, Schema, TableDef, Value};
use std::alloc::{AllocError, Global};
use std::test::*;
use table_rows::{Tables, UndoList};

fn column(
    alloc: Global,
    name: &[u8],
    kind: Kind,
    null: bool,
    auto: bool,
) -> Result<Column, AllocError>
    ensures { IfOk result (λ column.
        column ≡ record {
          name = name.now;
          kind = kind;
          null = null;
          auto = auto;
          preset = values.Null;
        }) }
{
    Ok(Column {
        name: ByteText::of(alloc, name)?,
        kind,
        null,
        auto,
        preset: Value::Null,
    })
}

fn index(alloc: Global, name: &[u8], kind: IndexKind, parts: &[u32]) -> Result<IndexDef, AllocError>
    ensures { IfOk result (λ index.
        index ≡ record { name = name.now; kind = kind; parts = parts.now }) }
{
    Ok(IndexDef {
        name: ByteText::of(alloc, name)?,
        kind,
        parts: List::of_vec(Vec::from_slice(alloc, parts)?),
    })
}

fn columns(alloc: Global) -> Result<List<Column>, AllocError>
    ensures { IfOk result (λ columns. columns ≡ some_columns) }
{
    let mut columns = List::new(alloc);
    columns.push(column(alloc, b"id", Kind::Int, false, false)?)?;
    columns.push(column(alloc, b"code", Kind::Bytes(4), true, false)?)?;
    columns.push(column(alloc, b"n", Kind::Int, false, false)?)?;
    Ok(columns)
}

fn indexes(alloc: Global) -> Result<List<IndexDef>, AllocError>
    ensures { IfOk result (λ indexes. indexes ≡ some_indexes) }
{
    let mut indexes = List::new(alloc);
    indexes.push(index(alloc, b"PRIMARY", IndexKind::Primary, &[0, 2])?)?;
    indexes.push(index(alloc, b"by_code", IndexKind::Unique, &[1])?)?;
    indexes.push(index(alloc, b"by_n", IndexKind::Plain, &[2])?)?;
    Ok(indexes)
}

fn schema(alloc: Global) -> Result<Schema, AllocError>
    ensures { IfOk result (λ schema. schema ≡ some_schema) }
{
    let mut tables = List::new(alloc);
    tables.push(TableDef {
        db: ByteText::of(alloc, b"test")?,
        name: ByteText::of(alloc, b"t")?,
        columns: columns(alloc)?,
        indexes: indexes(alloc)?,
    })?;
    Ok(Schema { tables })
}

// The row (1, ab, 7) is put, the row with the key (2, 5) goes, and the counter is 9.
fn some_set(alloc: Global) -> Result<ChangeSet, AllocError>
    ensures { IfOk result (λ set. set.changes ≡ some_set) }
{
    let mut row = List::new(alloc);
    row.push(Value::Int(1))?;
    row.push(Value::Text(ByteText::of(alloc, b"ab")?))?;
    row.push(Value::Int(7))?;
    let mut key = List::new(alloc);
    key.push(Value::Int(2))?;
    key.push(Value::Int(-5))?;
    let mut changes = List::new(alloc);
    changes.push(Change::Put(0, row))?;
    changes.push(Change::Delete(0, key))?;
    changes.push(Change::Count(0, 9))?;
    Ok(ChangeSet { changes })
}

const BYTES: [u8; 64] = [
    0, 0, 0, 3, 1, 0, 0, 1, 0, 0, 0, 0, 0, 0, 0, 1, 2, 0, 0, 0, 2, 97, 98, 1, 0, 0, 0, 0, 0, 0, 0,
    7, 2, 0, 0, 1, 0, 0, 0, 0, 0, 0, 0, 2, 1, 255, 255, 255, 255, 255, 255, 255, 251, 3, 0, 0, 0,
    0, 0, 0, 0, 0, 0, 9,
];

#[test]
fn a_set_finds_memory_to_be_written_and_read(rt: HostRuntime) -> Result<(), Fail> {
    let alloc = rt.alloc();
    let set = some_set(alloc)?;
    let mut bytes = Vec::new(alloc);
    push_bytes(&set, &mut bytes)?;
    assert!(rt; bytes.as_slice() == BYTES.as_slice());
    let read = read_changes(alloc, &schema(alloc)?, &BYTES);
    assert!(rt; matches!(read, Ok(_)));
    Ok(())
}

// A counted id, and a code that no two rows share.
fn coded_schema(alloc: Global) -> Result<Schema, AllocError>
    ensures { IfOk result (λ schema. schema ≡ coded_schema) }
{
    let mut columns = List::new(alloc);
    columns.push(column(alloc, b"id", Kind::Int, false, true)?)?;
    columns.push(column(alloc, b"code", Kind::Bytes(4), true, false)?)?;
    let mut indexes = List::new(alloc);
    indexes.push(index(alloc, b"PRIMARY", IndexKind::Primary, &[0])?)?;
    indexes.push(index(alloc, b"by_code", IndexKind::Unique, &[1])?)?;
    let mut tables = List::new(alloc);
    tables.push(TableDef {
        db: ByteText::of(alloc, b"test")?,
        name: ByteText::of(alloc, b"a")?,
        columns,
        indexes,
    })?;
    Ok(Schema { tables })
}

// The kind of a change, an id or a counter, and a code.
type Short = (u8, u8, u8);

const NONE: Short = (0, 0, 0);

const PUT: u8 = 1;

const DELETE: u8 = 2;

const COUNT: u8 = 3;

fn payload(alloc: Global, set: &[Short]) -> Result<Vec<u8>, AllocError> {
    let mut bytes = Vec::new(alloc);
    let mut count: u8 = 0;
    for (kind, id, code) in set {
        if *kind != NONE.0 {
            count = count.wrapping_add(1);
            bytes.extend_from_slice(&[*kind, 0, 0])?;
            if *kind != COUNT {
                bytes.push(1)?;
            }
            bytes.extend_from_slice(&[0, 0, 0, 0, 0, 0, 0, *id])?;
            if *kind == PUT {
                bytes.extend_from_slice(&[2, 0, 0, 0, 1, *code])?;
            }
        }
    }
    let mut whole = Vec::new(alloc);
    whole.extend_from_slice(&[0, 0, 0, count])?;
    whole.extend_from_slice(&bytes)?;
    Ok(whole)
}

fn is_of_kind(change: &Change, kind: u8) -> bool {
    match change {
        Change::Put(..) => kind == PUT,
        Change::Delete(..) => kind == DELETE,
        Change::Count(..) => kind == COUNT,
    }
}

fn are_of_kinds(changes: &[Change], set: &[Short]) -> bool {
    let mut rest = changes;
    for short in set {
        if short.0 != NONE.0 {
            match rest {
                [change, others @ ..] => {
                    if !is_of_kind(change, short.0) {
                        return false;
                    }
                    rest = others;
                }
                [] => return false,
            }
        }
    }
    rest.is_empty()
}

// Carries a set out in a batch, if there is one.
fn carry(
    alloc: Global,
    tables: &mut Tables,
    set: &[Short],
    undo: &mut UndoList,
) -> Result<bool, Fail>
    ensures { CanGoBack tables.old tables.new undo.old.entries undo.new.entries }
{
    let bytes = payload(alloc, set)?;
    if bytes.len() == 4 {
        return Ok(true);
    }
    match read_changes(alloc, tables.schema(), &bytes) {
        Err(_) => Ok(false),
        Ok(set) => Ok(carry_out(alloc, set.changes.as_slice(), tables, undo)?),
    }
}

// Whether the net changes of a batch of two sets are these.
fn are_told(
    alloc: Global,
    tables: &mut Tables,
    first: &[Short],
    second: &[Short],
    net: &[Short],
) -> Result<bool, Fail> {
    let mut undo = UndoList::list_new(alloc);
    let is_first = carry(alloc, tables, first, &mut undo)?;
    let is_second = carry(alloc, tables, second, &mut undo)?;
    let set = from_undo(alloc, tables, &undo)?;
    Ok(is_first && is_second && are_of_kinds(set.changes.as_slice(), net))
}

fn put_on(alloc: Global, tables: &mut Tables, set: &[Short]) -> Result<bool, Fail> {
    let bytes = payload(alloc, set)?;
    match read_changes(alloc, tables.schema(), &bytes) {
        Err(_) => Ok(false),
        Ok(set) => Ok(apply(alloc, &set, tables)?),
    }
}

// The sets of a batch, and its net changes.
const BATCHES: [[[Short; 3]; 3]; 5] = [
    [
        [(PUT, 1, 97), (PUT, 2, 98), (COUNT, 3, 0)],
        [NONE, NONE, NONE],
        [(PUT, 1, 97), (PUT, 2, 98), (COUNT, 3, 0)],
    ],
    // Two rows change places in the unique index.
    [
        [(PUT, 1, 98), (PUT, 2, 97), NONE],
        [NONE, NONE, NONE],
        [(PUT, 1, 98), (PUT, 2, 97), NONE],
    ],
    // A row comes and goes.
    [
        [(PUT, 3, 99), (COUNT, 4, 0), NONE],
        [(DELETE, 3, 0), NONE, NONE],
        [(COUNT, 4, 0), NONE, NONE],
    ],
    // A row changes twice, the other one goes and comes back.
    [
        [(PUT, 1, 120), (DELETE, 2, 0), NONE],
        [(PUT, 1, 121), (PUT, 2, 97), NONE],
        [(PUT, 1, 121), NONE, NONE],
    ],
    [
        [(DELETE, 1, 0), (DELETE, 2, 0), NONE],
        [NONE, NONE, NONE],
        [(DELETE, 1, 0), (DELETE, 2, 0), NONE],
    ],
];

#[test]
fn batches_are_told_and_put_on_other_tables(rt: HostRuntime) -> Result<(), Fail> {
    let alloc = rt.alloc();
    let schema = coded_schema(alloc)?;
    let mut tables = Tables::new(alloc, &schema, 0)?;
    let mut others = Tables::new(alloc, &schema, 0)?;
    for batch in BATCHES.iter() {
        let [first, second, net] = batch;
        assert!(rt; are_told(alloc, &mut tables, first, second, net)?);
        assert!(rt; put_on(alloc, &mut others, net)?);
        assert!(rt; !put_on(alloc, &mut others, net)?);
    }
    Ok(())
}
