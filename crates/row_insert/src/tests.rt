//! What no contract says: that there is memory for rows that come.
ghost use Rattle.std.specs.Prelude.{◌≡◌, [], ◌∷◌, IfOk, pos, true, false};
ghost use Rattle.row_types.specs.declared.values.Value.TheVariants as values;
ghost use Rattle.row_insert.specs.Examples.{people, people_columns, people_indexes, insert_of};

use super::*;
use request_types::InsertSpec;
use row_types::{ByteText, Column, IndexDef, IndexKind, Kind, List, Schema, TableDef, Value};
use std::alloc::{AllocError, Global};
use std::test::Fail;
use table_rows::{Tables, UndoList};

fn column(
    alloc: Global,
    name: &[u8],
    kind: Kind,
    null: bool,
    preset: Value,
) -> Result<Column, AllocError>
    ensures { IfOk result (λ column. column
        ≡ record { name = name.now; kind = kind; null = null; auto = false; preset = preset }) }
{
    Ok(Column {
        name: ByteText::of(alloc, name)?,
        kind,
        null,
        auto: false,
        preset,
    })
}

fn index(alloc: Global, name: &[u8], kind: IndexKind, parts: &[u32]) -> Result<IndexDef, AllocError>
    ensures { IfOk result (λ index. index
        ≡ record { name = name.now; kind = kind; parts = parts.now }) }
{
    Ok(IndexDef {
        name: ByteText::of(alloc, name)?,
        kind,
        parts: List::of_vec(Vec::from_slice(alloc, parts)?),
    })
}

fn columns(alloc: Global) -> Result<List<Column>, AllocError>
    ensures { IfOk result (λ columns. columns ≡ people_columns) }
{
    let mut columns = List::new(alloc);
    columns.push(column(alloc, b"id", Kind::Int, false, Value::Null)?)?;
    columns.push(column(alloc, b"name", Kind::Bytes(4), true, Value::Null)?)?;
    columns.push(column(alloc, b"n", Kind::Int, true, Value::Int(0))?)?;
    Ok(columns)
}

fn indexes(alloc: Global) -> Result<List<IndexDef>, AllocError>
    ensures { IfOk result (λ indexes. indexes ≡ people_indexes) }
{
    let mut indexes = List::new(alloc);
    indexes.push(index(alloc, b"PRIMARY", IndexKind::Primary, &[0])?)?;
    indexes.push(index(alloc, b"by_n", IndexKind::Plain, &[2])?)?;
    indexes.push(index(alloc, b"by_name", IndexKind::Unique, &[1])?)?;
    Ok(indexes)
}

fn schema(alloc: Global) -> Result<Schema, AllocError>
    ensures { IfOk result (λ schema. schema ≡ people) }
{
    let mut tables = List::new(alloc);
    tables.push(TableDef {
        db: ByteText::of(alloc, b"test")?,
        name: ByteText::of(alloc, b"t")?,
        columns: columns(alloc)?,
        indexes: indexes(alloc)?,
    })?;
    Ok(Schema { tables })
}

// An insert of a person.
fn person(alloc: Global, id: i64, name: &[u8]) -> Result<InsertSpec, AllocError>
    ensures { IfOk result (λ spec. spec
        ≡ insert_of (0 ∷ 1 ∷ []) (values.Int id ∷ values.Text name.now ∷ [])) }
{
    let mut named = List::new(alloc);
    named.push(Value::Int(id))?;
    named.push(Value::Text(ByteText::of(alloc, name)?))?;
    Ok(InsertSpec {
        table: 0,
        columns: List::of_vec(Vec::from_slice(alloc, &[0, 1])?),
        values: named,
    })
}

#[test]
fn rows_find_memory(rt: HostRuntime) -> Result<(), Fail> {
    let alloc = rt.alloc();
    worked_rows();
    let schema = schema(alloc)?;
    let mut tables = Tables::new(alloc, &schema, 261)?;
    let mut undo = UndoList::list_new(alloc);
    // Rows of 87 bytes, of which three have room.
    for (id, name, becomes) in [
        (1, b"ann".as_slice(), Inserted::Done(None)),
        (1, b"bob", Inserted::Refused(16)),
        (2, b"alice", Inserted::Refused(15)),
        (2, b"bob", Inserted::Done(None)),
        (3, b"eve", Inserted::Done(None)),
        (4, b"joe", Inserted::Refused(19)),
    ] {
        let spec = person(alloc, id, name)?;
        let inserted = insert(alloc, &mut tables, &schema, &spec, &mut undo)?;
        assert_eq!(rt; inserted, becomes);
    }
    Ok(())
}
