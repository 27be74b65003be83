//! What no contract says: that there is memory for the rows that changes make.
ghost use Rattle.std.specs.Prelude.{◌≡◌, [], ◌∷◌, IfOk, pos, true, false, if◌then◌else◌};
ghost use Rattle.row_types.specs.declared.values.Value.TheVariants as values;
ghost use Rattle.row_insert.specs.Examples.{people, people_columns, people_indexes, insert_of};
ghost use Rattle.find_modify.specs.Change.{deletes};

use super::*;
use request_types::{InsertSpec, ModKind, ModSpec};
use row_insert::{insert, worked_rows};
use row_types::{ByteText, Column, IndexDef, IndexKind, Kind, List, Schema, TableDef, Value};
use std::alloc::{AllocError, Global};
use std::test::Fail;
use table_rows::{Edge, Tables, UndoList};

fn column(
    alloc: Global,
    name: &[u8],
    kind: Kind,
    null: bool,
    preset: Value,
) -> Result<Column, AllocError>
    ensures { IfOk result (λ column. column
        ≡ record { name = name.now; kind = kind; null = null; auto = false; preset = preset }) }
{
    Ok(Column {
        name: ByteText::of(alloc, name)?,
        kind,
        null,
        auto: false,
        preset,
    })
}

fn index(alloc: Global, name: &[u8], kind: IndexKind, parts: &[u32]) -> Result<IndexDef, AllocError>
    ensures { IfOk result (λ index. index
        ≡ record { name = name.now; kind = kind; parts = parts.now }) }
{
    Ok(IndexDef {
        name: ByteText::of(alloc, name)?,
        kind,
        parts: List::of_vec(Vec::from_slice(alloc, parts)?),
    })
}

fn columns(alloc: Global) -> Result<List<Column>, AllocError>
    ensures { IfOk result (λ columns. columns ≡ people_columns) }
{
    let mut columns = List::new(alloc);
    columns.push(column(alloc, b"id", Kind::Int, false, Value::Null)?)?;
    columns.push(column(alloc, b"name", Kind::Bytes(4), true, Value::Null)?)?;
    columns.push(column(alloc, b"n", Kind::Int, true, Value::Int(0))?)?;
    Ok(columns)
}

fn indexes(alloc: Global) -> Result<List<IndexDef>, AllocError>
    ensures { IfOk result (λ indexes. indexes ≡ people_indexes) }
{
    let mut indexes = List::new(alloc);
    indexes.push(index(alloc, b"PRIMARY", IndexKind::Primary, &[0])?)?;
    indexes.push(index(alloc, b"by_n", IndexKind::Plain, &[2])?)?;
    indexes.push(index(alloc, b"by_name", IndexKind::Unique, &[1])?)?;
    Ok(indexes)
}

fn schema(alloc: Global) -> Result<Schema, AllocError>
    ensures { IfOk result (λ schema. schema ≡ people) }
{
    let mut tables = List::new(alloc);
    tables.push(TableDef {
        db: ByteText::of(alloc, b"test")?,
        name: ByteText::of(alloc, b"t")?,
        columns: columns(alloc)?,
        indexes: indexes(alloc)?,
    })?;
    Ok(Schema { tables })
}

// An insert of a person.
fn person(alloc: Global, id: i64, name: &[u8]) -> Result<InsertSpec, AllocError>
    ensures { IfOk result (λ spec. spec
        ≡ insert_of (0 ∷ 1 ∷ []) (values.Int id ∷ values.Text name.now ∷ [])) }
{
    let mut named = List::new(alloc);
    named.push(Value::Int(id))?;
    named.push(Value::Text(ByteText::of(alloc, name)?))?;
    Ok(InsertSpec {
        table: 0,
        columns: List::of_vec(Vec::from_slice(alloc, &[0, 1])?),
        values: named,
    })
}

// A change of the first of some columns by an integer; a deletion has none.
fn by_number(alloc: Global, kind: ModKind, number: i64) -> Result<ModSpec, AllocError>
    ensures { IfOk result (λ change. change ≡ record {
      kind = kind;
      values = (if deletes kind then [] else values.Int number ∷ []);
      show = false;
    }) }
{
    let mut named = List::new(alloc);
    if kind != ModKind::Remove {
        named.push(Value::Int(number))?;
    }
    Ok(ModSpec {
        kind,
        values: named,
        show: false,
    })
}

#[test]
fn changes_find_memory(rt: HostRuntime) -> Result<(), Fail> {
    let alloc = rt.alloc();
    worked_rows();
    let schema = schema(alloc)?;
    let mut tables = Tables::new(alloc, &schema, 100)?;
    let mut undo = UndoList::list_new(alloc);
    let spec = person(alloc, 1, b"ann")?;
    let _ = insert(alloc, &mut tables, &schema, &spec, &mut undo)?;
    for (kind, number, becomes) in [
        (ModKind::Update, i64::MAX, Modified::Done(1)),
        (ModKind::Add, 1, Modified::Refused(18)),
        (ModKind::Subtract, 1, Modified::Done(1)),
        (ModKind::Remove, 0, Modified::Done(1)),
    ] {
        let _ = tables.schema();
        let change = by_number(alloc, kind, number)?;
        let Some(slot) = tables.seek(0, 0, &Edge::Open, false) else {
            return Err(Fail::from(AllocError));
        };
        let modified = modify(alloc, &mut tables, 0, &[slot], &[2], &change, &mut undo)?;
        assert_eq!(rt; modified, becomes);
    }
    Ok(())
}
