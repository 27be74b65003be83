//! The table of the examples, and its rows.
ghost use Rattle.std.specs.Prelude.{◌≡◌, ◌≤◌, IfOk, false};
ghost use Rattle.row_types.specs.declared.values.Value.TheVariants as values;
ghost use Rattle.table_rows.specs.Sizes.{most_bytes};
ghost use Rattle.table_rows.specs.Checks.{IsRow};
ghost use Rattle.table_rows.specs.Examples.{some_columns, some_indexes, some_schema, IsPlay};

use crate::{Tables, UndoList, Verdict};
use row_types::{ByteText, Column, IndexDef, IndexKind, Kind, List, Row, Schema, TableDef, Value};
use std::alloc::{AllocError, Global};

pub(super) fn column(
    alloc: Global,
    name: &[u8],
    kind: Kind,
    null: bool,
) -> Result<Column, AllocError>
    ensures { IfOk result (λ column.
        column ≡ record {
          name = name.now;
          kind = kind;
          null = null;
          auto = false;
          preset = values.Null;
        }) }
{
    Ok(Column {
        name: ByteText::of(alloc, name)?,
        kind,
        null,
        auto: false,
        preset: Value::Null,
    })
}

pub(super) fn index(
    alloc: Global,
    name: &[u8],
    kind: IndexKind,
    parts: &[u32],
) -> Result<IndexDef, AllocError>
    ensures { IfOk result (λ index.
        index ≡ record { name = name.now; kind = kind; parts = parts.now }) }
{
    Ok(IndexDef {
        name: ByteText::of(alloc, name)?,
        kind,
        parts: List::of_vec(Vec::from_slice(alloc, parts)?),
    })
}

pub(super) fn columns(alloc: Global) -> Result<List<Column>, AllocError>
    ensures { IfOk result (λ columns. columns ≡ some_columns) }
{
    let mut columns = List::new(alloc);
    columns.push(column(alloc, b"id", Kind::Int, false)?)?;
    columns.push(column(alloc, b"code", Kind::Bytes(4), true)?)?;
    columns.push(column(alloc, b"n", Kind::Int, false)?)?;
    Ok(columns)
}

pub(super) fn indexes(alloc: Global) -> Result<List<IndexDef>, AllocError>
    ensures { IfOk result (λ indexes. indexes ≡ some_indexes) }
{
    let mut indexes = List::new(alloc);
    indexes.push(index(alloc, b"PRIMARY", IndexKind::Primary, &[0, 2])?)?;
    indexes.push(index(alloc, b"by_code", IndexKind::Unique, &[1])?)?;
    indexes.push(index(alloc, b"by_n", IndexKind::Plain, &[2])?)?;
    Ok(indexes)
}

pub(super) fn schema(alloc: Global) -> Result<Schema, AllocError>
    ensures { IfOk result (λ schema. schema ≡ some_schema) }
{
    let mut tables = List::new(alloc);
    tables.push(TableDef {
        db: ByteText::of(alloc, b"test")?,
        name: ByteText::of(alloc, b"t")?,
        columns: columns(alloc)?,
        indexes: indexes(alloc)?,
    })?;
    Ok(Schema { tables })
}

// A row without a code.
pub(super) fn row(alloc: Global, id: i64, n: i64) -> Result<Row, AllocError>
    ensures { IfOk result (λ row. IsRow some_columns row) }
{
    let mut row = List::new(alloc);
    row.push(Value::Int(id))?;
    row.push(Value::Null)?;
    row.push(Value::Int(n))?;
    Ok(row)
}

// The empty table.
pub(super) fn begin(alloc: Global, bytes_max: u64) -> Result<Tables, AllocError>
    requires { bytes_max ≤ most_bytes }
    ensures { IfOk result IsPlay }
{
    let schema = schema(alloc)?;
    Tables::new(alloc, &schema, bytes_max)
}

// Puts a row if it is fine, and says what was said of it.
pub(super) fn try_put(
    tables: &mut Tables,
    row: Row,
    undo: &mut UndoList,
) -> Result<Verdict, AllocError>
    requires play { IsPlay tables.old }
    requires row { IsRow some_columns row }
    ensures { IfOk result (λ verdict. IsPlay tables.new) }
{
    tables.reserve(0, 1, undo)?;
    let verdict = tables.check_put(0, &row, None);
    if let Verdict::Fine = verdict {
        tables.put(0, row, undo);
    }
    Ok(verdict)
}
