//! What no contract says: that there is memory for the rows that are selected, and for replies.
ghost use Rattle.std.specs.Prelude.{◌≡◌, ◌<◌, length, IfOk, false};
ghost use Rattle.std.specs.List.{AllByRecursion};
ghost use Rattle.row_types.specs.declared.columns.Kind.TheVariants.{Bytes};
ghost use Rattle.row_types.specs.declared.columns.Fit.TheVariants as fits_as;
ghost use Rattle.row_types.specs.declared.values.Value.TheVariants as values;
ghost use Rattle.row_types.specs.Fit.{kind_fit};
ghost use Rattle.table_rows.specs.Checks.{IsRow};
ghost use Rattle.find_scan.specs.Examples.{some_columns, some_indexes, some_schema, IsNumber, IsFind, IsPlay};

use super::*;
use request_types::{FilterOp, FilterSpec, FindOp, FindSpec, InSpec};
use row_types::{ByteText, Column, IndexDef, IndexKind, Kind, List, Row, Schema, TableDef, Value};
use std::alloc::{AllocError, Global};
use std::test::Fail;
use table_rows::{Tables, UndoList, Verdict};

fn text(alloc: Global, bytes: &[u8]) -> Result<Value, AllocError>
    ensures { IfOk result (λ value. value ≡ values.Text bytes.now) }
{
    Ok(Value::Text(ByteText::of(alloc, bytes)?))
}

fn column(alloc: Global, name: &[u8], kind: Kind, null: bool) -> Result<Column, AllocError>
    ensures { IfOk result (λ column.
        column ≡ record {
          name = name.now;
          kind = kind;
          null = null;
          auto = false;
          preset = values.Null;
        }) }
{
    Ok(Column {
        name: ByteText::of(alloc, name)?,
        kind,
        null,
        auto: false,
        preset: Value::Null,
    })
}

fn index(alloc: Global, name: &[u8], kind: IndexKind, parts: &[u32]) -> Result<IndexDef, AllocError>
    ensures { IfOk result (λ index.
        index ≡ record { name = name.now; kind = kind; parts = parts.now }) }
{
    Ok(IndexDef {
        name: ByteText::of(alloc, name)?,
        kind,
        parts: List::of_vec(Vec::from_slice(alloc, parts)?),
    })
}

fn columns(alloc: Global) -> Result<List<Column>, AllocError>
    ensures { IfOk result (λ columns. columns ≡ some_columns) }
{
    let mut columns = List::new(alloc);
    columns.push(column(alloc, b"id", Kind::Int, false)?)?;
    columns.push(column(alloc, b"v", Kind::Bytes(8000), true)?)?;
    columns.push(column(alloc, b"n", Kind::Int, false)?)?;
    Ok(columns)
}

fn indexes(alloc: Global) -> Result<List<IndexDef>, AllocError>
    ensures { IfOk result (λ indexes. indexes ≡ some_indexes) }
{
    let mut indexes = List::new(alloc);
    indexes.push(index(alloc, b"PRIMARY", IndexKind::Primary, &[0])?)?;
    indexes.push(index(alloc, b"by_n", IndexKind::Plain, &[2])?)?;
    indexes.push(index(alloc, b"by_both", IndexKind::Plain, &[2, 0])?)?;
    Ok(indexes)
}

fn schema(alloc: Global) -> Result<Schema, AllocError>
    ensures { IfOk result (λ schema. schema ≡ some_schema) }
{
    let mut tables = List::new(alloc);
    tables.push(TableDef {
        db: ByteText::of(alloc, b"test")?,
        name: ByteText::of(alloc, b"t")?,
        columns: columns(alloc)?,
        indexes: indexes(alloc)?,
    })?;
    Ok(Schema { tables })
}

// The table without a row.
fn new_tables(alloc: Global) -> Result<Tables, AllocError>
    ensures { IfOk result (λ tables. IsPlay tables) }
{
    let schema = schema(alloc)?;
    Tables::new(alloc, &schema, 268_435_456)
}

// A row of the table.
fn row(alloc: Global, id: i64, v: Value, n: i64) -> Result<Row, AllocError>
    requires { kind_fit (Bytes 8000) v ≡ fits_as.Fine }
    ensures { IfOk result (λ row. IsRow some_columns row) }
{
    let mut row = List::new(alloc);
    row.push(Value::Int(id))?;
    row.push(v)?;
    row.push(Value::Int(n))?;
    Ok(row)
}

// Puts a row, and says whether that could be done.
fn put(alloc: Global, tables: &mut Tables, row: Row) -> Result<bool, AllocError>
    requires play { IsPlay tables.old }
    requires row { IsRow some_columns row }
    ensures { IfOk result (λ put. IsPlay tables.new) }
{
    let mut undo = UndoList::list_new(alloc);
    tables.reserve(0, 1, &mut undo)?;
    let verdict = tables.check_put(0, &row, None);
    if let Verdict::Fine = verdict {
        tables.put(0, row, &mut undo);
        return Ok(true);
    }
    Ok(false)
}

// The rows (1, a, 4), (2, b, 4), (3, c, 4) and (4, d, 6), put in another order.
fn four_rows(alloc: Global) -> Result<Tables, AllocError>
    ensures { IfOk result (λ tables. IsPlay tables) }
{
    let mut tables = new_tables(alloc)?;
    for (id, name, n) in [(3, b"c", 4), (1, b"a", 4), (4, b"d", 6), (2, b"b", 4)] {
        let new = row(alloc, id, text(alloc, name)?, n)?;
        put(alloc, &mut tables, new)?;
    }
    Ok(tables)
}

// Numbers as values.
fn numbers(alloc: Global, numbers: &[i64]) -> Result<List<Value>, AllocError>
    ensures values { IfOk result (λ values. AllByRecursion IsNumber values) }
    ensures length { IfOk result (λ values. length values ≡ length numbers.now) }
{
    let mut values = List::new(alloc);
    for number in numbers {
        values.push(Value::Int(*number))?;
    }
    Ok(values)
}

// Finds the rows with these last numbers, but for that with the id 1.
fn listed(alloc: Global, list: &[i64]) -> Result<FindSpec, AllocError>
    requires { 0 < length list.now }
    ensures { IfOk result (λ spec. IsFind spec) }
{
    let mut filters = List::new(alloc);
    filters.push(FilterSpec {
        stop: false,
        op: FilterOp::NotEqual,
        column: 0,
        value: Value::Int(1),
    })?;
    Ok(FindSpec {
        table: 0,
        index: 1,
        op: FindOp::Equal,
        key: numbers(alloc, &[0])?,
        within: Some(InSpec {
            part: 0,
            values: numbers(alloc, list)?,
        }),
        limit: 10,
        offset: 0,
        filters,
        columns: List::of_vec(Vec::from_slice(alloc, &[0])?),
    })
}

// Appends the reply to a find.
fn show(
    alloc: Global,
    tables: &Tables,
    spec: &FindSpec,
    out: &mut Vec<u8>,
) -> Result<Rendered, AllocError>
    requires play { IsPlay tables.now }
    requires find { IsFind spec.now }
{
    let slots = select(alloc, tables, spec)?;
    let columns = spec.columns.as_slice();
    render(tables, spec.table, slots.as_slice(), columns, out)
}

#[test]
fn finds_and_replies_find_memory(rt: HostRuntime) -> Result<(), Fail> {
    let alloc = rt.alloc();
    let tables = four_rows(alloc)?;
    let spec = listed(alloc, &[6, 4, 6])?;
    let mut out = Vec::new(alloc);
    assert_eq!(rt; show(alloc, &tables, &spec, &mut out)?, Rendered::Fits);
    assert_eq!(rt; out.as_slice(), b"0\t1\t4\t2\t3\n".as_slice());
    out.clear();
    push_cells(&mut out, &[Value::Int(7), Value::Null])?;
    assert_eq!(rt; end_reply(&mut out, 0)?, Rendered::Fits);
    assert_eq!(rt; out.as_slice(), b"\t7\t\x00\n".as_slice());
    Ok(())
}
