//! What no contract says: that there is memory to look rows up.
ghost use Rattle.std.specs.Prelude.{◌≡◌, [], ◌∷◌, Some, IfOk, false};
ghost use Rattle.row_types.specs.declared.columns.Kind.TheVariants as kinds;
ghost use Rattle.row_types.specs.declared.values.Value.TheVariants as values;
ghost use Rattle.table_rows.specs.Checks.{IsRow};
ghost use Rattle.table_rows.specs.Rows.{indexes_of, entries_of};
ghost use Rattle.sql_plan.specs.Ranges.{Serves};
ghost use Rattle.sql_plan.specs.Examples.{number_columns, number_indexes, numbers, IsPlay};

use super::*;
use request_types::FilterOp;
use row_types::{ByteText, Column, IndexDef, IndexKind, Kind, List, Row, Schema, TableDef, Value};
use sql_value::Expr;
use sqlite_items::Boxed;
use std::alloc::{AllocError, Global};
use std::test::Fail;
use table_rows::{Tables, UndoList, Verdict};

fn column(alloc: Global, name: &[u8]) -> Result<Column, AllocError>
    ensures { IfOk result (λ column. column ≡ record {
      name = name.now;
      kind = kinds.Int;
      null = false;
      auto = false;
      preset = values.Null;
    }) }
{
    Ok(Column {
        name: ByteText::of(alloc, name)?,
        kind: Kind::Int,
        null: false,
        auto: false,
        preset: Value::Null,
    })
}

fn index(alloc: Global, name: &[u8], kind: IndexKind, part: u32) -> Result<IndexDef, AllocError>
    ensures { IfOk result (λ index. index
        ≡ record { name = name.now; kind = kind; parts = part ∷ [] }) }
{
    Ok(IndexDef {
        name: ByteText::of(alloc, name)?,
        kind,
        parts: List::of_vec(Vec::from_slice(alloc, &[part])?),
    })
}

fn columns(alloc: Global) -> Result<List<Column>, AllocError>
    ensures { IfOk result (λ columns. columns ≡ number_columns) }
{
    let mut columns = List::new(alloc);
    columns.push(column(alloc, b"id")?)?;
    columns.push(column(alloc, b"n")?)?;
    Ok(columns)
}

fn indexes(alloc: Global) -> Result<List<IndexDef>, AllocError>
    ensures { IfOk result (λ indexes. indexes ≡ number_indexes) }
{
    let mut indexes = List::new(alloc);
    indexes.push(index(alloc, b"PRIMARY", IndexKind::Primary, 0)?)?;
    indexes.push(index(alloc, b"by_n", IndexKind::Plain, 1)?)?;
    Ok(indexes)
}

fn schema(alloc: Global) -> Result<Schema, AllocError>
    ensures { IfOk result (λ schema. schema ≡ numbers) }
{
    let mut tables = List::new(alloc);
    tables.push(TableDef {
        db: ByteText::of(alloc, b"test")?,
        name: ByteText::of(alloc, b"t")?,
        columns: columns(alloc)?,
        indexes: indexes(alloc)?,
    })?;
    Ok(Schema { tables })
}

// The table without a row.
fn new_tables(alloc: Global) -> Result<Tables, AllocError>
    ensures { IfOk result (λ tables. IsPlay tables) }
{
    let schema = schema(alloc)?;
    Tables::new(alloc, &schema, 268_435_456)
}

fn row(alloc: Global, id: i64, n: i64) -> Result<Row, AllocError>
    ensures { IfOk result (λ row. IsRow number_columns row) }
{
    let mut row = List::new(alloc);
    row.push(Value::Int(id))?;
    row.push(Value::Int(n))?;
    Ok(row)
}

// Puts a row, and says whether that could be done.
fn put(alloc: Global, tables: &mut Tables, row: Row) -> Result<bool, AllocError>
    requires play { IsPlay tables.old }
    requires row { IsRow number_columns row }
    ensures { IfOk result (λ put. IsPlay tables.new) }
{
    let mut undo = UndoList::list_new(alloc);
    tables.reserve(0, 1, &mut undo)?;
    let verdict = tables.check_put(0, &row, None);
    if let Verdict::Fine = verdict {
        tables.put(0, row, &mut undo);
        return Ok(true);
    }
    Ok(false)
}

// n > 3
fn above_three(alloc: Global) -> Result<Expr, AllocError> {
    let n = Boxed::new(alloc, Expr::Column(1))?;
    let three = Boxed::new(alloc, Expr::Literal(Value::Int(3)))?;
    Ok(Expr::Compare(FilterOp::Greater, n, three))
}

// How many rows meet the condition, and how many steps that took.
fn count<'a>(
    alloc: Global,
    tables: &'a Tables,
    plan: &'a Plan,
    condition: &Expr,
) -> Result<(usize, u64), AllocError>
    requires play { IsPlay tables.now }
    requires serves { Serves (Some condition.now) (indexes_of tables.now 0) (entries_of tables.now 0)
        plan.now }
{
    let mut looker = Looker::of(tables);
    match scan(alloc, &mut looker, 0, plan, Some(condition))? {
        Found::Rows(slots) => Ok((slots.as_slice().len(), looker.looked())),
        Found::Overflow => Ok((0, looker.looked())),
    }
}

fn count_planned(
    alloc: Global,
    tables: &Tables,
    condition: &Expr,
) -> Result<(usize, u64), AllocError>
    requires { IsPlay tables.now }
{
    let plan = range_of(alloc, Some(condition), tables.def(0))?;
    count(alloc, tables, &plan, condition)
}

#[test]
fn rows_are_found_with_memory_at_hand(rt: HostRuntime) -> Result<(), Fail> {
    let alloc = rt.alloc();
    let mut tables = new_tables(alloc)?;
    for (id, n) in [(1, 9), (2, 3), (3, 4), (4, 1)] {
        let new = row(alloc, id, n)?;
        assert!(rt; put(alloc, &mut tables, new)?);
    }
    let condition = above_three(alloc)?;
    assert_eq!(rt; count_planned(alloc, &tables, &condition)?, (2, 4));
    Ok(())
}
