//! What no contract says: that copies and texts find memory, and that statements may go to other
//! threads.
use super::*;
use request_types::FilterOp;
use row_types::{ByteText, List, Row, Value};
use sqlite_items::Boxed;
use std::alloc::{AllocError, Global};
use std::test::Fail;

fn boxed(alloc: Global, expr: Expr) -> Result<Boxed<Expr>, AllocError> {
    Boxed::new(alloc, expr)
}

// -(column 0) = 7 OR column 1 IN ('ann').
fn some_condition(alloc: Global) -> Result<Expr, AllocError> {
    let negative = Expr::Negate(boxed(alloc, Expr::Column(0))?);
    let seven = Expr::Literal(Value::Int(7));
    let equal = Expr::Compare(
        FilterOp::Equal,
        boxed(alloc, negative)?,
        boxed(alloc, seven)?,
    );
    let mut names = List::new(alloc);
    names.push(Expr::Literal(Value::Text(ByteText::of(alloc, b"ann")?)))?;
    let named = Expr::InList(boxed(alloc, Expr::Column(1))?, names);
    Ok(Expr::Or(boxed(alloc, equal)?, boxed(alloc, named)?))
}

fn some_update(alloc: Global) -> Result<Statement, AllocError> {
    let mut assigns = List::new(alloc);
    assigns.push(Assign {
        column: 1,
        cell: Cell::Of(Expr::Column(1)),
    })?;
    assigns.push(Assign {
        column: 0,
        cell: Cell::Preset,
    })?;
    let mut order = List::new(alloc);
    order.push(OrderKey {
        column: 0,
        down: true,
    })?;
    Ok(Statement::Update(UpdateStmt {
        table: 0,
        assigns,
        condition: Some(some_condition(alloc)?),
        order,
        limit: Some(Limit {
            offset: 0,
            count: 1,
        }),
    }))
}

fn some_insert(alloc: Global) -> Result<Statement, AllocError> {
    let mut columns = List::new(alloc);
    columns.push(0)?;
    let mut cells = List::new(alloc);
    cells.push(Cell::Preset)?;
    let mut groups = List::new(alloc);
    groups.push(cells)?;
    Ok(Statement::Insert(InsertStmt {
        table: 0,
        columns,
        groups,
    }))
}

fn some_row(alloc: Global) -> Result<Row, AllocError> {
    let mut row = List::new(alloc);
    row.push(Value::Int(-8))?;
    row.push(Value::Text(ByteText::of(alloc, b"ann")?))?;
    Ok(row)
}

#[test]
fn copies_and_texts_find_memory(rt: HostRuntime) -> Result<(), Fail> {
    let alloc = rt.alloc();
    let condition = some_condition(alloc)?.copy(alloc)?;
    let row = some_row(alloc)?;
    let met = eval(alloc, &condition, &row)?;
    assert!(rt; matches!(met, Evaluated::Truth(Truth::Yes)));
    let name = eval(alloc, &Expr::Column(1), &row)?;
    assert!(rt; matches!(name, Evaluated::Value(Value::Text(_))));
    let _ = some_update(alloc)?.copy(alloc)?;
    let _ = some_insert(alloc)?.copy(alloc)?;
    Ok(())
}

fn may_be_shared<T: Send + Sync + Drop>(_value: T) {}

#[test]
fn statements_may_be_shared(rt: HostRuntime) -> Result<(), Fail> {
    may_be_shared(some_update(rt.alloc())?);
    Ok(())
}
