//! What no contract says: that there is memory, and that values may go to other threads.
use super::*;
use std::alloc::{AllocError, Global};
use std::test::Fail;

// A number, or trees.
#[derive(Debug, Drop)]
enum Tree {
    Leaf(i64),
    Many(List<Tree>),
}

// A table of one column and one index.
fn some_schema(alloc: Global) -> Result<Schema, AllocError> {
    let mut columns = List::new(alloc);
    columns.push(Column {
        name: ByteText::of(alloc, b"id")?,
        kind: Kind::Int,
        null: false,
        auto: false,
        preset: Value::Text(ByteText::of(alloc, b"a")?),
    })?;
    let mut parts = List::new(alloc);
    parts.push(0)?;
    let mut indexes = List::new(alloc);
    indexes.push(IndexDef {
        name: ByteText::of(alloc, b"PRIMARY")?,
        kind: IndexKind::Primary,
        parts,
    })?;
    let mut tables = List::new(alloc);
    tables.push(TableDef {
        db: ByteText::of(alloc, b"test")?,
        name: ByteText::of(alloc, b"t")?,
        columns,
        indexes,
    })?;
    Ok(Schema { tables })
}

#[test]
fn a_copy_finds_memory(rt: HostRuntime) -> Result<(), Fail> {
    let alloc = rt.alloc();
    let _ = some_schema(alloc)?.copy(alloc)?;
    let mut row = List::new(alloc);
    row.push(Value::Int(1))?;
    row.push(Value::Text(ByteText::of_vec(Vec::from_slice(alloc, b"ann")?)))?;
    let _ = copy_row(alloc, &row)?;
    Ok(())
}

#[test]
fn a_list_holds_what_holds_it(rt: HostRuntime) -> Result<(), Fail> {
    let mut parts = List::new(rt.alloc());
    parts.push(Tree::Leaf(7))?;
    assert!(rt; matches!(Tree::Many(parts), Tree::Many(_)));
    Ok(())
}

fn may_be_shared<T: Send + Sync + Drop>(_value: T) {}

#[test]
fn values_rows_and_schemas_may_be_shared(rt: HostRuntime) -> Result<(), Fail> {
    let alloc = rt.alloc();
    may_be_shared(Value::Null);
    may_be_shared::<Row>(List::new(alloc));
    may_be_shared(some_schema(alloc)?);
    Ok(())
}
