//! What no contract says: that there is memory for copies, and that requests and replies may go to
//! other threads.
use super::*;
use row_types::{ByteText, List, Value};
use std::alloc::{AllocError, Global};
use std::test::Fail;

// A find with every part.
fn whole_find(alloc: Global) -> Result<FindSpec, AllocError> {
    let mut key = List::new(alloc);
    key.push(Value::Int(4))?;
    let mut values = List::new(alloc);
    values.push(Value::Text(ByteText::of(alloc, b"a")?))?;
    let mut filters = List::new(alloc);
    filters.push(FilterSpec {
        stop: true,
        op: FilterOp::Equal,
        column: 0,
        value: Value::Int(4),
    })?;
    Ok(FindSpec {
        table: 2,
        index: 1,
        op: FindOp::Equal,
        key,
        within: Some(InSpec { part: 0, values }),
        limit: 7,
        offset: 8,
        filters,
        columns: List::of_vec(Vec::from_slice(alloc, &[2, 0])?),
    })
}

// A batch that asks for a change of those rows, for an insert, and for nothing.
fn whole_batch(alloc: Global) -> Result<Batch, AllocError> {
    let mut values = List::new(alloc);
    values.push(Value::Int(-4))?;
    let change = ModSpec {
        kind: ModKind::Subtract,
        values,
        show: true,
    };
    let insert = InsertSpec {
        table: 2,
        columns: List::new(alloc),
        values: List::new(alloc),
    };
    let mut items = List::new(alloc);
    for kind in [
        ItemKind::Hs(Request::Modify(whole_find(alloc)?, change)),
        ItemKind::Hs(Request::Insert(insert)),
        ItemKind::Ready(0),
    ] {
        let conn = ConnId {
            number: 3,
            generation: 5,
        };
        items.push(Item { conn, kind })?;
    }
    Ok(Batch { items })
}

#[test]
fn a_copy_finds_memory(rt: HostRuntime) -> Result<(), Fail> {
    let alloc = rt.alloc();
    let _ = Request::Find(whole_find(alloc)?).copy(alloc)?;
    let _ = whole_batch(alloc)?.copy(alloc)?;
    Ok(())
}

fn may_be_shared<T: Send + Sync + Drop>(_value: T) {}

#[test]
fn requests_and_replies_may_be_shared(rt: HostRuntime) -> Result<(), Fail> {
    let alloc = rt.alloc();
    may_be_shared(Request::Find(whole_find(alloc)?));
    may_be_shared(whole_batch(alloc)?);
    may_be_shared(Replies {
        parts: List::new(alloc),
    });
    Ok(())
}
