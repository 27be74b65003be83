//! What no contract says: that there is memory, and that tables may go to another thread.
mod table;

use super::*;
use std::test::Fail;
use table::{begin, row, try_put};

#[test]
fn a_thousand_rows_find_memory(rt: HostRuntime) -> Result<(), Fail> {
    let alloc = rt.alloc();
    let mut tables = begin(alloc, 100_000)?;
    let mut undo = UndoList::list_new(alloc);
    for id in 0..1000 {
        let new = row(alloc, id, 7)?;
        assert!(rt; try_put(&mut tables, new, &mut undo)? == Verdict::Fine);
    }
    assert_eq!(rt; tables.count(0), 1000);
    Ok(())
}

fn may_go<T: Send + Drop>(_value: T) {}

#[test]
fn tables_may_go_to_another_thread(rt: HostRuntime) -> Result<(), Fail> {
    let alloc = rt.alloc();
    may_go(begin(alloc, 0)?);
    may_go(UndoList::list_new(alloc));
    Ok(())
}
