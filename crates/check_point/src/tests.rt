//! What no contract says: that there is memory to read an area and to write it again.
ghost use Rattle.std.specs.Prelude.{◌≡◌, [], ◌∷◌, IfOk};
ghost use Rattle.row_types.specs.declared.values.Value.TheVariants as values;
ghost use Rattle.change_set.specs.Examples.{coded_schema};

use super::*;
use row_types::{ByteText, Column, IndexDef, IndexKind, Kind, List, Schema, TableDef, Value};
use std::alloc::{AllocError, Global};
use std::test::Fail;

fn column(
    alloc: Global,
    name: &[u8],
    kind: Kind,
    null: bool,
    auto: bool,
) -> Result<Column, AllocError>
    ensures { IfOk result (λ column.
        column ≡ record {
          name = name.now;
          kind = kind;
          null = null;
          auto = auto;
          preset = values.Null;
        }) }
{
    Ok(Column {
        name: ByteText::of(alloc, name)?,
        kind,
        null,
        auto,
        preset: Value::Null,
    })
}

fn index(alloc: Global, name: &[u8], kind: IndexKind, part: u32) -> Result<IndexDef, AllocError>
    ensures { IfOk result (λ index.
        index ≡ record { name = name.now; kind = kind; parts = part ∷ [] }) }
{
    let mut parts = List::new(alloc);
    parts.push(part)?;
    Ok(IndexDef {
        name: ByteText::of(alloc, name)?,
        kind,
        parts,
    })
}

// A counted id, and a code that no two rows share.
fn schema(alloc: Global) -> Result<Schema, AllocError>
    ensures { IfOk result (λ schema. schema ≡ coded_schema) }
{
    let mut columns = List::new(alloc);
    columns.push(column(alloc, b"id", Kind::Int, false, true)?)?;
    columns.push(column(alloc, b"code", Kind::Bytes(4), true, false)?)?;
    let mut indexes = List::new(alloc);
    indexes.push(index(alloc, b"PRIMARY", IndexKind::Primary, 0)?)?;
    indexes.push(index(alloc, b"by_code", IndexKind::Unique, 1)?)?;
    let mut tables = List::new(alloc);
    tables.push(TableDef {
        db: ByteText::of(alloc, b"test")?,
        name: ByteText::of(alloc, b"a")?,
        columns,
        indexes,
    })?;
    Ok(Schema { tables })
}

// No row; and the rows (1, ab) and (2, NULL) with the counter 9.
const NO_ROW: &[u8] = b"\0\0\0\0";

const TWO_ROWS: &[u8] =
    b"\0\0\0\x03\x01\0\0\x01\0\0\0\0\0\0\0\x01\x02\0\0\0\x02ab\x01\0\0\x01\0\0\0\0\0\0\0\x02\0\x03\0\0\0\0\0\0\0\0\0\x09";

#[test]
fn an_area_is_read_and_written_again(rt: HostRuntime) -> Result<(), Fail> {
    let alloc = rt.alloc();
    let schema = schema(alloc)?;
    for (len, area) in [(4u8, NO_ROW), (47, TWO_ROWS)] {
        let tables = read_area(alloc, &schema, area, 1000)?;
        let mut segment = Vec::new(alloc);
        push_area(&tables, 258, &mut segment)?;
        let mut by_hand = Vec::new(alloc);
        by_hand.extend_from_slice(&[0, 0, 0, 0, 0, 0, 1, 2, 0, 0, 0, len])?;
        by_hand.extend_from_slice(area)?;
        by_hand.push(0)?;
        assert!(rt; segment == by_hand, "{len}");
    }
    Ok(())
}
