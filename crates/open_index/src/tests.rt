//! What no contract says: that there is memory for what a line asks, and that open ids may go to
//! other threads.
ghost use Rattle.std.specs.Prelude.{IfOk};
ghost use Rattle.open_index.specs.Open.{IsNumbered, IsTableNumbered};

use super::*;
use request_types::Port;
use row_types::{ByteText, Column, IndexDef, IndexKind, Kind, List, Schema, TableDef, Value};
use std::alloc::{AllocError, Global};
use std::test::Fail;

fn column(alloc: Global, name: &[u8], kind: Kind) -> Result<Column, AllocError> {
    Ok(Column {
        name: ByteText::of(alloc, name)?,
        kind,
        null: true,
        auto: false,
        preset: Value::Null,
    })
}

// The table `test.t` of the columns `id`, `name` and `n`, with an index over `id`.
fn table(alloc: Global) -> Result<TableDef, AllocError>
    ensures { IfOk result (λ table. IsTableNumbered table) }
{
    let mut columns = List::new(alloc);
    columns.push(column(alloc, b"id", Kind::Int)?)?;
    columns.push(column(alloc, b"name", Kind::Bytes(32))?)?;
    columns.push(column(alloc, b"n", Kind::Int)?)?;
    let mut indexes = List::new(alloc);
    indexes.push(IndexDef {
        name: ByteText::of(alloc, b"PRIMARY")?,
        kind: IndexKind::Primary,
        parts: List::of_vec(Vec::from_slice(alloc, &[0])?),
    })?;
    Ok(TableDef {
        db: ByteText::of(alloc, b"test")?,
        name: ByteText::of(alloc, b"t")?,
        columns,
        indexes,
    })
}

fn schema(alloc: Global) -> Result<Schema, AllocError>
    ensures { IfOk result (λ schema. IsNumbered schema) }
{
    let mut tables = List::new(alloc);
    tables.push(table(alloc)?)?;
    Ok(Schema { tables })
}

#[derive(Clone, Copy, Debug, PartialEq, Eq)]
enum Does {
    Refuses(u32),
    Opens,
    Tells,
    Asks,
}

fn done_by(resolved: &Resolved) -> Does {
    match resolved {
        Resolved::Reply(code) => Does::Refuses(*code),
        Resolved::Opened => Does::Opens,
        Resolved::Authed => Does::Tells,
        Resolved::Ask(_) => Does::Asks,
    }
}

// Lines of one connection to a port with the secret `k`, one after the other.
static LINES: [(&[u8], Does); 15] = [
    (b"P\t1\ttest\tt\tPRIMARY\tid,name,n", Does::Refuses(3)),
    (b"A\t1\tk", Does::Tells),
    (b"P\t1\ttest\tt\tPRIMARY\tid,name,n", Does::Opens),
    (b"P\t3\ttest\tt\tPRIMARY\tid\tn,id", Does::Opens),
    (b"P\t4\ttest\tt\tPRIMARY\tn", Does::Opens),
    (b"1\t>=\t1\t7\t10\t0", Does::Asks),
    (b"1\t=\t1\t0\t9\t0\t@\t0\t3\t1\t4\t7", Does::Asks),
    (b"3\t>=\t1\t0\t9\t0\tF\t>\t0\t5\tW\t!=\t1\t8", Does::Asks),
    (b"1\t=\t1\t7\tU\t7\tbob", Does::Asks),
    (b"4\t=\t1\t7\t+?\t10", Does::Asks),
    (b"1\t<\t1\t7\t100\t0\tD", Does::Asks),
    (b"1\t+\t3\t7\tann\t\x00", Does::Asks),
    (b"P\t9\tother\tt\tPRIMARY\tid", Does::Refuses(6)),
    (b"P\t9\ttest\tt\tPRIMARY\tid,id", Does::Refuses(8)),
    (b"1\t=\t1\t1\r", Does::Refuses(4)),
];

#[test]
fn lines_find_memory(rt: HostRuntime) -> Result<(), Fail> {
    let alloc = rt.alloc();
    let schema = schema(alloc)?;
    let mut handles = handles_new(alloc);
    let mut auth = Auth {
        secret: Some(ByteText::of(alloc, b"k")?),
        passed: false,
    };
    for (line, becomes) in &LINES {
        let port = Port::Writing;
        let resolved = resolve(alloc, &schema, port, &mut handles, &mut auth, line)?;
        assert_eq!(rt; done_by(&resolved), *becomes);
    }
    Ok(())
}

fn may_be_sent<T: Send + Drop>(_value: T) {}

#[test]
fn open_ids_may_be_sent(rt: HostRuntime) -> Result<(), Fail> {
    let alloc = rt.alloc();
    may_be_sent(handles_new(alloc));
    may_be_sent(Auth {
        secret: Some(ByteText::of(alloc, b"k")?),
        passed: true,
    });
    may_be_sent(Resolved::Opened);
    Ok(())
}
