//! Lines that are read, and lines that are refused, each by the rule that comes first.
ghost use Rattle.std.specs.Prelude.{◌<◌, ◌^◌, length, IfOk};

use super::*;
use request_types::{Code, Fault};
use row_types::{ByteText, Column, IndexDef, IndexKind, Kind, List, Schema, TableDef, Value};
use std::alloc::{AllocError, Global};
use std::test::Fail;

fn column(alloc: Global, name: &[u8], kind: Kind, null: bool) -> Result<Column, AllocError> {
    Ok(Column {
        name: ByteText::of(alloc, name)?,
        kind,
        null,
        auto: false,
        preset: Value::Null,
    })
}

// id int, name bytes:32, n int
fn table(alloc: Global, db: &[u8], name: &[u8]) -> Result<TableDef, AllocError> {
    let mut columns = List::new(alloc);
    columns.push(column(alloc, b"id", Kind::Int, false)?)?;
    columns.push(column(alloc, b"name", Kind::Bytes(32), true)?)?;
    columns.push(column(alloc, b"n", Kind::Int, false)?)?;
    let mut parts = List::new(alloc);
    parts.push(0)?;
    let mut indexes = List::new(alloc);
    indexes.push(IndexDef {
        name: ByteText::of(alloc, b"PRIMARY")?,
        kind: IndexKind::Primary,
        parts,
    })?;
    Ok(TableDef {
        db: ByteText::of(alloc, db)?,
        name: ByteText::of(alloc, name)?,
        columns,
        indexes,
    })
}

// test.t, test.u and other.u
fn schema(alloc: Global) -> Result<Schema, AllocError>
    ensures { IfOk result (λ schema. length schema.tables < 2 ^ 32) }
{
    let mut tables = List::new(alloc);
    tables.push(table(alloc, b"test", b"t")?)?;
    tables.push(table(alloc, b"test", b"u")?)?;
    tables.push(table(alloc, b"other", b"u")?)?;
    Ok(Schema { tables })
}

// `read`, or the refusal's text.
fn verdict(alloc: Global, schema: &Schema, line: &[u8]) -> &'static [u8]
    requires { length schema.now.tables < 2 ^ 32 }
{
    match parse(alloc, schema, line) {
        Ok(_) => b"read",
        Err(Fault::Refused(code)) => code.text().as_bytes(),
        Err(Fault::NoMemory) => b"no memory",
    }
}

const STATEMENTS: &[&[u8]] = &[
    b"SELECT * FROM t",
    b"sElEcT\tid ,n\rFrOm test.t ;",
    b"SELECT ID, `n` FROM `t` WHERE NAME = 'a'",
    b"SELECT id FROM other.u LIMIT 3",
    b"SELECT id FROM t LIMIT 2, 7",
    b"SELECT id FROM t LIMIT 7 OFFSET 2",
    b"SELECT id FROM t LIMIT 18446744073709551615",
    b"SELECT id FROM t ORDER BY n DESC, id asc, name",
    b"SELECT 1-2-3, 1-2*3, (1-2)*3 FROM t",
    b"SELECT -9223372036854775808, - -5, -(5), -n FROM t",
    b"SELECT 9223372036854775807, 007, NULL, (NULL) FROM t",
    b"SELECT id FROM t WHERE id=1 OR id=2 AND NOT n=3",
    b"SELECT id FROM t WHERE ((id<>1 AND n!=2) OR (id)>=n)",
    b"SELECT id FROM t WHERE NOT NOT n<3 AND n<=4",
    b"SELECT id FROM t WHERE n IS NULL OR n+1 IS NOT NULL",
    b"SELECT id FROM t WHERE n IN (1,2) AND n NOT IN (3)",
    b"SELECT id FROM t WHERE name = NULL AND NULL IN (1, 'a')",
    b"SELECT 'it''s', '\\0\\'\\\"\\b\\n\\r\\t\\Z\\\\', X'4a6F', x'' FROM t",
    b"INSERT INTO t VALUES (1, 'a', 2), (3, DEFAULT, NULL)",
    b"insert t (n, ID) values (1+2, -3)",
    b"UPDATE t SET n = n + 1, n = DEFAULT WHERE id > 2 ORDER BY id LIMIT 5",
    b"DELETE FROM t",
    b"DELETE FROM test.u WHERE id = 1 ORDER BY id DESC LIMIT 1;",
    b"sElEcT iD fRoM t wHeRe n iS nOt nUlL aNd iD nOt iN (1) oR n=2 oRdEr bY n aSc lImIt 1 oFfSeT 2",
    b"iNsErT iNtO t vAlUeS (1, dEfAuLt, 2)",
    b"uPdAtE t sEt n=1 oRdEr bY n dEsC",
    b"dElEtE fRoM t",
];

#[test]
fn statements_are_read(rt: HostRuntime) -> Result<(), Fail> {
    let alloc = rt.alloc();
    let schema = schema(alloc)?;
    for line in STATEMENTS {
        let found = verdict(alloc, &schema, line);
        assert!(rt; found == b"read".as_slice());
    }
    Ok(())
}

const REFUSALS: &[(&[u8], Code)] = &[
    (b"", Code::Syntax),
    (b"SELEC id FROM t", Code::Syntax),
    (b"SELECT id", Code::Syntax),
    (b"SELECT FROM t", Code::Syntax),
    (b"SELECT id FROM t;;", Code::Syntax),
    (b"SELECT id, FROM t", Code::Syntax),
    (b"SELECT *, id FROM t", Code::Syntax),
    (b"SELECT id AS a FROM t", Code::Syntax),
    (b"SELECT id FROM t WHERE id", Code::Syntax),
    (b"SELECT id = 1 FROM t", Code::Syntax),
    (b"SELECT id FROM t WHERE id = 1 = 1", Code::Syntax),
    (b"SELECT id FROM t WHERE (id = 1) + 1 = 2", Code::Syntax),
    (b"SELECT id FROM t WHERE id IN ()", Code::Syntax),
    (b"SELECT id FROM t WHERE NOT id", Code::Syntax),
    (b"SELECT id FROM t WHERE id = NOT n", Code::Syntax),
    (b"SELECT +1 FROM t", Code::Syntax),
    (b"SELECT 9223372036854775808 FROM t", Code::Syntax),
    (b"SELECT -9223372036854775809 FROM t", Code::Syntax),
    (b"SELECT 1x FROM t", Code::Syntax),
    (b"SELECT 1_ FROM t", Code::Syntax),
    (b"SELECT 'a\\x' FROM t", Code::Syntax),
    (b"SELECT 'a FROM t", Code::Syntax),
    (b"SELECT X'4' FROM t", Code::Syntax),
    (b"SELECT X'4g' FROM t", Code::Syntax),
    (b"SELECT `1` FROM t", Code::Syntax),
    (b"SELECT id FROM t LIMIT 18446744073709551616", Code::Syntax),
    (b"SELECT id FROM t LIMIT -1", Code::Syntax),
    (b"UPDATE t SET n = 1 LIMIT 1, 2", Code::Syntax),
    (b"DELETE FROM t LIMIT 1 OFFSET 2", Code::Syntax),
    (b"SELECT id FROM t -- all", Code::Syntax),
    (b"INSERT INTO t VALUES (1, 'a')", Code::Syntax),
    (b"INSERT INTO t (id, n) VALUES (1, 2, 3)", Code::Syntax),
    (b"INSERT INTO nosuch (id, n) VALUES (1)", Code::Syntax),
    (b"SELECT nosuch FROM t WHERE", Code::Syntax),
    (b"SELECT `select`.`from` FROM t", Code::Syntax),
    (b"INSERT INTO nosuch VALUES (1), (2, 3)", Code::Name),
    (b"SELECT * FROM nosuch", Code::Name),
    (b"SELECT id FROM u", Code::Name),
    (b"SELECT id FROM T", Code::Name),
    (b"SELECT id FROM other.t", Code::Name),
    (b"SELECT nosuch FROM t", Code::Name),
    (b"SELECT offset FROM t", Code::Name),
    (b"SELECT id FROM t ORDER BY nosuch", Code::Name),
    (
        b"SELECT id FROM t WHERE nosuch = 'a' AND id = 'a'",
        Code::Name,
    ),
    (b"INSERT INTO t (id, ID) VALUES (1, 2)", Code::Name),
    (b"INSERT INTO t (id, n) VALUES (1, id)", Code::Name),
    (b"UPDATE t SET nosuch = 1", Code::Name),
    (b"SELECT name + 1 FROM t", Code::WrongKind),
    (b"SELECT -name FROM t", Code::WrongKind),
    (b"SELECT id FROM t WHERE id = 'a'", Code::WrongKind),
    (b"SELECT id FROM t WHERE -NULL = 'a'", Code::WrongKind),
    (b"SELECT id FROM t WHERE id IN (1, 'a')", Code::WrongKind),
    (b"INSERT INTO t VALUES ('a', 'a', 1)", Code::WrongKind),
    (b"UPDATE t SET name = 1", Code::WrongKind),
    (b"UPDATE t SET n = name", Code::WrongKind),
];

#[test]
fn other_lines_are_refused_by_the_first_rule(rt: HostRuntime) -> Result<(), Fail> {
    let alloc = rt.alloc();
    let schema = schema(alloc)?;
    for (line, code) in REFUSALS {
        let found = verdict(alloc, &schema, line);
        assert!(rt; found == code.text().as_bytes());
    }
    Ok(())
}

// A line of parts, of which the second and the third are there so many times.
fn repeated(
    alloc: Global,
    front: &[u8],
    before: (&[u8], usize),
    after: (&[u8], usize),
    end: &[u8],
) -> Result<Vec<u8>, AllocError> {
    let mut line = Vec::from_slice(alloc, front)?;
    for _ in 0..before.1 {
        line.extend_from_slice(before.0)?;
    }
    line.extend_from_slice(b"1")?;
    for _ in 0..after.1 {
        line.extend_from_slice(after.0)?;
    }
    line.extend_from_slice(end)?;
    Ok(line)
}

/// What stands before, what is there how often, around what, and whether it is read or refused.
const DEEP: &[(&[u8], (&[u8], usize), (&[u8], usize), &[u8], &[u8])] = &[
    (b"SELECT ", (b"(", 100), (b")", 100), b" FROM t", b"read"),
    (b"SELECT ", (b"(", 101), (b")", 101), b" FROM t", b"syntax"),
    (b"SELECT ", (b"- ", 100), (b"", 0), b" FROM t", b"read"),
    (b"SELECT ", (b"- ", 101), (b"", 0), b" FROM t", b"syntax"),
    (
        b"INSERT t(n) VALUES (",
        (b"(", 99),
        (b")", 99),
        b")",
        b"read",
    ),
    (
        b"INSERT t(n) VALUES (",
        (b"(", 100),
        (b")", 100),
        b")",
        b"syntax",
    ),
    (
        b"DELETE FROM t WHERE ",
        (b"NOT ", 100),
        (b"=1", 1),
        b"",
        b"read",
    ),
    (
        b"DELETE FROM t WHERE ",
        (b"NOT ", 101),
        (b"=1", 1),
        b"",
        b"syntax",
    ),
    (b"SELECT ", (b"", 0), (b"+1", 999), b" FROM t", b"read"),
    (b"SELECT ", (b"", 0), (b"+1", 1000), b" FROM t", b"syntax"),
    (b"SELECT ", (b"(", 65536), (b"", 0), b" FROM t", b"syntax"),
    (b"SELECT ", (b"-", 30000), (b"", 0), b" FROM t", b"syntax"),
    (b"SELECT ", (b"", 0), (b"+1", 30000), b" FROM t", b"syntax"),
    (b"SELECT ", (b"'", 1), (b"a", 60000), b" FROM t", b"syntax"),
    (b"SELECT ", (b"\0", 1), (b"", 0), b" FROM t", b"syntax"),
    (
        b"DELETE FROM t WHERE n IN (",
        (b"7,", 20000),
        (b"", 0),
        b")",
        b"read",
    ),
    (
        b"DELETE FROM t WHERE n IN (",
        (b"7,", 20000),
        (b"", 0),
        b"",
        b"syntax",
    ),
];

#[test]
fn depth_and_length_are_bounded(rt: HostRuntime) -> Result<(), Fail> {
    let alloc = rt.alloc();
    let schema = schema(alloc)?;
    for (front, before, after, end, wanted) in DEEP {
        let line = repeated(alloc, front, *before, *after, end)?;
        let found = verdict(alloc, &schema, line.as_slice());
        assert!(rt; found == *wanted);
    }
    Ok(())
}
