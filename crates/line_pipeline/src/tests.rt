//! Connections over a whole life: what is taken of each, what it is sent, and why it is closed.
ghost use Rattle.std.specs.Prelude.{◌≡◌, [], true, IfOk};
ghost use Rattle.std.specs.List.{list_all};
ghost use Rattle.request_types.specs.Ids.{are_once, is_listed};
ghost use Rattle.line_pipeline.specs.Settled.{asked_by, answered_by, parts_of};

use super::*;
use request_types::Port;
use row_types::{ByteText, List, Schema};
use std::alloc::{AllocError, Global};
use std::process::Abort;
use std::test::Fail;

/// Connections to tables of which there are none. The secret of the reading port is `k`.
fn connections(alloc: Global) -> Result<ConnTable, AllocError> {
    let secrets = Secrets {
        reading: Some(ByteText::of(alloc, b"k")?),
        writing: None,
    };
    let schema = Schema {
        tables: List::new(alloc),
    };
    conns_new(alloc, schema, secrets)
}

fn added(rt: &impl Abort, alloc: Global, table: &mut ConnTable, port: Port) -> ConnId {
    match table.add(alloc, port) {
        Ok(conn) => conn,
        Err(_) => panic!(rt; "a connection wasn't added"),
    }
}

fn feed(rt: &impl Abort, table: &mut ConnTable, conn: ConnId, piece: &[u8]) {
    assert!(rt; table.has(conn));
    assert!(rt; piece.len() <= table.room(conn));
    table.feed(conn, piece);
}

/// Sends the first bytes that wait, at most so many, and answers how many.
fn send(rt: &impl Abort, table: &mut ConnTable, conn: ConnId, most: usize) -> usize {
    assert!(rt; table.has(conn));
    let count = table.unsent(conn).len().min(most);
    table.sent(conn, count);
    count
}

fn state(rt: &impl Abort, table: &ConnTable, conn: ConnId) -> ConnState {
    assert!(rt; table.has(conn));
    table.state(conn)
}

/// A batch that was done, with this text for the connection of its first item.
fn done(alloc: Global, batch: &Batch, text: &[u8]) -> Result<Outcome, AllocError>
    ensures asked { IfOk result (λ outcome.
        list_all (is_listed (asked_by batch.now)) (answered_by (parts_of outcome)) ≡ true) }
    ensures once { IfOk result (λ outcome. are_once (answered_by (parts_of outcome)) ≡ true) }
{
    let mut parts = List::new(alloc);
    let [first, ..] = batch.items.as_slice() else {
        return Ok(Outcome::Done(Replies { parts }));
    };
    let text = ByteText::of(alloc, text)?;
    parts.push(Part {
        conn: first.conn,
        text,
    })?;
    Ok(Outcome::Done(Replies { parts }))
}

/// A batch that wasn't done, by the reason for which its connections close.
fn failed(reason: Reason) -> Outcome
    ensures { parts_of result ≡ [] }
{
    match reason {
        Reason::BatchDisk => Outcome::DiskFault,
        _ => Outcome::NoMemory,
    }
}

#[test]
fn a_line_is_taken_once_its_end_has_come(rt: HostRuntime) -> Result<(), Fail> {
    let alloc = rt.alloc();
    let mut table = connections(alloc)?;
    let conn = added(&rt, alloc, &mut table, Port::Writing);
    for (piece, lines) in [
        (b"x".as_slice(), 0),
        (b"\n", 1),
        (b"", 0),
        (b"a\r\n\nb", 2),
        (b"\n", 1),
    ] {
        feed(&rt, &mut table, conn, piece);
        let batch = table.gather(alloc, &[conn])?;
        assert_eq!(rt; batch.items.as_slice().len(), lines);
    }
    Ok(())
}

#[test]
fn a_turn_takes_256_lines_and_the_next_the_others(rt: HostRuntime) -> Result<(), Fail> {
    let alloc = rt.alloc();
    let mut table = connections(alloc)?;
    let conn = added(&rt, alloc, &mut table, Port::Writing);
    for _ in 0..257 {
        feed(&rt, &mut table, conn, b"x\n");
    }
    for lines in [256, 1, 0] {
        let batch = table.gather(alloc, &[conn])?;
        assert_eq!(rt; batch.items.as_slice().len(), lines);
        assert!(rt;
            batch
                .items
                .as_slice()
                .iter()
                .all(|item| matches!(item.kind, ItemKind::Ready(1)))
        );
    }
    Ok(())
}

#[test]
fn the_lines_before_one_that_is_too_long_are_answered_and_then_it_closes(
    rt: HostRuntime,
) -> Result<(), Fail> {
    let alloc = rt.alloc();
    for (len, lines, end) in [
        (65_536, 1, ConnState::Live),
        (65_537, 1, ConnState::Closed(Reason::TooLong)),
    ] {
        let mut table = connections(alloc)?;
        let conn = added(&rt, alloc, &mut table, Port::Writing);
        feed(&rt, &mut table, conn, b"x\n");
        for _ in 0..len {
            feed(&rt, &mut table, conn, b"x");
        }
        let batch = table.gather(alloc, &[conn])?;
        assert_eq!(rt; batch.items.as_slice().len(), lines);
        let outcome = done(alloc, &batch, b"1\t1\tcmd\n")?;
        table.settle(&batch, outcome);
        table.finish(&[conn]);
        assert_eq!(rt; state(&rt, &table, conn), ConnState::Live);
        assert_eq!(rt; send(&rt, &mut table, conn, usize::MAX), 8);
        table.finish(&[conn]);
        assert_eq!(rt; state(&rt, &table, conn), end);
    }
    Ok(())
}

#[test]
fn a_peer_that_ends_is_answered_first(rt: HostRuntime) -> Result<(), Fail> {
    let alloc = rt.alloc();
    let mut table = connections(alloc)?;
    let conn = added(&rt, alloc, &mut table, Port::Writing);
    feed(&rt, &mut table, conn, b"x\n1\t=\t1");
    table.end(conn);
    table.finish(&[conn]);
    assert_eq!(rt; state(&rt, &table, conn), ConnState::Live);
    let batch = table.gather(alloc, &[conn])?;
    let outcome = done(alloc, &batch, b"1\t1\tcmd\n")?;
    table.settle(&batch, outcome);
    table.finish(&[conn]);
    assert_eq!(rt; state(&rt, &table, conn), ConnState::Live);
    assert_eq!(rt; send(&rt, &mut table, conn, usize::MAX), 8);
    table.finish(&[conn]);
    assert_eq!(rt; state(&rt, &table, conn), ConnState::Closed(Reason::Ended));
    Ok(())
}

#[test]
fn replies_wait_in_their_order(rt: HostRuntime) -> Result<(), Fail> {
    let alloc = rt.alloc();
    let mut table = connections(alloc)?;
    let conn = added(&rt, alloc, &mut table, Port::Writing);
    for text in [b"0\t1\n".as_slice(), b"", b"1\t1\tcmd\n"] {
        feed(&rt, &mut table, conn, b"x\n");
        let batch = table.gather(alloc, &[conn])?;
        let outcome = done(alloc, &batch, text)?;
        table.settle(&batch, outcome);
    }
    for (most, count) in [(3, 3), (9, 1), (2, 2), (9, 6), (9, 0)] {
        assert_eq!(rt; send(&rt, &mut table, conn, most), count);
    }
    Ok(())
}

#[test]
fn a_batch_that_was_not_done_closes_its_connections(rt: HostRuntime) -> Result<(), Fail> {
    let alloc = rt.alloc();
    for reason in [Reason::BatchDisk, Reason::BatchMemory] {
        let mut table = connections(alloc)?;
        let conn = added(&rt, alloc, &mut table, Port::Writing);
        let other = added(&rt, alloc, &mut table, Port::Writing);
        feed(&rt, &mut table, conn, b"x\n");
        let batch = table.gather(alloc, &[conn])?;
        table.settle(&batch, failed(reason));
        table.fail(conn);
        assert_eq!(rt; state(&rt, &table, conn), ConnState::Closed(reason));
        assert_eq!(rt; send(&rt, &mut table, conn, usize::MAX), 0);
        assert_eq!(rt; state(&rt, &table, other), ConnState::Live);
    }
    Ok(())
}

#[test]
fn a_port_with_a_secret_wants_it_first(rt: HostRuntime) -> Result<(), Fail> {
    let alloc = rt.alloc();
    let mut table = connections(alloc)?;
    let conn = added(&rt, alloc, &mut table, Port::Reading);
    for (line, code) in [
        (b"1\t=\t1\t1\n".as_slice(), 3),
        (b"A\t1\tno\n", 22),
        (b"A\t1\tk\n", 0),
        (b"1\t=\t1\t1\n", 5),
    ] {
        feed(&rt, &mut table, conn, line);
        let batch = table.gather(alloc, &[conn])?;
        let [item] = batch.items.as_slice() else {
            panic!(rt; "no line was taken");
        };
        assert!(rt; matches!(item.kind, ItemKind::Ready(found) if found == code));
    }
    Ok(())
}

#[test]
fn an_id_is_never_given_out_twice(rt: HostRuntime) -> Result<(), Fail> {
    let alloc = rt.alloc();
    let mut table = connections(alloc)?;
    let mut last = added(&rt, alloc, &mut table, Port::Writing);
    for generation in 1..4 {
        assert!(rt; table.has(last));
        table.remove(last);
        let next = added(&rt, alloc, &mut table, Port::Writing);
        assert_eq!(rt;
            next,
            ConnId {
                number: 0,
                generation
            }
        );
        assert!(rt; !table.has(last));
        last = next;
    }
    Ok(())
}

#[test]
fn the_257th_connection_is_one_too_many(rt: HostRuntime) -> Result<(), Fail> {
    let alloc = rt.alloc();
    let mut table = connections(alloc)?;
    for _ in 0..256 {
        added(&rt, alloc, &mut table, Port::Writing);
    }
    assert!(rt; matches!(table.add(alloc, Port::Writing), Err(AddFault::Full)));
    Ok(())
}

#[test]
fn a_connection_that_does_not_read_is_not_heard(rt: HostRuntime) -> Result<(), Fail> {
    let alloc = rt.alloc();
    for (len, lines, later) in [(MAX_UNSENT, 1, 0), (MAX_UNSENT + 1, 0, 1)] {
        let mut table = connections(alloc)?;
        let conn = added(&rt, alloc, &mut table, Port::Writing);
        for _ in 0..257 {
            feed(&rt, &mut table, conn, b"x\n");
        }
        let batch = table.gather(alloc, &[conn])?;
        let mut text = Vec::new(alloc);
        text.resize(len, b'1')?;
        let outcome = done(alloc, &batch, &text)?;
        table.settle(&batch, outcome);
        let batch = table.gather(alloc, &[conn])?;
        assert_eq!(rt; batch.items.as_slice().len(), lines);
        assert_eq!(rt; send(&rt, &mut table, conn, usize::MAX), len);
        let batch = table.gather(alloc, &[conn])?;
        assert_eq!(rt; batch.items.as_slice().len(), later);
    }
    Ok(())
}
