//! Turns over a link in memory that counts its calls.
ghost use Rattle.std.specs.Prelude.{◌≡◌, [], true, IfOk};
ghost use Rattle.std.specs.List.{list_all};
ghost use Rattle.request_types.specs.Ids.{are_once, is_listed};
ghost use Rattle.line_pipeline.specs.Settled.{asked_by, answered_by, parts_of};
ghost use Rattle.hs_outside.specs.MemoryLink.{known_link};

use super::*;
use hs_outside::{Link, MemLink, Port, Recv, Sent};
use line_pipeline::{Batch, ConnId, ConnState, Outcome, Part, Reason, Replies, Secrets, conns_new};
use row_types::{ByteText, List, Schema};
use std::alloc::{AllocError, Global};
use std::process::Abort;
use std::test::Fail;

/// A link in memory, and how often it was asked for bytes and handed some.
#[derive(Drop)]
struct Counted {
    link: MemLink,
    receives: u32,
    sends: u32,
}

impl Link for Counted {
    ghost peer = { λ counted. known_link counted.link };

    fn faults(&self) -> u64 {
        self.link.faults()
    }

    fn idle(&self) -> u64 {
        self.link.idle()
    }

    fn ended(&self) -> bool {
        self.link.ended()
    }

    fn recv(&mut self, buffer: &mut [u8]) -> Recv {
        self.receives = self.receives.saturating_add(1);
        self.link.recv(buffer)
    }

    fn send(&mut self, bytes: &[u8]) -> Sent {
        self.sends = self.sends.saturating_add(1);
        self.link.send(bytes)
    }
}

/// No connection, to tables of which there are none.
fn no_connections(alloc: Global) -> Result<Links<Counted>, AllocError> {
    let secrets = Secrets {
        reading: None,
        writing: None,
    };
    let schema = Schema {
        tables: List::new(alloc),
    };
    links_new(alloc, conns_new(alloc, schema, secrets)?)
}

fn added(rt: &impl Abort, alloc: Global, links: &mut Links<Counted>, link: MemLink) -> ConnId {
    let link = Counted {
        link,
        receives: 0,
        sends: 0,
    };
    match links.add(alloc, Port::Writing, link) {
        Ok(conn) => conn,
        Err(_) => panic!(rt; "a connection wasn't added"),
    }
}

/// A batch that was done, with this text for the connection of its first item.
fn done(alloc: Global, batch: &Batch, text: &[u8]) -> Result<Outcome, AllocError>
    ensures asked { IfOk result (λ outcome.
        list_all (is_listed (asked_by batch.now)) (answered_by (parts_of outcome)) ≡ true) }
    ensures once { IfOk result (λ outcome. are_once (answered_by (parts_of outcome)) ≡ true) }
{
    let mut parts = List::new(alloc);
    let [first, ..] = batch.items.as_slice() else {
        return Ok(Outcome::Done(Replies { parts }));
    };
    let text = ByteText::of(alloc, text)?;
    parts.push(Part {
        conn: first.conn,
        text,
    })?;
    Ok(Outcome::Done(Replies { parts }))
}

/// What is left of a connection once a turn is over, and its link.
fn after(rt: &impl Abort, links: &mut Links<Counted>, conn: ConnId) -> (ConnState, Counted) {
    assert!(rt; links.has(conn));
    let state = links.state(conn);
    (state, links.remove(conn))
}

/// A link whose peer has sent so many times a piece.
fn sending(alloc: Global, count: u32, piece: &[u8]) -> Result<MemLink, AllocError> {
    let mut link = MemLink::new(alloc);
    for _ in 0..count {
        link.peer_bytes(piece)?;
    }
    Ok(link)
}

#[test]
fn a_turn_receives_until_no_more_comes_and_sends_once(rt: HostRuntime) -> Result<(), Fail> {
    let alloc = rt.alloc();
    for (count, piece, receives, sent, state) in [
        (0, b"x".as_slice(), 1, b"".as_slice(), ConnState::Live),
        (1, b"x", 2, b"", ConnState::Live),
        (1, b"x\n", 2, b"1\n", ConnState::Live),
        (3, b"x\n", 2, b"1\n", ConnState::Live),
        (131_072, b"x", 1, b"", ConnState::Closed(Reason::TooLong)),
    ] {
        let mut links = no_connections(alloc)?;
        let conn = added(&rt, alloc, &mut links, sending(alloc, count, piece)?);
        let batch = links.begin_turn(alloc, &[conn])?;
        let outcome = done(alloc, &batch, b"1\n")?;
        links.end_turn(&[conn], &batch, outcome);
        let (left, counted) = after(&rt, &mut links, conn);
        assert!(rt; left == state);
        assert!(rt; counted.link.sent() == sent);
        assert_eq!(rt; counted.receives, receives);
        assert_eq!(rt; counted.sends, sent.len().min(1) as u32);
    }
    Ok(())
}

#[test]
fn who_asked_is_closed_where_the_disk_failed(rt: HostRuntime) -> Result<(), Fail> {
    let alloc = rt.alloc();
    for (piece, state) in [
        (b"x\n".as_slice(), ConnState::Closed(Reason::BatchDisk)),
        (b"x", ConnState::Live),
    ] {
        let mut links = no_connections(alloc)?;
        let conn = added(&rt, alloc, &mut links, sending(alloc, 1, piece)?);
        let batch = links.begin_turn(alloc, &[conn])?;
        links.end_turn(&[conn], &batch, Outcome::DiskFault);
        let (left, counted) = after(&rt, &mut links, conn);
        assert!(rt; left == state);
        assert!(rt; counted.link.sent().is_empty());
    }
    Ok(())
}
