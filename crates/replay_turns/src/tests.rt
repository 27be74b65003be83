//! What no contract of a session says: the memory that it needs is had.

use super::*;
use crate::sayings::Saying;
use batch_answers::TablesAlone;
use line_pipeline::Secrets;
use request_types::Port;
use row_types::{List, Schema};
use std::alloc::{AllocError, Global};
use std::test::Fail;

/// A session of no table.
fn new_session(alloc: Global) -> Result<Session<TablesAlone>, AllocError> {
    let schema = Schema {
        tables: List::new(alloc),
    };
    let secrets = Secrets {
        reading: None,
        writing: None,
    };
    let tables = TablesAlone::new(alloc, &schema, 1_000)?;
    Session::new(alloc, &schema, secrets, tables)
}

/// The peer of connection 1 sends a piece so many times.
fn sends(session: &mut Session<TablesAlone>, count: u32, piece: &[u8]) -> Result<(), AllocError> {
    for _ in 0..count {
        session.peer_bytes(1, piece)?;
    }
    Ok(())
}

/// What the peer of a connection or its link will do.
fn says(session: &mut Session<TablesAlone>, number: u32, saying: Saying) {
    match saying {
        Saying::PeerEnds => session.peer_end(number),
        Saying::Room(count) => session.room(number, count),
        Saying::FailsNext => session.fail_next(number),
    }
}

/// Whether a turn of this connection prints this.
fn prints(
    alloc: Global,
    session: &mut Session<TablesAlone>,
    number: u32,
    wanted: &[u8],
) -> Result<bool, AllocError> {
    let mut text = Vec::new(alloc);
    session.turn(alloc, &[number], &mut text)?;
    Ok(text.as_slice() == wanted)
}

/// A line `x` is answered that there is no such command.
#[test]
fn a_turn_prints_what_was_sent_and_who_closed(rt: HostRuntime) -> Result<(), Fail> {
    let alloc = rt.alloc();
    for (count, piece, saying, printed) in [
        (
            0,
            b"".as_slice(),
            Saying::Room(0),
            b"sent\t1\t\n".as_slice(),
        ),
        (1, b"x\n", Saying::Room(3), b"sent\t1\t1\x01\x491\n"),
        (
            1,
            b"x\n",
            Saying::FailsNext,
            b"sent\t1\t\nclosed\t1\tlink\n",
        ),
        (1, b"x", Saying::PeerEnds, b"sent\t1\t\nclosed\t1\tended\n"),
        (65_536, b"x", Saying::Room(9), b"sent\t1\t\n"),
        (
            65_537,
            b"x",
            Saying::Room(9),
            b"sent\t1\t\nclosed\t1\tlong\n",
        ),
    ] {
        let mut session = new_session(alloc)?;
        session.open(alloc, 1, Port::Writing)?;
        sends(&mut session, count, piece)?;
        says(&mut session, 1, saying);
        assert!(rt; prints(alloc, &mut session, 1, printed)?);
    }
    Ok(())
}

/// Whether a connection 7 is let go as soon as its peer ends.
fn comes_and_goes(alloc: Global, session: &mut Session<TablesAlone>) -> Result<bool, AllocError> {
    session.open(alloc, 7, Port::Writing)?;
    says(session, 7, Saying::PeerEnds);
    if !session.has_ended(7) {
        return Ok(false);
    }
    prints(alloc, session, 7, b"sent\t7\t\nclosed\t7\tended\n")
}

#[test]
fn a_place_is_free_again_after_a_closing(rt: HostRuntime) -> Result<(), Fail> {
    let alloc = rt.alloc();
    let mut session = new_session(alloc)?;
    for _ in 0..257 {
        assert!(rt; comes_and_goes(alloc, &mut session)?);
    }
    assert!(rt; session.count() == 0);
    Ok(())
}

#[test]
fn so_many_connections_are_held(rt: HostRuntime) -> Result<(), Fail> {
    let alloc = rt.alloc();
    let mut session = new_session(alloc)?;
    for number in 0..256 {
        session.open(alloc, number, Port::Writing)?;
    }
    assert!(rt; session.open(alloc, 256, Port::Writing).is_err());
    assert!(rt; session.count() == 256);
    Ok(())
}
