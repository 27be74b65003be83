//! How the events of one connection are read.
ghost use Rattle.std.specs.Prelude.{◌≡◌, IfOk};
ghost use Rattle.replay_script.specs.Events.{bytes_event, open_event, end_event, room_event, fault_event};

use crate::events::Event;
use crate::ports::port_of;
use hs_token::{Token, parse_u32};
use std::alloc::AllocError;

/// `bytes <conn> <piece>`. The piece shares its memory with the token.
pub(crate) fn bytes_event(rest: &[Token]) -> Result<Option<Event>, AllocError>
    ensures { IfOk result (λ event. event ≡ bytes_event rest.now) }
{
    let [Token::Text(conn), Token::Text(piece)] = rest else {
        return Ok(None);
    };
    match parse_u32(conn) {
        Some(conn) => Ok(Some(Event::Bytes(conn, piece.clone()?))),
        None => Ok(None),
    }
}

/// `open <conn> <port>`
pub(crate) fn open_event(rest: &[Token]) -> Option<Event>
    ensures { result ≡ open_event rest.now }
{
    match rest {
        [Token::Text(conn), Token::Text(port)] => {
            Some(Event::Open(parse_u32(conn)?, port_of(port)?))
        }
        _ => None,
    }
}

/// `end <conn>`
pub(crate) fn end_event(rest: &[Token]) -> Option<Event>
    ensures { result ≡ end_event rest.now }
{
    match rest {
        [Token::Text(conn)] => Some(Event::End(parse_u32(conn)?)),
        _ => None,
    }
}

/// `room <conn> <n>`
pub(crate) fn room_event(rest: &[Token]) -> Option<Event>
    ensures { result ≡ room_event rest.now }
{
    match rest {
        [Token::Text(conn), Token::Text(n)] => Some(Event::Room(parse_u32(conn)?, parse_u32(n)?)),
        _ => None,
    }
}

/// `fault <conn>`
pub(crate) fn fault_event(rest: &[Token]) -> Option<Event>
    ensures { result ≡ fault_event rest.now }
{
    match rest {
        [Token::Text(conn)] => Some(Event::Fault(parse_u32(conn)?)),
        _ => None,
    }
}
