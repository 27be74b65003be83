//! How a line of a script is read as an event.
ghost use Rattle.std.specs.Prelude.{◌≡◌, IfOk};
ghost use Rattle.replay_script.specs.Events.{show_event, rarer_event, event_of_tokens, event_of};

use crate::connection_events::{bytes_event, end_event, fault_event, open_event, room_event};
use crate::events::Event;
use crate::head_events::head_event;
use crate::turn_events::turn_event;
use bytes::Bytes;
use hs_line::MAX_LINE_LEN;
use hs_token::{Token, TokenFault, decode_shared};
use row_types::{ByteText, List};
use std::alloc::{AllocError, Global};

/// The event that a line says, if it is one.
pub fn event_of(alloc: Global, line: &Bytes) -> Result<Option<Event>, AllocError>
    ensures { IfOk result (λ event. event ≡ event_of line.now) }
{
    if line.len() > MAX_LINE_LEN {
        return Ok(None);
    }
    match decode_shared(alloc, line) {
        Ok(tokens) => event_of_tokens(alloc, tokens),
        Err(TokenFault::BadToken(_)) => Ok(None),
        Err(TokenFault::NoMemory) => Err(AllocError),
    }
}

/// The event of a line's tokens. The words are tried in the order in which scripts have most of them.
fn event_of_tokens(alloc: Global, tokens: Vec<Token>) -> Result<Option<Event>, AllocError>
    ensures { IfOk result (λ event. event ≡ event_of_tokens tokens.items) }
{
    let [Token::Text(word), rest @ ..] = tokens.as_slice() else {
        return Ok(None);
    };
    let word = word.as_slice();
    if word == b"bytes".as_slice() {
        return bytes_event(rest);
    }
    if word == b"turn".as_slice() {
        return turn_event(alloc, rest);
    }
    if word == b"show".as_slice() {
        return show_event(alloc, rest);
    }
    if word == b"table".as_slice() {
        return Ok(Some(Event::Table(List::of_vec(tokens))));
    }
    rarer_event(alloc, word, rest)
}

fn show_event(alloc: Global, rest: &[Token]) -> Result<Option<Event>, AllocError>
    ensures { IfOk result (λ event. event ≡ show_event rest.now) }
{
    match rest {
        [Token::Text(db), Token::Text(table)] => {
            let db = ByteText::of(alloc, db)?;
            let table = ByteText::of(alloc, table)?;
            Ok(Some(Event::Show(db, table)))
        }
        _ => Ok(None),
    }
}

fn rarer_event(alloc: Global, word: &[u8], rest: &[Token]) -> Result<Option<Event>, AllocError>
    ensures { IfOk result (λ event. event ≡ rarer_event word.now rest.now) }
{
    if word == b"open".as_slice() {
        return Ok(open_event(rest));
    }
    if word == b"end".as_slice() {
        return Ok(end_event(rest));
    }
    if word == b"room".as_slice() {
        return Ok(room_event(rest));
    }
    if word == b"fault".as_slice() {
        return Ok(fault_event(rest));
    }
    head_event(alloc, word, rest)
}
