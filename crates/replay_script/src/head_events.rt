//! How the lines of a script's head are read, its table lines apart.
ghost use Rattle.std.specs.Prelude.{◌≡◌, IfOk};
ghost use Rattle.replay_script.specs.Events.{limit_event, secret_event, head_event};

use crate::events::Event;
use crate::ports::port_of;
use hs_token::{Token, parse_u32};
use row_types::ByteText;
use std::alloc::{AllocError, Global};

/// The greatest limit of the sizes of all rows.
const MAX_BYTES: u32 = 268_435_456;

/// The event of a head line that begins with this word.
pub(crate) fn head_event(
    alloc: Global,
    word: &[u8],
    rest: &[Token],
) -> Result<Option<Event>, AllocError>
    ensures { IfOk result (λ event. event ≡ head_event word.now rest.now) }
{
    if word == b"limit".as_slice() {
        return Ok(limit_event(rest));
    }
    if word == b"secret".as_slice() {
        return secret_event(alloc, rest);
    }
    Ok(None)
}

/// `limit bytes <n>`
fn limit_event(rest: &[Token]) -> Option<Event>
    ensures { result ≡ limit_event rest.now }
{
    match rest {
        [Token::Text(what), Token::Text(n)] if what.as_slice() == b"bytes".as_slice() => {
            let n = parse_u32(n)?;
            if 1 <= n && n <= MAX_BYTES {
                Some(Event::LimitBytes(n))
            } else {
                None
            }
        }
        _ => None,
    }
}

/// `secret <port> <key>`
fn secret_event(alloc: Global, rest: &[Token]) -> Result<Option<Event>, AllocError>
    ensures { IfOk result (λ event. event ≡ secret_event rest.now) }
{
    let [Token::Text(port), Token::Text(key)] = rest else {
        return Ok(None);
    };
    match port_of(port) {
        Some(port) => Ok(Some(Event::Secret(port, ByteText::of(alloc, key)?))),
        None => Ok(None),
    }
}
