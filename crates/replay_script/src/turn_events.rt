//! How a turn is read.
ghost use Rattle.std.specs.Prelude.{◌≡◌, IfOk};
ghost use Rattle.replay_script.specs.Events.{turn_event};

use crate::events::Event;
use crate::numbers::conns_of;
use crate::ports::port_of;
use hs_token::Token;
use std::alloc::{AllocError, Global};

/// `turn <port> <conn> ..`
pub(crate) fn turn_event(alloc: Global, rest: &[Token]) -> Result<Option<Event>, AllocError>
    ensures { IfOk result (λ event. event ≡ turn_event rest.now) }
{
    let [Token::Text(port), conns @ ..] = rest else {
        return Ok(None);
    };
    let Some(port) = port_of(port) else {
        return Ok(None);
    };
    match conns_of(alloc, conns)? {
        Some(conns) => Ok(Some(Event::Turn(port, conns))),
        None => Ok(None),
    }
}
