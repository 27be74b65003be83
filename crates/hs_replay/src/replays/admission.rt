//! Whether an event may come.
ghost use Rattle.std.specs.Prelude.{◌≡◌, length, is_some};
ghost use Rattle.std.specs.List.{list_all};
ghost use Rattle.request_types.specs.Names.{table_named};
ghost use Rattle.hs_replay.specs.Script.{may_come, session_of, is_port, same_port, may_send, port_in};

use crate::replays::Replay;
use crate::secrets::has_secret;
use line_pipeline::MAX_CONNS;
use replay_script::Event;
use request_types::{Port, table_named};

impl Replay {
    pub(super) fn may_come(&self, event: &Event) -> bool
        ensures { result ≡ may_come event.now self.now }
    {
        match event {
            Event::Table(_) => self.session.is_none(),
            Event::LimitBytes(_) => self.session.is_none() && self.bytes_max.is_none(),
            Event::Secret(port, _) => {
                self.session.is_none() && !has_secret(&self.secrets, *port)
            }
            Event::Open(number, _) => !self.opened.contains(number) && self.count() < MAX_CONNS,
            Event::Bytes(number, _) | Event::End(number) => self.may_send(*number),
            Event::Room(number, _) | Event::Fault(number) => self.port_of(*number).is_some(),
            Event::Turn(port, numbers) => self.are_on(*port, numbers.as_slice()),
            Event::Show(db, name) => self.names(db.as_slice(), name.as_slice()),
        }
    }

    // Whether a table has these names.
    fn names(&self, db: &[u8], name: &[u8]) -> bool
        ensures { result ≡ is_some (table_named self.now.schema.tables db.now name.now) }
    {
        table_named(self.schema.tables.as_slice(), db, name).is_some()
    }

    // How many connections are open.
    fn count(&self) -> usize
        ensures { result ≡ length (session_of self.now).conns }
    {
        match &self.session {
            None => 0,
            Some(session) => session.count(),
        }
    }

    // The port of a connection, if it is open.
    fn port_of(&self, number: u32) -> Option<Port>
        ensures { result ≡ port_in number self.now }
    {
        match &self.session {
            None => None,
            Some(session) => session.port_of(number),
        }
    }

    // Whether a peer may send more.
    fn may_send(&self, number: u32) -> bool
        ensures { result ≡ may_send number self.now }
    {
        match &self.session {
            None => false,
            Some(session) => session.port_of(number).is_some() && !session.has_ended(number),
        }
    }

    // Whether connections are open, and on this port.
    fn are_on(&self, port: Port, numbers: &[u32]) -> bool
        ensures { result ≡ list_all (λ number. is_port (port_in number self.now) port) numbers.now }
    {
        for number in numbers {
            if !is_port(self.port_of(*number), port) {
                return false;
            }
        }
        true
    }
}

// Whether this is a port, and that one.
fn is_port(held: Option<Port>, port: Port) -> bool
    ensures { result ≡ is_port held port }
{
    match held {
        None => false,
        Some(held) => same_port(held, port),
    }
}

fn same_port(a: Port, b: Port) -> bool
    ensures { result ≡ same_port a b }
{
    match (a, b) {
        (Port::Reading, Port::Reading) => true,
        (Port::Writing, Port::Writing) => true,
        (Port::Sql, Port::Sql) => true,
        _ => false,
    }
}
