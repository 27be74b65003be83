//! What an event does that may come.
ghost use Rattle.std.specs.Prelude.{◌≡◌, ◌++◌, nat_eq, true, is_none, OnOk, OnErr};
ghost use Rattle.row_types.specs.Valid.{are_distinct};
ghost use Rattle.batch_worker.specs.declared.ends.TurnEnd.TheVariants.{Done};
ghost use Rattle.replay_turns.specs.Session.{turn};
ghost use Rattle.request_types.specs.Names.{table_named};
ghost use Rattle.replay_turns.specs.Shown.{rows_shown};
ghost use Rattle.replay_script.specs.declared.events.Event.TheVariants as events;
ghost use Rattle.hs_replay.specs.Script.{after, session_of, with_session};
ghost use Rattle.hs_replay.specs.Running.{TableDoes};

use crate::ends::{Flaw, Outcome};
use crate::replays::Replay;
use crate::secrets::copy_secrets;
use batch_answers::TablesAlone;
use batch_worker::TurnEnd;
use hs_schema::{SchemaFault, SchemaLines};
use hs_token::Token;
use replay_turns::Session;
use request_types::Port;
use std::alloc::{AllocError, Global};

/// The most bytes that rows may count where the script sets no limit.
const MOST_BYTES: u32 = 268_435_456;

impl Replay {
    // Adds the table of a line, or says which rule the line breaks.
    pub(super) fn add_table(&mut self, alloc: Global, line: &[Token]) -> Outcome
        requires { is_none self.old.session ≡ true }
        ensures { TableDoes result line.now self.old self.new }
    {
        match self.schema.add_table(alloc, line) {
            Ok(()) => Outcome::Done,
            Err(SchemaFault::Broken { rule, token, .. }) => {
                Outcome::Refused(Flaw::BadTable(rule, token))
            }
            Err(SchemaFault::NoMemory) => Outcome::Memory,
        }
    }

    // Sees to it that there is a session. Its first event opens it.
    fn begin(&mut self, alloc: Global) -> Result<(), AllocError>
        ensures begun { OnOk result (self.new ≡ with_session self.old (session_of self.old)) }
        ensures err { OnErr result (self.new ≡ self.old) }
    {
        if self.session.is_some() {
            return Ok(());
        }
        let secrets = copy_secrets(alloc, &self.secrets)?;
        let most = self.bytes_max.unwrap_or(MOST_BYTES) as u64;
        let tables = TablesAlone::new(alloc, &self.schema, most)?;
        self.session = Some(Session::new(alloc, &self.schema, secrets, tables)?);
        Ok(())
    }

    pub(super) fn open(&mut self, alloc: Global, number: u32, port: Port) -> Result<(), AllocError>
        ensures { OnOk result (self.new ≡ after (events.Open number port) self.old) }
    {
        self.begin(alloc)?;
        self.opened.push(number)?;
        match &mut self.session {
            Some(session) => session.open(alloc, number, port),
            None => Ok(()),
        }
    }

    pub(super) fn peer_bytes(
        &mut self,
        alloc: Global,
        number: u32,
        piece: &[u8],
    ) -> Result<(), AllocError>
        ensures { OnOk result (self.new ≡ after (events.Bytes number piece.now) self.old) }
    {
        self.begin(alloc)?;
        match &mut self.session {
            Some(session) => session.peer_bytes(number, piece),
            None => Ok(()),
        }
    }

    pub(super) fn peer_end(&mut self, alloc: Global, number: u32) -> Result<(), AllocError>
        ensures { OnOk result (self.new ≡ after (events.End number) self.old) }
    {
        self.begin(alloc)?;
        if let Some(session) = &mut self.session {
            session.peer_end(number);
        }
        Ok(())
    }

    pub(super) fn room(&mut self, alloc: Global, number: u32, count: u32) -> Result<(), AllocError>
        ensures { OnOk result (self.new ≡ after (events.Room number count) self.old) }
    {
        self.begin(alloc)?;
        if let Some(session) = &mut self.session {
            session.room(number, count as u64);
        }
        Ok(())
    }

    pub(super) fn fail_next(&mut self, alloc: Global, number: u32) -> Result<(), AllocError>
        ensures { OnOk result (self.new ≡ after (events.Fault number) self.old) }
    {
        self.begin(alloc)?;
        if let Some(session) = &mut self.session {
            session.fail_next(number);
        }
        Ok(())
    }

    // One turn of these connections.
    pub(super) fn turn(
        &mut self,
        alloc: Global,
        numbers: &[u32],
        text: &mut Vec<u8>,
    ) -> Result<(), AllocError>
        requires { are_distinct nat_eq numbers.now ≡ true }
        ensures state { OnOk result (self.new ≡ with_session self.old (turn Done numbers.now (session_of self.old)).1) }
        ensures text { OnOk result (text.new.items ≡ text.old.items ++ (turn Done numbers.now (session_of self.old)).0) }
    {
        self.begin(alloc)?;
        match &mut self.session {
            Some(session) => match session.turn(alloc, numbers, text)? {
                TurnEnd::Done => Ok(()),
                // Tables alone fail by memory and by nothing else.
                _ => Err(AllocError),
            },
            None => Ok(()),
        }
    }

    // The rows of a table.
    pub(super) fn show(
        &mut self,
        alloc: Global,
        db: &[u8],
        name: &[u8],
        text: &mut Vec<u8>,
    ) -> Result<(), AllocError>
        ensures state { OnOk result (self.new ≡ with_session self.old (session_of self.old)) }
        ensures text { OnOk result (text.new.items ≡ text.old.items
            ++ rows_shown (table_named self.old.schema.tables db.now name.now) (session_of self.old).database) }
    {
        self.begin(alloc)?;
        match &self.session {
            Some(session) => session.show(db, name, text),
            None => Ok(()),
        }
    }
}
