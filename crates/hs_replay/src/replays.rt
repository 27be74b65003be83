//! What was said by the lines of a script so far, and what its next event does.
ghost use Rattle.std.specs.Prelude.{◌≡◌, ◌≤◌};
ghost use Rattle.replay_script.specs.Spelling.{IsEvent};
ghost use Rattle.hs_replay.specs.Script as script;
ghost use Rattle.hs_replay.specs.Running.{EventDoes};

mod admission;
mod effects;
mod printing;

use crate::ends::{Flaw, Outcome};
use crate::replays::printing::{outcome_of, print};
use crate::secrets::{no_secrets, set_secret};
use batch_answers::TablesAlone;
use hs_outside::Sink;
use hs_schema::empty;
use line_pipeline::Secrets;
use replay_script::Event;
use replay_turns::Session;
use row_types::Schema;
use std::alloc::Global;
use std::marker::Model;

/// What the head says, the numbers of the connections that were opened, and the connections and rows from the first
/// event on.
#[derive(Drop)]
pub struct Replay {
    schema: Schema,
    bytes_max: Option<u32>,
    secrets: Secrets,
    opened: Vec<u32>,
    session: Option<Session<TablesAlone>>,
}

impl Model for Replay {
    ghost use Rattle.std.specs.Prelude.{◌≡◌, ◌≤◌, IfSome, option_map};
    ghost use Rattle.row_types.specs.Valid.{IsValid};
    ghost use Rattle.table_rows.specs.Database.{database_of};
    ghost use Rattle.table_rows.specs.Rows.{State as Tables};
    ghost use Rattle.table_rows.specs.Sizes.{most_bytes};
    ghost use Rattle.replay_turns.specs.Session.{SessionOn, session_on};
    ghost use Rattle.hs_replay.specs.Script.{State};

    ghost Value = { State };

    ghost view = { λ r. record {
      schema = r.schema;
      bytes_max = r.bytes_max;
      secrets = r.secrets;
      opened = r.opened.items;
      session = option_map (session_on database_of) r.session;
    } };

    ghost invariant = { λ r. IsValid r.schema × IfSome r.bytes_max (λ most. most ≤ most_bytes)
        × IfSome r.session (λ (s : SessionOn Tables). s.schema ≡ r.schema) };
}

impl Replay {
    /// Before the first line.
    pub fn new(alloc: Global) -> Replay
        ensures { result ≡ script.start }
    {
        Replay {
            schema: empty(alloc),
            bytes_max: None,
            secrets: no_secrets(),
            opened: Vec::new(alloc),
            session: None,
        }
    }

    /// Carries out an event, if it may come. What it prints goes through `text`, whose memory is used again and again.
    pub fn take_event<K: Sink>(
        &mut self,
        alloc: Global,
        out: &mut K,
        text: &mut Vec<u8>,
        event: Event,
    ) -> Outcome
        requires { IsEvent event }
        ensures does { EventDoes result event self.old self.new (K.taker out.old) (K.taker out.new) }
        ensures later { (K.taker out.old).faults ≤ (K.taker out.new).faults }
    {
        if !self.may_come(&event) {
            return Outcome::Refused(Flaw::NoEvent);
        }
        text.clear();
        match event {
            Event::Table(line) => self.add_table(alloc, line.as_slice()),
            Event::LimitBytes(most) => {
                self.bytes_max = Some(most);
                Outcome::Done
            }
            Event::Secret(port, key) => {
                set_secret(&mut self.secrets, port, key);
                Outcome::Done
            }
            Event::Open(number, port) => outcome_of(self.open(alloc, number, port)),
            Event::Bytes(number, piece) => outcome_of(self.peer_bytes(alloc, number, &piece)),
            Event::End(number) => outcome_of(self.peer_end(alloc, number)),
            Event::Room(number, count) => outcome_of(self.room(alloc, number, count)),
            Event::Fault(number) => outcome_of(self.fail_next(alloc, number)),
            Event::Turn(_, numbers) => {
                print(out, self.turn(alloc, numbers.as_slice(), text), text)
            }
            Event::Show(db, name) => print(
                out,
                self.show(alloc, db.as_slice(), name.as_slice(), text),
                text,
            ),
        }
    }
}
