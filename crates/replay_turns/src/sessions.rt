//! Connections on what runs their batches.
ghost use Rattle.std.specs.Prelude.{◌≡◌, ◌∷◌, ◌++◌, [], true, length, nat_eq, option_map, OnOk, IfOk};
ghost use Rattle.row_types.specs.Valid.{IsValid, are_distinct};
ghost use Rattle.replay_turns.specs.Linked.{Linked, opened, on, linked_at, has_ended, peer_sent, peer_ended, with_room, failing_next};
ghost use Rattle.replay_turns.specs.Session.{turn, session_on, RanBy};
ghost use Rattle.request_types.specs.Names.{table_named};
ghost use Rattle.replay_turns.specs.Shown.{rows_shown};

use crate::connections::Connections;
use crate::sayings::Saying;
use crate::showing::push_rows;
use batch_answers::RunsBatches;
use batch_worker::TurnEnd;
use line_pipeline::Secrets;
use request_types::{Port, table_named};
use row_types::Schema;
use std::alloc::{AllocError, Global};
use std::marker::Model;

/// Connections, and what runs the batches of their lines.
#[derive(Drop)]
pub struct Session<B: RunsBatches> {
    book: B,
    connections: Connections,
}

impl<B: RunsBatches> Model for Session<B> {
    ghost use Rattle.std.specs.Prelude.{◌≡◌};
    ghost use Rattle.replay_turns.specs.Session.{SessionOn};

    ghost Value = { SessionOn B };

    ghost view = { λ s. record {
      schema = s.connections.schema;
      secrets = s.connections.secrets;
      book = s.book;
      conns = s.connections.conns;
    } };

    ghost invariant = { λ s. ((B.rows s.book).schema ≡ s.connections.schema) × B.sound s.book };
}

impl<B: RunsBatches + Drop> Session<B> {
    /// No connection.
    pub fn new(
        alloc: Global,
        schema: &Schema,
        secrets: Secrets,
        book: B,
    ) -> Result<Session<B>, AllocError>
        requires schema { IsValid schema.now }
        requires same { (B.rows book).schema ≡ schema.now }
        requires sound { B.sound book }
        ensures { IfOk result (λ new. new ≡ record {
          schema = schema.now;
          secrets = secrets;
          book = book;
          conns = [];
        }) }
    {
        let schema = schema.copy(alloc)?;
        Ok(Session {
            book,
            connections: Connections::new(alloc, schema, secrets)?,
        })
    }
}

impl<B: RunsBatches> Session<B> {
    /// One turn of the connections of these numbers. What it prints joins the text.
    pub fn turn(
        &mut self,
        alloc: Global,
        listed: &[u32],
        text: &mut Vec<u8>,
    ) -> Result<TurnEnd, AllocError>
        requires { are_distinct nat_eq listed.now ≡ true }
        ensures session { IfOk result (λ end. session_on B.rows self.new
            ≡ (turn end listed.now (session_on B.rows self.old)).1) }
        ensures text { IfOk result (λ end. text.new.items ≡ text.old.items
            ++ (turn end listed.now (session_on B.rows self.old)).0) }
        ensures ran { RanBy B.ran result self.old.book self.new.book }
        ensures schema { self.new.schema ≡ self.old.schema }
    {
        let counts = self.connections.counts(alloc, listed)?;
        let end = self.connections.answer(alloc, listed, &mut self.book)?;
        self.connections.tell_all(listed, &counts, text)?;
        self.connections.let_go_all(listed);
        Ok(end)
    }

    /// The rows of the table with these names, that of its database first, in the order of its
    /// primary key: a line each joins the text. None does, where no table has these names.
    pub fn show(&self, db: &[u8], name: &[u8], text: &mut Vec<u8>) -> Result<(), AllocError>
        ensures { OnOk result (text.new.items ≡ text.old.items ++ rows_shown
            (table_named self.now.schema.tables db.now name.now)
            (B.rows self.now.book)) }
    {
        let tables = self.book.tables();
        match table_named(tables.schema().tables.as_slice(), db, name) {
            None => Ok(()),
            Some(table) => push_rows(tables, table, text),
        }
    }
}

impl<B: RunsBatches> Session<B> {
    /// One more connection. Without memory, or where its table is full, there is none.
    pub fn open(&mut self, alloc: Global, number: u32, port: Port) -> Result<(), AllocError>
        ensures opened { OnOk result (self.new ≡ record self.old {
          conns = self.old.conns ++ opened self.old.secrets number port ∷ [];
        }) }
        ensures rest { (self.new.schema ≡ self.old.schema) × (self.new.book ≡ self.old.book) }
    {
        self.connections.open(alloc, number, port)
    }

    /// How many connections are open.
    pub fn count(&self) -> usize
        ensures { result ≡ length self.now.conns }
    {
        self.connections.count()
    }

    /// The port that a connection came to.
    pub fn port_of(&self, number: u32) -> Option<Port>
        ensures { result ≡ option_map (λ (l : Linked). l.port) (linked_at number self.now.conns) }
    {
        self.connections.port_of(number)
    }

    /// Whether there is a connection of this number whose peer has ended.
    pub fn has_ended(&self, number: u32) -> bool
        ensures { result ≡ has_ended number self.now.conns }
    {
        self.connections.has_ended(number)
    }

    /// The peer has sent a piece.
    pub fn peer_bytes(&mut self, number: u32, piece: &[u8]) -> Result<(), AllocError>
        ensures sent { OnOk result (self.new ≡ record self.old {
          conns = on number (peer_sent piece.now) self.old.conns;
        }) }
        ensures rest { (self.new.schema ≡ self.old.schema) × (self.new.book ≡ self.old.book) }
    {
        self.connections.peer_bytes(number, piece)
    }

    /// The peer has ended.
    pub fn peer_end(&mut self, number: u32)
        ensures { self.new ≡ record self.old { conns = on number peer_ended self.old.conns } }
    {
        self.connections.say(number, Saying::PeerEnds);
    }

    /// From now on the link takes so many more bytes.
    pub fn room(&mut self, number: u32, count: u64)
        ensures { self.new ≡ record self.old {
          conns = on number (with_room count) self.old.conns;
        } }
    {
        self.connections.say(number, Saying::Room(count));
    }

    /// The next call of the link fails.
    pub fn fail_next(&mut self, number: u32)
        ensures { self.new ≡ record self.old { conns = on number failing_next self.old.conns } }
    {
        self.connections.say(number, Saying::FailsNext);
    }
}
