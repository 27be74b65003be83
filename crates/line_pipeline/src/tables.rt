//! The connections that are held, and the small calls on one of them.
ghost use Rattle.std.specs.Prelude.{ℕ, ◌≡◌, ◌+◌, ◌-◌, ◌<◌, ◌≤◌, ◌^◌, ◌⊎◌, ◌↔◌, [], ◌++◌, true, false, Some, None, Err, is_some, length, option_map, IfOk, OnOk, OnErr, IsTrue, IfSome};
ghost use Rattle.row_types.specs.Valid.{IsValid};
ghost use Rattle.line_pipeline.specs.Output.{IsFront};
ghost use Rattle.line_pipeline.specs.Conn.{state_of, room_of, unsent_of, fed, ended, sent_off, closed, finished, secret_of, applied, MayChange};
ghost use Rattle.line_pipeline.specs.Live.{fresh};
ghost use Rattle.line_pipeline.specs.Table.{is_held, conn_at, changed, all_changed, without, IsFree, Joins};
ghost use Rattle.line_pipeline.specs.declared.conns.Conn.TheVariants as conns;
ghost use Rattle.line_pipeline.specs.declared.reasons.Reason.TheVariants as reasons;
ghost use Rattle.line_pipeline.specs.declared.reasons.AddFault.TheVariants as faults;

use crate::changes::Change;
use crate::conns::Conn;
use crate::limits::MAX_CONNS;
use crate::lives::LiveConn;
use crate::reasons::{AddFault, ConnState, Reason};
use crate::secrets::Secrets;
use crate::slots::Slot;
use request_types::{ConnId, Port};
use row_types::{ByteText, Schema};
use slab::Slab;
use std::alloc::{AllocError, Global};
use std::marker::Model;

/// Connections by their ids, and by what their lines are read.
#[derive(Drop)]
pub struct ConnTable {
    pub(crate) schema: Schema,
    pub(crate) secrets: Secrets,
    pub(crate) added: u64,
    pub(crate) slots: Slab<Slot>,
}

impl Model for ConnTable {
    ghost use Rattle.std.specs.Prelude.{◌≤◌, ◌<◌, ◌^◌};
    ghost use Rattle.row_types.specs.Valid.{IsValid};
    ghost use Rattle.line_pipeline.specs.Fitting.{ConnsFit};
    ghost use Rattle.line_pipeline.specs.Table.{Table};
    ghost use Rattle.line_pipeline.specs.Slots.{conns_from};

    ghost Value = { Table };

    ghost view = { λ t. record {
      schema = t.schema;
      secrets = t.secrets;
      added = t.added;
      places = t.slots.capacity;
      conns = conns_from 0 t.slots.slots;
    } };

    // The schema is valid, all open ids fit it, and the places of all connections are reserved.
    ghost invariant = { λ t. IsValid t.schema × ConnsFit t.schema (conns_from 0 t.slots.slots)
        × (256 ≤ t.slots.capacity) × (t.slots.capacity < 2 ^ 32) };
}

/// No connections, and the memory for the places of as many as may be.
pub fn conns_new(alloc: Global, schema: Schema, secrets: Secrets) -> Result<ConnTable, AllocError>
    requires { IsValid schema }
    ensures { IfOk result (λ table. table ≡ record {
      schema = schema;
      secrets = secrets;
      added = 0;
      places = table.places;
      conns = [];
    }) }
{
    let slots: Slab<Slot> = Slab::with_capacity(alloc, MAX_CONNS)?;
    if slots.capacity() > u32::MAX as usize {
        return Err(AllocError);
    }
    Ok(ConnTable {
        schema,
        secrets,
        added: 0,
        slots,
    })
}

/// A copy of a port's secret.
fn secret_of(alloc: Global, secrets: &Secrets, port: Port) -> Result<Option<ByteText>, AllocError>
    ensures { IfOk result (λ secret. secret ≡ secret_of secrets.now port) }
{
    match port {
        Port::Reading => copied(alloc, &secrets.reading),
        Port::Writing => copied(alloc, &secrets.writing),
        Port::Sql => Ok(None),
    }
}

fn copied(alloc: Global, text: &Option<ByteText>) -> Result<Option<ByteText>, AllocError>
    ensures { IfOk result (λ copy. copy ≡ text.now) }
{
    match text {
        None => Ok(None),
        Some(text) => Ok(Some(ByteText::of(alloc, text.as_slice())?)),
    }
}

impl ConnTable {
    /// Holds a connection that has come to a port, under an id that none had before.
    pub fn add(&mut self, alloc: Global, port: Port) -> Result<ConnId, AddFault>
        ensures joins { IfOk result (λ id. Joins self.old.conns self.new.conns id
            (conns.Live (fresh (secret_of self.old.secrets port) port))) }
        ensures unheld { IfOk result (λ id. is_held self.old.conns id ≡ false) }
        ensures number { IfOk result (λ id. id.number < self.old.places) }
        ensures free { IfOk result (λ id. IsFree id.number self.old.conns) }
        ensures generation { IfOk result (λ id. id.generation ≡ self.old.added) }
        ensures counted { OnOk result (self.new.added ≡ self.old.added + 1) }
        ensures rest { self.new ≡ record self.old { added = self.new.added; conns = self.new.conns } }

        // Full comes exactly where as many as may be are held, or no generation is left.
        ensures full { (result ≡ Err faults.Full)
            ↔ ((256 ≤ length self.old.conns) ⊎ (self.old.added ≡ 2 ^ 64 - 1)) }
        ensures err { OnErr result (self.new ≡ self.old) }
    {
        if self.slots.len() >= MAX_CONNS {
            return Err(AddFault::Full);
        }
        if self.added == u64::MAX {
            return Err(AddFault::Full);
        }
        let secret = secret_of(alloc, &self.secrets, port)?;
        let conn = Conn::Live(LiveConn::new(alloc, port, secret)?);
        let generation = self.added;
        let number = self.slots.insert_reserved(Slot { generation, conn }) as u32;
        self.added += 1;
        Ok(ConnId { number, generation })
    }

    /// All numbers of connections are below this.
    pub fn places(&self) -> usize
        ensures { result ≡ self.now.places }
    {
        self.slots.capacity()
    }

    /// Whether a connection of this id is held.
    pub fn has(&self, conn: ConnId) -> bool
        ensures { result ≡ is_held self.now.conns conn }
    {
        self.conn(conn).is_some()
    }

    /// How many more bytes can be received.
    pub fn room(&self, conn: ConnId) -> usize
        requires { is_held self.now.conns conn ≡ true }
        ensures { option_map room_of (conn_at self.now.conns conn) ≡ Some result }
    {
        match self.conn(conn) {
            Some(conn) => conn.room(),
            None => unreachable!(),
        }
    }

    pub fn state(&self, conn: ConnId) -> ConnState
        requires { is_held self.now.conns conn ≡ true }
        ensures { option_map state_of (conn_at self.now.conns conn) ≡ Some result }
    {
        match self.conn(conn) {
            Some(conn) => conn.state(),
            None => unreachable!(),
        }
    }

    /// The first bytes that weren't sent yet.
    pub fn unsent(&self, conn: ConnId) -> &[u8]
        requires { is_held self.now.conns conn ≡ true }
        ensures front { IfSome (conn_at self.now.conns conn) (λ held. IsFront result.now (unsent_of held)) }
        ensures some { IfSome (conn_at self.now.conns conn) (λ held. result.now ≡ [] → unsent_of held ≡ []) }
    {
        match self.conn(conn) {
            Some(conn) => conn.unsent(),
            None => unreachable!(),
        }
    }

    /// Appends bytes that were received.
    pub fn feed(&mut self, conn: ConnId, piece: &[u8])
        requires { IfSome (conn_at self.old.conns conn) (λ held. length piece.now ≤ room_of held) }
        ensures { self.new ≡ record self.old { conns = changed conn (fed piece.now) self.old.conns } }
    {
        self.apply(conn, Change::Feed(piece));
    }

    /// The peer has ended, and all its bytes were received.
    pub fn end(&mut self, conn: ConnId)
        ensures { self.new ≡ record self.old { conns = changed conn ended self.old.conns } }
    {
        self.apply(conn, Change::End);
    }

    /// The link has failed. A closed connection keeps its first reason.
    pub fn fail(&mut self, conn: ConnId)
        ensures { self.new ≡ record self.old { conns = changed conn (closed reasons.LinkFault) self.old.conns } }
    {
        self.close(conn, Reason::LinkFault);
    }

    /// So many of the first bytes were sent.
    pub fn sent(&mut self, conn: ConnId, n: usize)
        requires { IfSome (conn_at self.old.conns conn) (λ held. n ≤ length (unsent_of held)) }
        ensures { self.new ≡ record self.old { conns = changed conn (sent_off n) self.old.conns } }
    {
        self.apply(conn, Change::Sent(n));
    }

    /// Lets a connection go.
    pub fn remove(&mut self, conn: ConnId)
        requires { is_held self.old.conns conn ≡ true }
        ensures { self.new ≡ record self.old { conns = without conn self.old.conns } }
    {
        self.slots.remove(conn.number as usize);
    }

    /// Closes each of these connections that has nothing left to be sent, and an end of its own.
    pub fn finish(&mut self, ready: &[ConnId])
        ensures { self.new ≡ record self.old { conns = all_changed ready.now finished self.old.conns } }
    {
        for id in ready {
            self.apply(*id, Change::Finish);
        }
    }
}

impl ConnTable {
    /// The connection of this id.
    pub(crate) fn conn(&self, id: ConnId) -> Option<&Conn>
        ensures { option_map (λ conn. conn.now) result ≡ conn_at self.now.conns id }
    {
        let slot = self.slots.get(id.number as usize)?;
        if slot.generation != id.generation {
            return None;
        }
        Some(&slot.conn)
    }

    /// Closes the connection of this id, if it is held.
    pub(crate) fn close(&mut self, id: ConnId, reason: Reason)
        ensures { self.new ≡ record self.old { conns = changed id (closed reason) self.old.conns } }
    {
        self.apply(id, Change::Close(reason));
    }

    /// Changes the connection of this id, if it is held.
    pub(crate) fn apply(&mut self, id: ConnId, change: Change)
        requires { MayChange change (conn_at self.old.conns id) }
        ensures { self.new ≡ record self.old { conns = changed id (applied change.entry) self.old.conns } }
    {
        let Some(slot) = self.slots.get_mut(id.number as usize) else {
            return;
        };
        if slot.generation != id.generation {
            return;
        }
        slot.conn.apply(change);
    }
}
