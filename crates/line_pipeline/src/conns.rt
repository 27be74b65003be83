//! A connection, live or closed.
ghost use Rattle.std.specs.Prelude.{◌≡◌, ◌≤◌, [], ◌++◌, true, Some, length, OnOk, IfOk};
ghost use Rattle.row_types.specs.Valid.{IsValid};
ghost use Rattle.open_index.specs.Open.{IsNumbered};
ghost use Rattle.line_pipeline.specs.Fitting.{ConnFits};
ghost use Rattle.line_pipeline.specs.Output.{IsFront};

use crate::changes::Change;
use crate::lives::LiveConn;
use crate::reasons::{ConnState, Reason};
use request_types::{ConnId, Item};
use row_types::{ByteText, List, Schema};
use std::alloc::{AllocError, Global};

/// A connection that is held. Of a closed one only its reason is left.
#[derive(Drop)]
pub enum Conn {
    Live(LiveConn),
    Closed(Reason),
}

impl Conn {
    ghost use Rattle.line_pipeline.specs.declared.reasons.Reason.{Reason};
    ghost use Rattle.line_pipeline.specs.Conn.{state_of, room_of, unsent_of, asks, has_place, fed, ended, sent_off, closed, answered, place_used, finished, items_of, took, refused, applied, MayChange};

    pub fn state(&self) -> ConnState
        ensures { result ≡ state_of self.now }
    {
        match self {
            Conn::Live(_) => ConnState::Live,
            Conn::Closed(reason) => ConnState::Closed(*reason),
        }
    }

    pub fn room(&self) -> usize
        ensures { result ≡ room_of self.now }
    {
        match self {
            Conn::Live(live) => live.room(),
            Conn::Closed(_) => 0,
        }
    }

    /// The first bytes that weren't sent yet.
    pub fn unsent(&self) -> &[u8]
        ensures front { IsFront result.now (unsent_of self.now) }
        ensures some { result.now ≡ [] → unsent_of self.now ≡ [] }
    {
        match self {
            Conn::Live(live) => live.unsent(),
            Conn::Closed(_) => &[],
        }
    }

    /// Whether it is live and holds a line feed.
    pub fn asks(&self) -> bool
        ensures { result ≡ asks self.now }
    {
        match self {
            Conn::Live(live) => live.has_line(),
            Conn::Closed(_) => false,
        }
    }

    fn feed(&mut self, piece: &[u8])
        requires { length piece.now ≤ room_of self.old }
        ensures { self.new ≡ fed piece.now self.old }
    {
        if let Conn::Live(live) = self {
            live.feed(piece);
        }
    }

    fn end(&mut self)
        ensures { self.new ≡ ended self.old }
    {
        if let Conn::Live(live) = self {
            live.end();
        }
    }

    fn sent(&mut self, count: usize)
        requires { count ≤ length (unsent_of self.old) }
        ensures { self.new ≡ sent_off count self.old }
    {
        if let Conn::Live(live) = self {
            live.sent(count);
        }
    }

    /// Closes it. A closed one keeps its first reason.
    fn close(&mut self, reason: Reason)
        ensures { self.new ≡ closed reason self.old }
    {
        if let Conn::Live(_) = self {
            *self = Conn::Closed(reason);
        }
    }

    fn answer(&mut self, text: ByteText)
        requires { has_place self.old ≡ true }
        ensures { self.new ≡ answered text self.old }
    {
        if let Conn::Live(live) = self {
            live.answer(text);
        }
    }

    fn use_place(&mut self)
        ensures { self.new ≡ place_used self.old }
    {
        if let Conn::Live(live) = self {
            live.use_place();
        }
    }

    /// Closes it where it has an end of its own.
    fn finish(&mut self)
        ensures { self.new ≡ finished self.old }
    {
        let ending = match self {
            Conn::Live(live) => live.ending(),
            Conn::Closed(_) => None,
        };
        if let Some(reason) = ending {
            *self = Conn::Closed(reason);
        }
    }

    /// Closes it where it asks for something, since memory was refused.
    fn refuse(&mut self)
        ensures { self.new ≡ refused self.old }
    {
        if self.asks() {
            self.close(Reason::BatchMemory);
        }
    }

    pub fn apply(&mut self, change: Change)
        requires { MayChange change (Some self.old) }
        ensures { self.new ≡ applied change.entry self.old }
    {
        match change {
            Change::Feed(piece) => self.feed(piece),
            Change::End => self.end(),
            Change::Sent(count) => self.sent(count),
            Change::Close(reason) => self.close(reason),
            Change::Finish => self.finish(),
            Change::Refuse => self.refuse(),
            Change::Answer(text) => self.answer(text),
            Change::UsePlace => self.use_place(),
        }
    }

    /// Takes the lines of one turn, and puts what they ask for behind the items.
    pub fn take(
        &mut self,
        alloc: Global,
        schema: &Schema,
        id: ConnId,
        items: &mut List<Item>,
    ) -> Result<(), AllocError>
        requires { IsNumbered schema.now }
        ensures items { OnOk result (items.new ≡ items.old ++ items_of schema.now id self.old) }
        ensures took { OnOk result (self.new ≡ took schema.now self.old) }
        ensures fits { IsValid schema.now → ConnFits schema.now self.old → ConnFits schema.now self.new }
        ensures closes { (reason : Reason) → closed reason self.new ≡ closed reason self.old }
    {
        match self {
            Conn::Live(live) => live.take(alloc, schema, id, items),
            Conn::Closed(_) => Ok(()),
        }
    }
}
