//! A connection that isn't closed.
ghost use Rattle.std.specs.Prelude.{◌≡◌, ◌≤◌, ◌++◌, [], true, false, drop, length, OnOk, IfOk};
ghost use Rattle.row_types.specs.Valid.{IsValid};
ghost use Rattle.open_index.specs.Open.{IsNumbered};
ghost use Rattle.open_index.specs.Fits.{HandlesFit};
ghost use Rattle.hs_line.specs.Lines.{has_lf};
ghost use Rattle.line_pipeline.specs.Output.{IsFront};
ghost use Rattle.line_pipeline.specs.Live.{fresh, room_of, items_of, took, ending};

use crate::limits::MAX_LINES;
use crate::outputs::Output;
use crate::reading::{Reader, read_lines};
use crate::reasons::Reason;
use crate::taking::take_lines;
use hs_line::LineBuf;
use open_index::{Auth, Handles, handles_new};
use request_types::{ConnId, Item, Port};
use row_types::{ByteText, List, Schema};
use std::alloc::{AllocError, Global};
use std::marker::Model;

#[derive(Drop)]
pub struct LiveConn {
    port: Port,
    held: LineBuf,
    handles: Handles,
    auth: Auth,
    output: Output,
    met_end: bool,
}

impl Model for LiveConn {
    ghost use Rattle.line_pipeline.specs.Live.{Live};

    ghost Value = { Live };

    ghost view = { λ l. record {
      port = l.port;
      held = l.held;
      handles = l.handles;
      auth = l.auth;
      unsent = l.output.bytes;
      met_end = l.met_end;
      has_place = l.output.has_place;
    } };
}

impl LiveConn {
    /// A connection that has just come.
    pub fn new(alloc: Global, port: Port, secret: Option<ByteText>) -> Result<LiveConn, AllocError>
        ensures { IfOk result (λ live. live ≡ fresh secret port) }
    {
        let held = LineBuf::new(alloc)?;
        Ok(LiveConn {
            port,
            held,
            handles: handles_new(alloc),
            auth: Auth {
                secret,
                passed: false,
            },
            output: Output::new(alloc),
            met_end: false,
        })
    }

    pub fn room(&self) -> usize
        ensures { result ≡ room_of self.now }
    {
        if self.output.is_clogged() {
            return 0;
        }
        self.held.room()
    }

    pub fn has_line(&self) -> bool
        ensures { result ≡ has_lf self.now.held }
    {
        self.held.has_line()
    }

    /// The first bytes that weren't sent yet.
    pub fn unsent(&self) -> &[u8]
        ensures front { IsFront result.now self.now.unsent }
        ensures some { result.now ≡ [] → self.now.unsent ≡ [] }
    {
        self.output.unsent()
    }

    /// Why the connection is to be closed, if its output is empty.
    pub fn ending(&self) -> Option<Reason>
        ensures { result ≡ ending self.now }
    {
        if !self.output.is_empty() {
            return None;
        }
        if self.held.is_too_long() {
            return Some(Reason::TooLong);
        }
        if self.met_end && !self.held.has_line() {
            return Some(Reason::Ended);
        }
        None
    }

    pub fn feed(&mut self, piece: &[u8])
        requires { length piece.now ≤ room_of self.old }
        ensures { self.new ≡ record self.old { held = self.old.held ++ piece.now } }
    {
        // Where the connection is clogged nothing fits, so nothing is there to push.
        if !piece.is_empty() {
            self.held.push(piece);
        }
    }

    pub fn end(&mut self)
        ensures { self.new ≡ record self.old { met_end = true } }
    {
        self.met_end = true;
    }

    pub fn sent(&mut self, count: usize)
        requires { count ≤ length self.old.unsent }
        ensures { self.new ≡ record self.old { unsent = drop count self.old.unsent } }
    {
        self.output.sent(count);
    }

    pub fn answer(&mut self, text: ByteText)
        requires { self.old.has_place ≡ true }
        ensures { self.new ≡ record self.old { unsent = self.old.unsent ++ text; has_place = false } }
    {
        self.output.push(text);
    }

    pub fn use_place(&mut self)
        ensures { self.new ≡ record self.old { has_place = false } }
    {
        self.output.use_place();
    }

    /// Takes the lines of one turn, and puts what they ask for behind the items.
    pub fn take(
        &mut self,
        alloc: Global,
        schema: &Schema,
        conn: ConnId,
        items: &mut List<Item>,
    ) -> Result<(), AllocError>
        requires { IsNumbered schema.now }
        ensures items { OnOk result (items.new ≡ items.old ++ items_of schema.now conn self.old) }
        ensures took { OnOk result (self.new ≡ took schema.now self.old) }
        ensures fits { IsValid schema.now → HandlesFit schema.now self.old.handles
            → HandlesFit schema.now self.new.handles }
    {
        if self.output.is_clogged() {
            return Ok(());
        }
        let lines = take_lines(alloc, &mut self.held, MAX_LINES)?;
        if lines.is_empty() {
            return Ok(());
        }
        self.output.reserve()?;
        let reader = Reader {
            schema,
            conn,
            port: self.port,
        };
        read_lines(
            alloc,
            &reader,
            &mut self.handles,
            &mut self.auth,
            lines.as_slice(),
            items,
        )
    }
}
