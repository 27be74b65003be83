//! Connections, each beside its link.
ghost use Rattle.std.specs.Prelude.{◌≡◌, ◌+◌, ◌-◌, ◌^◌, ◌≤◌, ◌⊎◌, ◌↔◌, [], true, false, Some, None, Err, length, option_map, IfOk, IfErr, OnOk, OnErr};
ghost use Rattle.line_pipeline.specs.declared.conns.Conn.TheVariants as conns;
ghost use Rattle.line_pipeline.specs.declared.reasons.AddFault.TheVariants as faults;
ghost use Rattle.line_pipeline.specs.Conn.{state_of, secret_of};
ghost use Rattle.line_pipeline.specs.Live.{fresh};
ghost use Rattle.line_pipeline.specs.Table.{is_held, conn_at, without, Joins};
ghost use Rattle.request_types.specs.Ids.{same_id};
ghost use Rattle.request_types.specs.declared.connections.ConnId.{ConnId};
ghost use Rattle.batch_worker.specs.Linked.{link_at, KeepsLinks};

use hs_line::BUFFER_SIZE;
use hs_outside::Link;
use line_pipeline::{AddFault, ConnState, ConnTable};
use request_types::{ConnId, Port};
use std::alloc::{AllocError, Global};
use std::marker::Model;
use std::mem::replace;

/// Connections, and at each number the link of the connection that has it.
#[derive(Drop)]
pub struct Links<L> {
    pub(crate) table: ConnTable,
    pub(crate) links: Vec<Option<L>>,
    pub(crate) buffer: Vec<u8>,
}

impl<L> Model for Links<L> {
    ghost use Rattle.std.specs.Prelude.{◌≡◌, vec_len};
    ghost use Rattle.hs_line.specs.declared.limits.TheConstants.{BUFFER_SIZE};
    ghost use Rattle.request_types.specs.Ids.{same_id};
    ghost use Rattle.request_types.specs.declared.connections.ConnId.{ConnId};
    ghost use Rattle.batch_worker.specs.Linked.{LinkTable, AreLinked};

    ghost Value = { LinkTable L };

    ghost view = { λ t. record { table = t.table; links = t.links.items } };

    ghost invariant = { λ t. AreLinked t.table t.links.items × (vec_len t.buffer ≡ BUFFER_SIZE) };
}

/// No connection has a link yet.
pub fn links_new<L: Link + Drop>(alloc: Global, conns: ConnTable) -> Result<Links<L>, AllocError>
    requires { conns.conns ≡ [] }
    ensures { IfOk result (λ links. links.table ≡ conns) }
{
    let mut buffer = Vec::new(alloc);
    buffer.resize(BUFFER_SIZE, 0)?;
    let links = no_links(alloc, conns.places())?;
    Ok(Links {
        table: conns,
        links,
        buffer,
    })
}

/// So many places without a link.
fn no_links<L: Link + Drop>(alloc: Global, count: usize) -> Result<Vec<Option<L>>, AllocError>
    ensures { IfOk result (λ links. length links.items ≡ count) }
{
    let mut links = Vec::with_capacity(alloc, count)?;
    for _ in 0..count {
        links.push(None)?;
    }
    Ok(links)
}

impl<L: Link + Drop> Links<L> {
    /// Holds a connection that has come to a port, with its link, under an id that none had before.
    pub fn add(&mut self, alloc: Global, port: Port, link: L) -> Result<ConnId, (L, AddFault)>
        ensures joins { IfOk result (λ id. Joins self.old.table.conns self.new.table.conns id
            (conns.Live (fresh (secret_of self.old.table.secrets port) port))) }
        ensures unheld { IfOk result (λ id. is_held self.old.table.conns id ≡ false) }
        ensures counted { OnOk result (self.new.table ≡ record self.old.table {
          added = self.old.table.added + 1;
          conns = self.new.table.conns;
        }) }
        ensures link { IfOk result (λ id. link_at self.new.links id ≡ Some link) }
        ensures others { OnOk result
            (KeepsLinks self.old.table.conns self.old.links self.new.links) }

        // Full comes exactly where as many as may be are held, or no generation is left. The link
        // is handed back.
        ensures full { (result ≡ Err (link, faults.Full))
            ↔ ((256 ≤ length self.old.table.conns) ⊎ (self.old.table.added ≡ 2 ^ 64 - 1)) }
        ensures err { OnErr result (self.new ≡ self.old) }
        ensures back { IfErr result (λ refused. refused.0 ≡ link) }
    {
        match self.table.add(alloc, port) {
            Ok(id) => {
                self.links[id.number as usize] = Some(link);
                Ok(id)
            }
            Err(fault) => Err((link, fault)),
        }
    }

    /// Lets a connection go, and hands out its link.
    pub fn remove(&mut self, conn: ConnId) -> L
        requires { is_held self.old.table.conns conn ≡ true }
        ensures link { link_at self.old.links conn ≡ Some result }
        ensures gone { self.new.table ≡ record self.old.table {
          conns = without conn self.old.table.conns;
        } }
        ensures others { KeepsLinks self.new.table.conns self.old.links self.new.links }
    {
        self.table.remove(conn);
        match replace(&mut self.links[conn.number as usize], None) {
            Some(link) => link,
            None => unreachable!(),
        }
    }
}

impl<L: Link> Links<L> {
    /// Whether a connection of this id is held.
    pub fn has(&self, conn: ConnId) -> bool
        ensures { result ≡ is_held self.now.table.conns conn }
    {
        self.table.has(conn)
    }

    pub fn state(&self, conn: ConnId) -> ConnState
        requires { is_held self.now.table.conns conn ≡ true }
        ensures { option_map state_of (conn_at self.now.table.conns conn) ≡ Some result }
    {
        self.table.state(conn)
    }

    /// The link of a connection.
    pub fn link(&self, conn: ConnId) -> &L
        requires { is_held self.now.table.conns conn ≡ true }
        ensures { link_at self.now.links conn ≡ Some result.now }
    {
        match &self.links[conn.number as usize] {
            Some(link) => link,
            None => unreachable!(),
        }
    }

    /// Gives a connection another link, and hands out the one that it had.
    pub fn replace_link(&mut self, conn: ConnId, link: L) -> L
        requires { is_held self.old.table.conns conn ≡ true }
        ensures was { link_at self.old.links conn ≡ Some result }
        ensures is { link_at self.new.links conn ≡ Some link }
        ensures others { (id : ConnId) → is_held self.old.table.conns id ≡ true
            → same_id id conn ≡ false → link_at self.new.links id ≡ link_at self.old.links id }
        ensures table { self.new.table ≡ self.old.table }
    {
        match replace(&mut self.links[conn.number as usize], Some(link)) {
            Some(link) => link,
            None => unreachable!(),
        }
    }
}
