//! Connections by their numbers, and a turn of some of them.
ghost use Rattle.std.specs.Prelude.{◌≡◌, [], ◌∷◌, ◌++◌, true, nat_eq, OnOk, IfOk};
ghost use Rattle.row_types.specs.Valid.{IsValid, are_distinct};
ghost use Rattle.replay_turns.specs.Linked.{opened};
ghost use Rattle.replay_turns.specs.Session.{answered, RanBy};
ghost use Rattle.replay_turns.specs.Entries.{is_short_at, are_short};

use crate::entries::{Entry, ids_at};
use batch_answers::RunsBatches;
use batch_worker::{Links, TurnEnd, links_new, solo_turn};
use hs_outside::MemLink;
use line_pipeline::{ConnId, Secrets, conns_new};
use request_types::Port;
use row_types::Schema;
use std::alloc::{AllocError, Global};
use std::marker::Model;

/// Connections, each beside its link, and the number of each. A link is made for a moment where
/// another is changed.
#[derive(Drop)]
pub struct Connections {
    pub(crate) links: Links<MemLink>,
    pub(crate) entries: Vec<Entry>,
    pub(crate) alloc: Global,
}

impl Model for Connections {
    ghost use Rattle.replay_turns.specs.Connected.{Connected};
    ghost use Rattle.replay_turns.specs.Entries.{all_linked, AreEntries};

    ghost Value = { Connected };

    ghost view = { λ c. record {
      schema = c.links.table.schema;
      secrets = c.links.table.secrets;
      conns = all_linked c.links.table.conns c.links.links c.entries.items;
    } };

    ghost invariant = { λ c. AreEntries c.links.table.conns c.entries.items };
}

impl Connections {
    /// No connection.
    pub fn new(alloc: Global, schema: Schema, secrets: Secrets) -> Result<Connections, AllocError>
        requires { IsValid schema }
        ensures { IfOk result (λ new.
            new ≡ record { schema = schema; secrets = secrets; conns = [] }) }
    {
        let table = conns_new(alloc, schema, secrets)?;
        Ok(Connections {
            links: links_new(alloc, table)?,
            entries: Vec::new(alloc),
            alloc,
        })
    }

    /// One more connection, behind the others.
    pub fn open(&mut self, alloc: Global, number: u32, port: Port) -> Result<(), AllocError>
        ensures opened { OnOk result (self.new ≡ record self.old {
          conns = self.old.conns ++ opened self.old.secrets number port ∷ [];
        }) }
        ensures schema { self.new.schema ≡ self.old.schema }
    {
        self.entries.reserve(1)?;
        let Ok(id) = self.links.add(alloc, port, MemLink::new(alloc)) else {
            return Err(AllocError);
        };
        self.entries.push_reserved(Entry { number, port, id });
        Ok(())
    }

    /// The connections of these numbers receive, their lines are run as one batch, and they are sent
    /// what waits for them. Without memory for a link, it isn't said what they are.
    pub fn answer<B: RunsBatches>(
        &mut self,
        alloc: Global,
        listed: &[u32],
        book: &mut B,
    ) -> Result<TurnEnd, AllocError>
        requires once { are_distinct nat_eq listed.now ≡ true }
        requires schema { self.old.schema ≡ (B.rows book.old).schema }
        requires sound { B.sound book.old }
        ensures answered { IfOk result (λ end.
            answered end self.old.schema listed.now (B.rows book.old) self.old.conns
            ≡ (B.rows book.new, self.new.conns)) }
        ensures ran { RanBy B.ran result book.old book.new }
        ensures rest { self.new ≡ record self.old { conns = self.new.conns } }
        ensures schema { (B.rows book.new).schema ≡ (B.rows book.old).schema }
        ensures sound { B.sound book.new }
    {
        let ids = ids_at(alloc, &self.entries, listed)?;
        let end = solo_turn(alloc, book, &mut self.links, &ids);
        if are_short(&self.links, &ids) {
            return Err(AllocError);
        }
        Ok(end)
    }
}

/// Whether memory was refused to the link of one of these connections.
fn are_short(links: &Links<MemLink>, ids: &[ConnId]) -> bool
    ensures { result ≡ are_short links.now ids.now }
{
    for id in ids {
        if is_short_at(links, *id) {
            return true;
        }
    }
    false
}

fn is_short_at(links: &Links<MemLink>, id: ConnId) -> bool
    ensures { result ≡ is_short_at links.now id }
{
    links.has(id) && links.link(id).short()
}
