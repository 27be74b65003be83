//! A turn of some connections, in two halves around its batch.
ghost use Rattle.std.specs.Prelude.{◌≡◌, [], ◌∷◌, true, IfOk, OnErr};
ghost use Rattle.std.specs.List.{AllByRecursion};
ghost use Rattle.request_types.specs.Batches.{StandTogether};
ghost use Rattle.request_types.specs.Fits.{ItemFits};
ghost use Rattle.request_types.specs.Ids.{are_once};
ghost use Rattle.line_pipeline.specs.Settled.{asked_by, parts_of, HasPlace, CanSettle};
ghost use Rattle.batch_worker.specs.Linked.{Each};
ghost use Rattle.batch_worker.specs.Receiving.{Receives};
ghost use Rattle.batch_worker.specs.Sending.{Passes};
ghost use Rattle.batch_worker.specs.Turn.{Gathers, IsRefused, settled_by};

use crate::links::Links;
use crate::receiving::receive;
use crate::sending::pass;
use hs_outside::Link;
use line_pipeline::{Batch, Outcome};
use request_types::ConnId;
use std::alloc::{AllocError, Global};

impl<L: Link> Links<L> {
    /// The listed connections receive, and their whole lines are taken into one batch.
    pub fn begin_turn(&mut self, alloc: Global, ready: &[ConnId]) -> Result<Batch, AllocError>
        requires { are_once ready.now ≡ true }
        ensures gathers { IfOk result (λ batch. Gathers L.peer ready.now self.old self.new batch) }

        // The batch can be run and settled.
        ensures fits { IfOk result (λ batch.
            AllByRecursion (ItemFits self.old.table.schema) batch.items) }
        ensures together { IfOk result (λ batch. StandTogether batch.items) }
        ensures places { IfOk result (λ batch.
            AllByRecursion (HasPlace self.new.table.conns) (asked_by batch)) }

        // Without memory those that asked for something are closed.
        ensures refused { OnErr result (IsRefused L.peer ready.now self.old self.new) }
    {
        self.receive_each(ready);
        self.table.gather(alloc, ready)
    }

    /// Hands out what came of the batch. Then the listed connections are sent what waits for them,
    /// and those that have an end close.
    pub fn end_turn(&mut self, ready: &[ConnId], batch: &Batch, outcome: Outcome)
        requires once { are_once ready.now ≡ true }
        requires settles { CanSettle self.old.table.conns batch.now (parts_of outcome) }
        ensures { Each L.peer Passes ready.now (settled_by self.old batch.now outcome) self.new }
    {
        self.table.settle(batch, outcome);
        self.pass_each(ready);
    }

    /// The same where memory was refused before there was a batch.
    pub fn end_refused_turn(&mut self, ready: &[ConnId])
        requires { are_once ready.now ≡ true }
        ensures { Each L.peer Passes ready.now self.old self.new }
    {
        self.pass_each(ready);
    }
}

impl<L: Link> Links<L> {
    /// Each of these connections receives. An id that none has is passed over.
    fn receive_each(&mut self, ready: &[ConnId])
        requires { are_once ready.now ≡ true }
        ensures { Each L.peer Receives ready.now self.old self.new }
    {
        for id in ready {
            self.receive(*id);
        }
    }

    fn receive(&mut self, id: ConnId)
        ensures { Each L.peer Receives (id ∷ []) self.old self.new }
    {
        if !self.table.has(id) {
            return;
        }
        let place = &mut self.links[id.number as usize];
        if let Some(link) = place {
            receive(&mut self.table, id, link, &mut self.buffer);
        }
    }

    /// Each of these connections is sent what waits for it, and closes where it has an end of its
    /// own.
    fn pass_each(&mut self, ready: &[ConnId])
        requires { are_once ready.now ≡ true }
        ensures { Each L.peer Passes ready.now self.old self.new }
    {
        for id in ready {
            self.pass(*id);
        }
    }

    fn pass(&mut self, id: ConnId)
        ensures { Each L.peer Passes (id ∷ []) self.old self.new }
    {
        if !self.table.has(id) {
            return;
        }
        let place = &mut self.links[id.number as usize];
        if let Some(link) = place {
            pass(&mut self.table, id, link);
        }
    }
}
