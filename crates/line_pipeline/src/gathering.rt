//! From the held bytes of connections to the lines of one batch.
ghost use Rattle.std.specs.Prelude.{◌≡◌, [], ◌∷◌, ◌++◌, true, if◌then◌else◌, OnOk, OnErr, IfOk};
ghost use Rattle.std.specs.List.{AllByRecursion, filter};
ghost use Rattle.row_types.specs.Valid.{IsValid};
ghost use Rattle.request_types.specs.Fits.{ItemFits};
ghost use Rattle.request_types.specs.Batches.{StandTogether};
ghost use Rattle.line_pipeline.specs.Conn.{took, closed, refused};
ghost use Rattle.line_pipeline.specs.Fitting.{ConnsFit};
ghost use Rattle.request_types.specs.Ids.{are_once};
ghost use Rattle.line_pipeline.specs.Table.{changed, all_changed};
ghost use Rattle.line_pipeline.specs.Gathered.{items_at, batch_of, is_asking, AreFound};
ghost use Rattle.line_pipeline.specs.Settled.{asked_by, HasPlace};
ghost use Rattle.line_pipeline.specs.declared.reasons.Reason.TheVariants as reasons;

use crate::changes::Change;
use crate::reasons::Reason;
use crate::tables::ConnTable;
use request_types::{Batch, ConnId, Item};
use row_types::List;
use std::alloc::{AllocError, Global};

impl ConnTable {
    /// Takes the whole lines of these connections, and reads them.
    pub fn gather(&mut self, alloc: Global, ready: &[ConnId]) -> Result<Batch, AllocError>
        requires { are_once ready.now ≡ true }
        ensures items { IfOk result (λ batch.
            batch.items ≡ batch_of self.old.schema self.old.conns ready.now) }

        // What is asked of the tables fits their schema, and the items of each connection stand together.
        ensures fits { IfOk result (λ batch. AllByRecursion (ItemFits self.old.schema) batch.items) }
        ensures together { IfOk result (λ batch. StandTogether batch.items) }

        // The connections go on without these lines, with a place for the replies to them.
        ensures took { OnOk result (self.new ≡ record self.old {
          conns = all_changed ready.now (took self.old.schema) self.old.conns;
        }) }
        ensures places { IfOk result (λ batch.
            AllByRecursion (HasPlace self.new.conns) (asked_by batch)) }

        // Without memory those that asked for something are closed.
        ensures refused { OnErr result (self.new ≡ record self.old {
          conns = all_changed ready.now refused self.old.conns;
        }) }
    {
        let asking = match self.asking(alloc, ready) {
            Ok(asking) => asking,
            Err(AllocError) => {
                self.refuse(ready);
                return Err(AllocError);
            }
        };
        let mut items = List::new(alloc);
        match self.take_each(alloc, asking.as_slice(), &mut items) {
            Ok(()) => Ok(Batch { items }),
            Err(AllocError) => {
                self.close_each(asking.as_slice());
                Err(AllocError)
            }
        }
    }
}

impl ConnTable {
    /// Those of the connections that are live and hold a line feed.
    fn asking(&self, alloc: Global, ready: &[ConnId]) -> Result<Vec<ConnId>, AllocError>
        ensures asking { IfOk result (λ asking. asking.items ≡ filter (is_asking self.now.conns) ready.now) }
        ensures found { AreFound self.now.conns self.now.conns }
        ensures valid { IsValid self.now.schema }
        ensures fits { ConnsFit self.now.schema self.now.conns }
    {
        let _ = &self.slots;
        let mut asking = Vec::new(alloc);
        for id in ready {
            push_if(&mut asking, *id, self.is_asking(*id))?;
        }
        Ok(asking)
    }

    fn is_asking(&self, id: ConnId) -> bool
        ensures { result ≡ is_asking self.now.conns id }
    {
        match self.conn(id) {
            Some(conn) => conn.asks(),
            None => false,
        }
    }

    /// Closes those of the connections that are live and hold a line feed.
    fn refuse(&mut self, ready: &[ConnId])
        ensures { self.new ≡ record self.old { conns = all_changed ready.now refused self.old.conns } }
    {
        for id in ready {
            self.apply(*id, Change::Refuse);
        }
    }

    fn close_each(&mut self, ids: &[ConnId])
        ensures { self.new ≡ record self.old {
          conns = all_changed ids.now (closed reasons.BatchMemory) self.old.conns;
        } }
    {
        for id in ids {
            self.close(*id, Reason::BatchMemory);
        }
    }

    /// Takes the lines of each of the connections.
    fn take_each(
        &mut self,
        alloc: Global,
        ids: &[ConnId],
        items: &mut List<Item>,
    ) -> Result<(), AllocError>
        requires { are_once ids.now ≡ true }
        ensures items { OnOk result (items.new
            ≡ items.old ++ batch_of self.old.schema self.old.conns ids.now) }
        ensures took { OnOk result (self.new ≡ record self.old {
          conns = all_changed ids.now (took self.old.schema) self.old.conns;
        }) }

        // Without memory some of them are changed, and nothing else is.
        ensures rest { self.new ≡ record self.old { conns = self.new.conns } }
        ensures others { all_changed ids.now (closed reasons.BatchMemory) self.new.conns
            ≡ all_changed ids.now (closed reasons.BatchMemory) self.old.conns }
    {
        for id in ids {
            self.take_one(alloc, *id, items)?;
        }
        Ok(())
    }

    /// Takes the lines of a connection.
    fn take_one(
        &mut self,
        alloc: Global,
        id: ConnId,
        items: &mut List<Item>,
    ) -> Result<(), AllocError>
        ensures items { OnOk result (items.new
            ≡ items.old ++ items_at self.old.schema self.old.conns id) }
        ensures took { OnOk result (self.new ≡ record self.old {
          conns = changed id (took self.old.schema) self.old.conns;
        }) }
        ensures rest { self.new ≡ record self.old { conns = self.new.conns } }
        ensures others { changed id (closed reasons.BatchMemory) self.new.conns
            ≡ changed id (closed reasons.BatchMemory) self.old.conns }
    {
        let Some(slot) = self.slots.get_mut(id.number as usize) else {
            return Ok(());
        };
        if slot.generation != id.generation {
            return Ok(());
        }
        slot.conn.take(alloc, &self.schema, id, items)
    }
}

/// Appends an id, or leaves it out.
fn push_if(ids: &mut Vec<ConnId>, id: ConnId, is_in: bool) -> Result<(), AllocError>
    ensures { OnOk result (ids.new.items ≡ (if is_in then ids.old.items ++ id ∷ [] else ids.old.items)) }
{
    if is_in {
        ids.push(id)?;
    }
    Ok(())
}
