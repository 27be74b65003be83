//! From a batch's outcome to the outputs of its connections.
ghost use Rattle.std.specs.Prelude.{◌≡◌, true, false, map};
ghost use Rattle.std.specs.List.{AllByRecursion};
ghost use Rattle.line_pipeline.specs.Conn.{place_used, closed};
ghost use Rattle.request_types.specs.Ids.{are_once};
ghost use Rattle.line_pipeline.specs.Table.{all_changed};
ghost use Rattle.line_pipeline.specs.Settled.{asked_by, answered_by, all_told, settled, parts_of, HasPlace, CanSettle};

use crate::changes::Change;
use crate::outcomes::Outcome;
use crate::reasons::Reason;
use crate::tables::ConnTable;
use request_types::{Batch, Item, Part};
use std::collections::VecDeque;

impl ConnTable {
    /// Hands out the replies to a batch, or closes the connections of a batch that wasn't done.
    pub fn settle(&mut self, batch: &Batch, outcome: Outcome)
        requires { CanSettle self.old.conns batch.now (parts_of outcome) }
        ensures { self.new ≡ record self.old { conns = settled self.old.conns batch.now outcome } }
    {
        let items = batch.items.as_slice();
        match outcome {
            Outcome::Done(replies) => {
                self.answer_each(replies.parts.into_vec());
                self.use_places(items);
            }
            Outcome::DiskFault => self.close_items(items, Reason::BatchDisk),
            Outcome::NoMemory => self.close_items(items, Reason::BatchMemory),
        }
    }
}

impl ConnTable {
    /// Puts each part at the end of its connection's output.
    fn answer_each(&mut self, parts: Vec<Part>)
        requires places { AllByRecursion (HasPlace self.old.conns) (answered_by parts.items) }
        requires once { are_once (answered_by parts.items) ≡ true }
        ensures { self.new ≡ record self.old { conns = all_told parts.items self.old.conns } }
    {
        let mut parts = VecDeque::from_vec(parts);
        while let Some(part) = parts.pop_front() {
            let Part { conn, text } = part;
            self.apply(conn, Change::Answer(text));
        }
    }

    /// Gives up the place of each connection of the items.
    fn use_places(&mut self, items: &[Item])
        ensures { self.new ≡ record self.old {
          conns = all_changed (map (λ item. item.conn) items.now) place_used self.old.conns;
        } }
    {
        for item in items {
            self.apply(item.conn, Change::UsePlace);
        }
    }

    /// Closes each connection of the items.
    fn close_items(&mut self, items: &[Item], reason: Reason)
        ensures { self.new ≡ record self.old {
          conns = all_changed (map (λ item. item.conn) items.now) (closed reason) self.old.conns;
        } }
    {
        for item in items {
            self.close(item.conn, reason);
        }
    }
}
