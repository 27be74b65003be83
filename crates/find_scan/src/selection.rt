//! The rows that a find has selected so far.
ghost use Rattle.std.specs.Prelude.{◌≡◌, ◌<◌, List, [], ◌∷◌, length, nat_eq, OnOk};
ghost use Rattle.std.specs.List.{All};
ghost use Rattle.row_types.specs.declared.values.Value.{Value};
ghost use Rattle.table_rows.specs.Entries.{Entry};
ghost use Rattle.find_scan.specs.Gathering.{with_kept, gives};

use find_filter::{Step, passes};
use request_types::FilterSpec;
use row_types::Row;
use std::alloc::{AllocError, Global};
use std::marker::Model;
use table_rows::SlotRef;

/// Slots in the order in which they were selected, how many more kept rows are dropped, and how
/// many are selected then.
#[derive(Drop)]
pub(crate) struct Selection {
    slots: Vec<SlotRef>,
    to_drop: u32,
    room: u32,
}

impl Model for Selection {
    ghost use Rattle.find_scan.specs.Gathering.{Gathered};

    ghost Value = { Gathered };

    ghost view = { λ s. record { slots = s.slots.items; to_drop = s.to_drop; room = s.room } };
}

impl Selection {
    /// Nothing yet. Takes no memory.
    pub(crate) fn new(alloc: Global, offset: u32, limit: u32) -> Selection
        ensures { result ≡ record { slots = []; to_drop = offset; room = limit } }
    {
        Selection {
            slots: Vec::new(alloc),
            to_drop: offset,
            room: limit,
        }
    }

    /// Whether nothing more is selected, whatever comes.
    pub(crate) fn is_full(&self) -> bool
        ensures { result ≡ nat_eq self.now.room 0 }
    {
        self.room == 0
    }

    pub(crate) fn into_slots(self) -> Vec<SlotRef>
        ensures { result.items ≡ self.slots }
    {
        let Selection { slots, .. } = self;
        slots
    }

    /// Takes the next row of the find: selects it, drops it, passes over it, or ends before it.
    pub(crate) fn offer(
        &mut self,
        slot: SlotRef,
        row: &Row,
        filters: &[FilterSpec],
    ) -> Result<(), AllocError>
        requires room { 0 < self.old.room }
        requires filters { All (λ f. f.column < length row.now) filters.now }
        ensures { OnOk result ((later : List Entry)
            → gives filters.now self.new later
            ≡ gives filters.now self.old ((row.now, slot.0) ∷ later)) }
    {
        match passes(row, filters) {
            Step::Keep => self.keep(slot),
            Step::Skip => Ok(()),
            Step::Stop => {
                self.room = 0;
                Ok(())
            }
        }
    }

    // Selects a row that is kept, or drops it.
    fn keep(&mut self, slot: SlotRef) -> Result<(), AllocError>
        requires { 0 < self.old.room }
        ensures { OnOk result ((row : List Value) (later : List Entry)
            → with_kept self.new later ≡ with_kept self.old ((row, slot.0) ∷ later)) }
    {
        if self.to_drop > 0 {
            self.to_drop -= 1;
            return Ok(());
        }
        self.slots.push(slot)?;
        self.room -= 1;
        Ok(())
    }
}
