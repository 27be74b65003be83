//! The changes that may have to be taken back.
ghost use Rattle.std.specs.Prelude.{◌≡◌, ◌+◌, ◌<◌, ◌≤◌, [], ◌∷◌, ◌++◌, length, take, drop, slice_get, Option, Some, IsOk, OnOk, OnErr};

use crate::undo::Undo;
use std::alloc::{AllocError, Global};
use std::marker::Model;

/// Changes, from the oldest to the newest.
#[derive(Drop)]
pub struct UndoList {
    entries: Vec<Undo>,
}

impl Model for UndoList {
    ghost use Rattle.std.specs.Prelude.{◌-◌, vec_len, vec_capacity};
    ghost use Rattle.table_rows.specs.Undoing.{Undos};

    ghost Value = { Undos };

    ghost view = { λ list. record {
      entries = list.entries.items;
      spare = vec_capacity list.entries - vec_len list.entries;
    } };
}

impl UndoList {
    /// No change, and no room for one. Takes no memory.
    pub fn list_new(alloc: Global) -> UndoList
        ensures entries { result.entries ≡ [] }
        ensures spare { result.spare ≡ 0 }
    {
        UndoList {
            entries: Vec::new(alloc),
        }
    }

    /// How many changes there are, which is the mark of the next one.
    pub fn mark(&self) -> usize
        ensures { result ≡ length self.now.entries }
    {
        self.entries.len()
    }

    /// Lets all changes go. Takes no memory.
    pub fn clear(&mut self)
        ensures entries { self.new.entries ≡ [] }
        ensures spare { self.new.spare ≡ self.old.spare + length self.old.entries }
    {
        self.entries.clear();
    }

    /// The change at a place, from 0 for the oldest.
    pub fn entry(&self, at: usize) -> &Undo
        requires { at < length self.now.entries }
        ensures { slice_get self.now.entries at ≡ Some result.now }
    {
        &self.entries[at]
    }

    /// Makes room for `n` changes.
    pub fn reserve(&mut self, n: u32) -> Result<(), AllocError>
        ensures entries { self.new.entries ≡ self.old.entries }
        ensures room { OnOk result (n ≤ self.new.spare) }
        ensures keeps_room { self.old.spare ≤ self.new.spare }
        ensures at_hand { n ≤ self.old.spare → IsOk result × (self.new ≡ self.old) }
        ensures refused { OnErr result (self.new ≡ self.old) }
    {
        if n as usize <= self.entries.capacity() - self.entries.len() {
            return Ok(());
        }
        self.entries.reserve(n as usize)
    }

    /// Notes a change behind all others. Takes no memory.
    pub(crate) fn push_reserved(&mut self, undo: Undo)
        requires { 0 < self.old.spare }
        ensures entries { self.new.entries ≡ self.old.entries ++ undo ∷ [] }
        ensures spare { self.new.spare + 1 ≡ self.old.spare }
    {
        self.entries.push_reserved(undo);
    }

    /// Hands the newest change out.
    pub(crate) fn pop(&mut self) -> Undo
        requires { 0 < length self.old.entries }
        ensures entries { self.old.entries ≡ self.new.entries ++ result ∷ [] }
        ensures spare { self.old.spare + 1 ≡ self.new.spare }
    {
        match self.entries.pop() {
            None => unreachable!(),
            Some(undo) => undo,
        }
    }
}
