//! The open ids of a connection, and what they stand for.
ghost use Rattle.std.specs.Prelude.{◌≡◌, [], OnOk, OnErr, option_map, length};
ghost use Rattle.open_index.specs.Open.{stands_for, opened};

use row_types::{Kind, List};
use std::alloc::{AllocError, Global};
use std::collections::BTreeMap;
use std::marker::Model;

/// At most so many ids are open on a connection at a time.
pub const MOST_OPEN: usize = 1024;

/// A column by its place in the table's list of columns, and what its values are.
#[derive(Clone, Copy, Debug, PartialEq, Eq)]
pub struct OpenColumn {
    pub number: u32,
    pub kind: Kind,
}

/// What an open id stands for: an index, and the columns that its lines speak of.
#[derive(Debug, Drop)]
pub struct Handle {
    pub table: u32,
    /// A place in the table's list of indexes.
    pub index: u32,
    /// The columns of the index.
    pub parts: List<OpenColumn>,
    /// The columns that a find answers and an insert or a change gives values for.
    pub columns: List<OpenColumn>,
    /// The columns that filters name.
    pub filter_columns: List<OpenColumn>,
}

/// The open ids of a connection. Contracts see them in ascending order, each with what it stands
/// for.
#[derive(Drop)]
pub struct Handles {
    open: BTreeMap<u32, Handle>,
}

impl Model for Handles {
    ghost use Rattle.std.specs.Prelude.{List, ℕ};
    ghost use Rattle.open_index.specs.declared.handles.Handle.{Handle};

    ghost Value = { List (ℕ × Handle) };

    ghost view = { λ handles. handles.open.entries };
}

/// No open ids. Takes no memory.
pub fn handles_new(alloc: Global) -> Handles
    ensures { result ≡ [] }
{
    Handles {
        open: BTreeMap::new(alloc),
    }
}

impl Handles {
    /// What an id stands for.
    pub(crate) fn get(&self, id: u32) -> Option<&Handle>
        ensures { option_map (λ handle. handle.now) result ≡ stands_for self.now id }
    {
        self.open.get(&id)
    }

    pub(crate) fn len(&self) -> usize
        ensures { result ≡ length self.now }
    {
        self.open.len()
    }

    /// From now on the id stands for this, whatever it stood for before.
    pub(crate) fn open(&mut self, id: u32, handle: Handle) -> Result<(), AllocError>
        ensures ok { OnOk result (self.new ≡ opened self.old id handle) }
        ensures err { OnErr result (self.new ≡ self.old) }
    {
        self.open.insert(id, handle)?;
        Ok(())
    }
}
