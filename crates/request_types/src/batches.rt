//! What one turn asks for, and what is replied to it.
ghost use Rattle.std.specs.Prelude.{◌≡◌, IfOk};

use crate::connections::ConnId;
use crate::requests::Request;
use row_types::{ByteText, List};
use std::alloc::{AllocError, Global};

/// What a line asks for.
#[derive(Debug, Drop)]
pub enum ItemKind {
    /// Nothing: its reply is this code. 0 is success.
    Ready(u32),
    Hs(Request),
}

impl ItemKind {
    /// The same with memory of its own.
    pub fn copy(&self, alloc: Global) -> Result<ItemKind, AllocError>
        ensures { IfOk result (λ copy. copy ≡ self.now) }
    {
        match self {
            ItemKind::Ready(code) => Ok(ItemKind::Ready(*code)),
            ItemKind::Hs(request) => Ok(ItemKind::Hs(request.copy(alloc)?)),
        }
    }
}

/// What a line of a connection asks for.
#[derive(Debug, Drop)]
pub struct Item {
    pub conn: ConnId,
    pub kind: ItemKind,
}

impl Item {
    /// An equal item with memory of its own.
    pub fn copy(&self, alloc: Global) -> Result<Item, AllocError>
        ensures { IfOk result (λ copy. copy ≡ self.now) }
    {
        Ok(Item {
            conn: self.conn,
            kind: self.kind.copy(alloc)?,
        })
    }
}

/// What one turn asks for, in order.
#[derive(Debug, Drop)]
pub struct Batch {
    pub items: List<Item>,
}

impl Batch {
    /// An equal batch with memory of its own.
    pub fn copy(&self, alloc: Global) -> Result<Batch, AllocError>
        ensures { IfOk result (λ copy. copy ≡ self.now) }
    {
        let items = self.items.as_slice();
        let mut copies = Vec::with_capacity(alloc, items.len())?;
        for item in items {
            copies.push(item.copy(alloc)?)?;
        }
        Ok(Batch {
            items: List::of_vec(copies),
        })
    }
}

/// The replies to a connection's items, one after another.
#[derive(Debug, Drop)]
pub struct Part {
    pub conn: ConnId,
    pub text: ByteText,
}

/// The replies to a batch.
#[derive(Debug, Drop)]
pub struct Replies {
    pub parts: List<Part>,
}
