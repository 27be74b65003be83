//! What is asked of the tables.
ghost use Rattle.std.specs.Prelude.{◌≡◌, IfOk};

use crate::finds::FindSpec;
use crate::inserts::InsertSpec;
use crate::mods::ModSpec;
use std::alloc::{AllocError, Global};

/// What is asked of the tables.
#[derive(Debug, Drop)]
pub enum Request {
    Find(FindSpec),
    /// A change of the rows that the find selects.
    Modify(FindSpec, ModSpec),
    Insert(InsertSpec),
}

impl Request {
    /// An equal request with memory of its own.
    pub fn copy(&self, alloc: Global) -> Result<Request, AllocError>
        ensures { IfOk result (λ copy. copy ≡ self.now) }
    {
        match self {
            Request::Find(find) => Ok(Request::Find(find.copy(alloc)?)),
            Request::Modify(find, change) => {
                Ok(Request::Modify(find.copy(alloc)?, change.copy(alloc)?))
            }
            Request::Insert(insert) => Ok(Request::Insert(insert.copy(alloc)?)),
        }
    }
}
