//! Bytes that were written, kept as they were.
ghost use Rattle.std.specs.Prelude.{◌≡◌, ◌++◌, IfOk};

use std::alloc::{AllocError, Global};
use std::marker::Model;

#[derive(Drop)]
pub struct Saved {
    bytes: Vec<u8>,
}

impl Model for Saved {
    ghost use Rattle.std.specs.Prelude.{List, ℕ};

    ghost Value = { List ℕ };

    ghost view = { λ s. s.bytes.items };
}

impl Saved {
    pub fn joined(alloc: Global, head: &[u8], body: &[u8], tail: &[u8]) -> Result<Saved, AllocError>
        ensures { IfOk result (λ saved. saved ≡ head.now ++ body.now ++ tail.now) }
    {
        let mut bytes = head.to_vec(alloc)?;
        bytes.extend_from_slice(body)?;
        bytes.extend_from_slice(tail)?;
        Ok(Saved { bytes })
    }

    pub fn as_slice(&self) -> &[u8]
        ensures { result.now ≡ self.now }
    {
        &self.bytes
    }
}
