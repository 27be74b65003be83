//! The pool of a tree: empty chunks, from which an insert takes one where a chunk is full.
ghost use Rattle.std.specs.Prelude.{◌≡◌, ◌+◌, ◌<◌, ◌≤◌, [], IfOk, OnOk, OnErr, IsOk, replicate, vec_len, vec_capacity};
ghost use Rattle.index_tree.specs.Chunked.{IsSpent};

use crate::chunk::Chunk;
use std::alloc::{AllocError, Global};

// More chunks than a machine's memory holds.
const MOST_CHUNKS: usize = 1 << 32;

/// Puts so many empty chunks into the pool, and makes room in both lists for all chunks.
pub(crate) fn add_spare<T: Copy>(
    chunks: &mut Vec<Chunk<T>>,
    pool: &mut Vec<Chunk<T>>,
    more: usize,
) -> Result<(), AllocError>
    requires few { vec_len chunks.old + vec_len pool.old ≤ 4294967296 }
    requires few_more { more ≤ 4294967296 }
    requires spent { IsSpent pool.old.items }
    ensures chunks { chunks.new.items ≡ chunks.old.items }
    ensures spent { IsSpent pool.new.items }
    ensures added { OnOk result (vec_len pool.new ≡ vec_len pool.old + more) }
    ensures few { OnOk result (vec_len chunks.new + vec_len pool.new ≤ 4294967296) }
    ensures room { OnOk result (vec_len chunks.new + vec_len pool.new ≤ vec_capacity chunks.new) }
    ensures pool_room { OnOk result
        (vec_len chunks.new + vec_len pool.new ≤ vec_capacity pool.new) }

    // Where the memory is wanting only the room may have grown.
    ensures refused { OnErr result (pool.new.items ≡ pool.old.items) }
    ensures capacity { vec_capacity chunks.old ≤ vec_capacity chunks.new }
    ensures pool_capacity { vec_capacity pool.old ≤ vec_capacity pool.new }
{
    let total = chunks.len() + pool.len() + more;
    if MOST_CHUNKS < total {
        return Err(AllocError);
    }
    let mut fresh = empty_chunks(*chunks.allocator(), more)?;
    chunks.reserve(total - chunks.len())?;
    pool.reserve(total - pool.len())?;
    match pool.append(&mut fresh) {
        Ok(()) => Ok(()),
        Err(_) => unreachable!(),
    }
}

/// An empty chunk of the pool.
pub(crate) fn take_spare<T: Copy>(pool: &mut Vec<Chunk<T>>) -> Chunk<T>
    requires some { 0 < vec_len pool.old }
    requires spent { IsSpent pool.old.items }
    ensures empty { result ≡ [] }
    ensures spent { IsSpent pool.new.items }
    ensures pool_len { vec_len pool.new + 1 ≡ vec_len pool.old }
    ensures pool_capacity { vec_capacity pool.new ≡ vec_capacity pool.old }
{
    match pool.pop() {
        Some(chunk) => chunk,
        None => unreachable!(),
    }
}

// So many empty chunks.
fn empty_chunks<T: Copy>(alloc: Global, count: usize) -> Result<Vec<Chunk<T>>, AllocError>
    ensures { IfOk result (λ made. made.items ≡ replicate count []) }
{
    let mut made = Vec::new(alloc);
    for _ in 0..count {
        made.push(Chunk::new(alloc)?)?;
    }
    Ok(made)
}
