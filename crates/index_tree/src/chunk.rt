//! One chunk of a tree's items: as many as 256, in memory that is there from the start.
ghost use Rattle.std.specs.Prelude.{◌≡◌, ◌+◌, ◌<◌, ◌≤◌, [], ◌++◌, length, take, drop, remove, IfOk, slice_get, Some, count_by};
ghost use Rattle.std.specs.List.{insert};
ghost use Rattle.index_tree.specs.Parts.{IsParted};

use crate::Cut;
use std::alloc::{AllocError, Global};
use std::marker::Model;

/// How many items a chunk has room for.
pub(crate) const FULL: usize = 256;

/// How many each chunk has where there are two.
pub(crate) const HALF: usize = 128;

/// Items that stand together.
#[derive(Drop)]
pub(crate) struct Chunk<T> {
    items: Vec<T>,
}

impl<T> Model for Chunk<T> {
    ghost use Rattle.std.specs.Prelude.{List, ◌≤◌, vec_capacity};
    ghost use Rattle.std.specs.Coded.{coded_list};

    ghost Value = { List T };

    ghost coded = { coded_list T.code };

    ghost view = { λ chunk. chunk.items.items };

    ghost invariant = { λ chunk. 256 ≤ vec_capacity chunk.items };
}

impl<T: Copy> Chunk<T> {
    /// An empty chunk. This is the one call that takes memory.
    pub(crate) fn new(alloc: Global) -> Result<Chunk<T>, AllocError>
        ensures { IfOk result (λ chunk. chunk ≡ []) }
    {
        let items = Vec::with_capacity(alloc, FULL)?;
        Ok(Chunk { items })
    }

    pub(crate) fn len(&self) -> usize
        ensures { result ≡ length self.now }
    {
        self.items.len()
    }

    pub(crate) fn as_slice(&self) -> &[T]
        ensures { result.now ≡ self.now }
    {
        self.items.as_slice()
    }

    /// How many items stand before the cut.
    pub(crate) fn count_before<C: Cut<T>>(&self, cut: &C) -> usize
        requires { IsParted (C.before cut.now) self.now }
        ensures { result ≡ count_by (C.before cut.now) self.now }
    {
        self.items.as_slice().partition_point(
            |item: &T| -> bool
                ensures { result ≡ C.before cut.entry.now item.now }
            { cut.is_before(item) },
        )
    }

    /// Puts an item in front of the one at the offset.
    pub(crate) fn insert(&mut self, offset: usize, item: T)
        requires within { offset ≤ length self.old }
        requires room { length self.old < 256 }
        ensures { self.new ≡ insert self.old offset item }
    {
        match self.items.insert(offset, item) {
            Ok(()) => {}
            Err(_) => unreachable!(),
        }
    }

    /// Takes out the item at the offset.
    pub(crate) fn remove(&mut self, offset: usize) -> T
        requires { offset < length self.old }
        ensures item { slice_get self.old offset ≡ Some result }
        ensures items { self.new ≡ remove self.old offset }
    {
        self.items.remove(offset)
    }

    /// Takes over all items of another chunk, behind its own.
    pub(crate) fn append(&mut self, other: &mut Chunk<T>)
        requires { length self.old + length other.old ≤ 256 }
        ensures items { self.new ≡ self.old ++ other.old }
        ensures emptied { other.new ≡ [] }
    {
        match self.items.append(&mut other.items) {
            Ok(()) => {}
            Err(_) => unreachable!(),
        }
    }

    /// Hands the items from the half on to an empty chunk.
    pub(crate) fn split_into(&mut self, upper: &mut Chunk<T>)
        requires some { 128 ≤ length self.old }
        requires fits { length self.old ≤ 256 }
        requires empty { upper.old ≡ [] }
        ensures lower { self.new ≡ take 128 self.old }
        ensures upper { upper.new ≡ drop 128 self.old }
    {
        match upper.items.extend_from_slice(&self.items[HALF..]) {
            Ok(()) => {}
            Err(_) => unreachable!(),
        }
        self.items.truncate(HALF);
    }
}
