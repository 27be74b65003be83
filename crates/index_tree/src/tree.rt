//! A tree of items, as chunks of them in the order in which the inserts placed them. A look-up
//! halves the list of the chunks' first items and then one chunk. An insert and a removal move
//! items of one chunk, and seldom those of a neighbour. Five things always hold:
//!
//! 1. `chunks` are in use: none has more than 256 items, and where there are two each has 128.
//! 2. `firsts` has an item for each of them, which is the first one of a chunk that has any.
//! 3. The chunks of `pool` are empty, and an insert takes a new chunk from there.
//! 4. There are at most 128 items for each chunk of the two lists, so where a chunk is full the
//!    pool has one.
//! 5. Each of the three has room for all chunks, so none grows when a chunk goes to another list.
ghost use Rattle.std.specs.Prelude.{◌≡◌, ℕ, ◌+◌, ◌*◌, ◌-◌, ◌<◌, ◌≤◌, [], length, OnOk, OnErr, IsOk, IfSome, remove, not, slice_get, filter, reverse, vec_len, vec_capacity};
ghost use Rattle.std.specs.List.{insert};
ghost use Rattle.index_tree.specs.Contents.{IsAt, IsInside, Finds, one_after, one_before};
ghost use Rattle.index_tree.specs.Parts.{IsParted, put_between, first_place, last_place};
ghost use Rattle.index_tree.specs.Chunked.{joined, chunk_at, start, held, IsTree, IsShaped, IsSpent, IsCutAt};

use crate::chunk::{Chunk, HALF};
use crate::chunks::{find, make_room};
use crate::firsts::{note_insert, note_removal};
use crate::pool::add_spare;
use crate::shifts::settle;
use crate::spot::Spot;
use crate::{Cut, Place, Walk};
use std::alloc::{AllocError, Global};
use std::marker::Model;

/// Items, and room for more.
#[derive(Drop)]
pub struct Tree<T> {
    chunks: Vec<Chunk<T>>,
    firsts: Vec<T>,
    pool: Vec<Chunk<T>>,
    count: usize,
}

impl<T> Model for Tree<T> {
    ghost use Rattle.std.specs.Prelude.{vec_capacity};
    ghost use Rattle.index_tree.specs.Contents.{Contents, contents_code};
    ghost use Rattle.index_tree.specs.Chunked.{held, IsTree};

    ghost Value = { Contents T };

    ghost coded = { contents_code T.code };

    ghost view = { λ tree. held tree.chunks.items tree.pool.items };

    ghost invariant = { λ tree. IsTree tree.chunks.items tree.firsts.items tree.pool.items
        tree.count (vec_capacity tree.chunks) (vec_capacity tree.firsts) (vec_capacity tree.pool) };
}

impl<T: Copy> Tree<T> {
    /// An empty tree without room.
    pub fn new(alloc: Global) -> Tree<T>
        ensures items { result.items ≡ [] }
        ensures spare { result.spare ≡ 0 }
    {
        Tree {
            chunks: Vec::new(alloc),
            firsts: Vec::new(alloc),
            pool: Vec::new(alloc),
            count: 0,
        }
    }

    /// Makes room for `n` inserts.
    pub fn reserve(&mut self, n: u32) -> Result<(), AllocError>
        ensures items { self.new.items ≡ self.old.items }
        ensures room { OnOk result (n ≤ self.new.spare) }
        ensures keeps_room { self.old.spare ≤ self.new.spare }

        // Where the room is there no memory is asked for, so none can be wanting.
        ensures at_hand { n ≤ self.old.spare → IsOk result }
        ensures refused { OnErr result (self.new ≡ self.old) }
    {
        let spare = HALF * (self.chunks.len() + self.pool.len()) - self.count;
        let wanted = n as usize;
        if wanted <= spare {
            return Ok(());
        }
        let more = (wanted - spare).div_ceil(HALF);
        self.firsts.reserve(self.pool.len() + more)?;
        add_spare(&mut self.chunks, &mut self.pool, more)
    }

    /// Puts an item at the cut. It takes no memory.
    pub fn insert<C: Cut<T>>(&mut self, cut: &C, item: T)
        requires parted { IsParted (C.before cut.now) self.old.items }
        requires room { 0 < self.old.spare }
        ensures items { self.new.items ≡ put_between (C.before cut.now) item self.old.items }
        ensures spare { self.new.spare + 1 ≡ self.old.spare }
    {
        let spot = find(self.chunks.as_slice(), self.firsts.as_slice(), cut);
        let free = make_room(
            &mut self.chunks,
            &mut self.firsts,
            &mut self.pool,
            spot,
            item,
        );
        self.chunks[free.chunk].insert(free.offset, item);
        note_insert(&mut self.firsts, free, item);
        self.count += 1;
    }

    /// Takes out the item at a place and hands it back. It takes no memory.
    pub fn remove_at(&mut self, place: Place) -> T
        requires { IsInside self.old place }
        ensures item { (before : ℕ) → IsAt self.old place before →
            slice_get self.old.items before ≡ Some result }
        ensures items { (before : ℕ) → IsAt self.old place before →
            self.new.items ≡ remove self.old.items before }
        ensures spare { self.new.spare ≡ self.old.spare + 1 }
    {
        let spot = Spot::of(place);
        let item = self.chunks[spot.chunk].remove(spot.offset);
        note_removal(&mut self.firsts, &self.chunks[spot.chunk], spot);
        settle(
            &mut self.chunks,
            &mut self.firsts,
            &mut self.pool,
            spot.chunk,
        );
        self.count -= 1;
        item
    }

    /// How many items there are.
    pub fn len(&self) -> usize
        ensures { result ≡ length self.now.items }
    {
        self.count
    }

    /// The first item behind the cut.
    pub fn first_behind<C: Cut<T>>(&self, cut: &C) -> Option<Place>
        requires parted { IsParted (C.before cut.now) self.now.items }
        ensures first { Finds self.now
            (first_place (λ item. not (C.before cut.now item)) self.now.items) result }
        ensures inside { IfSome result (IsInside self.now) }
    {
        let spot = find(self.chunks.as_slice(), self.firsts.as_slice(), cut);
        spot.first_from(self.chunks.as_slice())
    }

    /// The last item before the cut.
    pub fn last_before<C: Cut<T>>(&self, cut: &C) -> Option<Place>
        requires parted { IsParted (C.before cut.now) self.now.items }
        ensures last { Finds self.now (last_place (C.before cut.now) self.now.items) result }
        ensures inside { IfSome result (IsInside self.now) }
    {
        let spot = find(self.chunks.as_slice(), self.firsts.as_slice(), cut);
        spot.last_until(self.chunks.as_slice())
    }

    /// The item behind a place.
    pub fn next(&self, place: Place) -> Option<Place>
        requires { IsInside self.now place }
        ensures behind { (before : ℕ) → IsAt self.now place before →
            Finds self.now (one_after (length self.now.items) before) result }
        ensures inside { IfSome result (IsInside self.now) }
    {
        let spot = Spot::of(place).behind();
        spot.first_from(self.chunks.as_slice())
    }

    /// The item in front of a place.
    pub fn prev(&self, place: Place) -> Option<Place>
        requires { IsInside self.now place }
        ensures in_front { (before : ℕ) → IsAt self.now place before →
            Finds self.now (one_before before) result }
        ensures inside { IfSome result (IsInside self.now) }
    {
        Spot::of(place).last_until(self.chunks.as_slice())
    }

    /// The items behind the cut, the first one next.
    pub fn up<C: Cut<T>>(&self, cut: &C) -> Walk<'_, T>
        requires parted { IsParted (C.before cut.now) self.now.items }
        ensures { result ≡ filter (λ item. not (C.before cut.now item)) self.now.items }
    {
        let spot = find(self.chunks.as_slice(), self.firsts.as_slice(), cut);
        Walk::up(self.chunks.as_slice(), spot)
    }

    /// The items before the cut, the last one next.
    pub fn down<C: Cut<T>>(&self, cut: &C) -> Walk<'_, T>
        requires parted { IsParted (C.before cut.now) self.now.items }
        ensures { result ≡ reverse (filter (C.before cut.now) self.now.items) }
    {
        let spot = find(self.chunks.as_slice(), self.firsts.as_slice(), cut);
        Walk::down(self.chunks.as_slice(), spot)
    }

    /// The item at a place.
    pub fn item_at(&self, place: Place) -> T
        requires { IsInside self.now place }
        ensures { (before : ℕ) → IsAt self.now place before →
            slice_get self.now.items before ≡ Some result }
    {
        let spot = Spot::of(place);
        self.chunks[spot.chunk].as_slice()[spot.offset]
    }
}
