//! A walk through the items of a tree, from a cut on.
ghost use Rattle.std.specs.Prelude.{◌≡◌, [], ◌∷◌, ◌+◌, ◌<◌, ◌≤◌, ◌++◌, length, take, drop, reverse, MatchOption};
ghost use Rattle.index_tree.specs.Chunked.{joined, chunk_at, sequel, HaveItems, IsShaped};

use crate::chunk::Chunk;
use crate::spot::Spot;
use std::marker::Model;

/// The items that are left, the next one first.
#[derive(Drop)]
pub struct Walk<'a, T> {
    left: &'a [T],
    rest: &'a [Chunk<T>],
    down: bool,
}

impl<'a, T> Model for Walk<'a, T> {
    ghost use Rattle.std.specs.Prelude.{List};
    ghost use Rattle.std.specs.Coded.{coded_list};
    ghost use Rattle.index_tree.specs.Chunked.{sequel, HaveItems};

    ghost Value = { List T };

    ghost coded = { coded_list T.code };

    ghost view = { λ walk. sequel walk.down walk.left.now walk.rest.now };

    ghost invariant = { λ walk. HaveItems walk.rest.now };
}

impl<'a, T: Copy> Walk<'a, T> {
    pub(crate) fn up(chunks: &'a [Chunk<T>], spot: Spot) -> Walk<'a, T>
        requires shaped { IsShaped chunks.now }
        requires within { spot.offset ≤ length (chunk_at chunks.now spot.chunk) }
        ensures { result ≡ drop spot.offset (chunk_at chunks.now spot.chunk)
            ++ joined (drop (spot.chunk + 1) chunks.now) }
    {
        match chunks.get(spot.chunk) {
            None => Walk {
                left: &[],
                rest: &[],
                down: false,
            },
            Some(chunk) => Walk {
                left: &chunk.as_slice()[spot.offset..],
                rest: &chunks[spot.chunk + 1..],
                down: false,
            },
        }
    }

    pub(crate) fn down(chunks: &'a [Chunk<T>], spot: Spot) -> Walk<'a, T>
        requires shaped { IsShaped chunks.now }
        requires inside { 0 < length chunks.now → spot.chunk < length chunks.now }
        requires within { spot.offset ≤ length (chunk_at chunks.now spot.chunk) }
        ensures { result ≡ reverse (joined (take spot.chunk chunks.now)
            ++ take spot.offset (chunk_at chunks.now spot.chunk)) }
    {
        match chunks.get(spot.chunk) {
            None => Walk {
                left: &[],
                rest: &[],
                down: true,
            },
            Some(chunk) => Walk {
                left: &chunk.as_slice()[..spot.offset],
                rest: &chunks[..spot.chunk],
                down: true,
            },
        }
    }

    /// The next item, or None at the end.
    pub fn next(&mut self) -> Option<T>
        ensures { MatchOption result (self.old ≡ self.new × self.new ≡ [])
            (λ item. self.old ≡ item ∷ self.new) }
    {
        let (left, rest) = at_hand(self.left, self.rest, self.down);
        let (item, behind) = if self.down {
            left.split_last()?
        } else {
            left.split_first()?
        };
        self.left = behind;
        self.rest = rest;
        Some(*item)
    }
}

// What is left, with the next chunk entered where the last one is through.
fn at_hand<'a, T: Copy>(
    left: &'a [T],
    rest: &'a [Chunk<T>],
    down: bool,
) -> (&'a [T], &'a [Chunk<T>])
    requires { HaveItems rest.now }
    ensures same { sequel down result.0.now result.1.now ≡ sequel down left.now rest.now }
    ensures items { HaveItems result.1.now }
    ensures through { length result.0.now ≡ 0 → result.1.now ≡ [] }
{
    if down {
        last_at_hand(left, rest)
    } else {
        first_at_hand(left, rest)
    }
}

fn first_at_hand<'a, T: Copy>(left: &'a [T], rest: &'a [Chunk<T>]) -> (&'a [T], &'a [Chunk<T>])
    requires { HaveItems rest.now }
    ensures same { result.0.now ++ joined result.1.now ≡ left.now ++ joined rest.now }
    ensures items { HaveItems result.1.now }
    ensures through { length result.0.now ≡ 0 → result.1.now ≡ [] }
{
    if !left.is_empty() {
        return (left, rest);
    }
    match rest.split_first() {
        None => (left, rest),
        Some((chunk, others)) => (chunk.as_slice(), others),
    }
}

fn last_at_hand<'a, T: Copy>(left: &'a [T], rest: &'a [Chunk<T>]) -> (&'a [T], &'a [Chunk<T>])
    requires { HaveItems rest.now }
    ensures same { joined result.1.now ++ result.0.now ≡ joined rest.now ++ left.now }
    ensures items { HaveItems result.1.now }
    ensures through { length result.0.now ≡ 0 → result.1.now ≡ [] }
{
    if !left.is_empty() {
        return (left, rest);
    }
    match rest.split_last() {
        None => (left, rest),
        Some((chunk, others)) => (chunk.as_slice(), others),
    }
}
