//! Chunks of a list.
ghost use Rattle.std.specs.Prelude.{◌≡◌, ◌<◌, ◌≤◌, ◌+◌, [], length, take, drop, IfOk, vec_len, vec_capacity, true, false};
ghost use Rattle.std.specs.List.{insert, remove, slice_index_or};
ghost use Rattle.std.specs.List.Sorted.{IsPartitionedBy, IsPartitionPoint};
ghost use Rattle.hinted_chunks.specs.ChunkLimits.{chunk_limit, half_limit};

use crate::bounds::{Bound, Keyed};
use crate::hints::{Hints, count_hinted, put_hint, put_in, sharpen};
use crate::limits::{CHUNK_LIMIT, HALF};
use std::alloc::{AllocError, Global};
use std::marker::Model;

/// At most 64 elements, with room for as many, and beside each its hint. Contracts see it as a list.
#[derive(Drop)]
pub struct Chunk<T: Keyed> {
    elements: Vec<T>,
    hints: Hints,
}

impl<T: Keyed> Model for Chunk<T> {
    ghost use Rattle.std.specs.Prelude.{List, ◌≤◌, vec_len, vec_capacity};
    ghost use Rattle.hinted_chunks.specs.ChunkLimits.{chunk_limit};
    ghost use Rattle.hinted_chunks.specs.Hinted.{IsHinted};

    ghost Value = { List T };

    ghost view = { λ chunk. chunk.elements.items };

    ghost invariant = { λ chunk. (vec_len chunk.elements ≤ chunk_limit) × (chunk_limit ≤ vec_capacity chunk.elements)
        × IsHinted T.key chunk.elements.items chunk.hints × (chunk_limit ≤ vec_capacity chunk.hints.numbers) };
}

impl<T: Keyed + Drop> Chunk<T> {
    /// No element.
    pub fn new(alloc: Global) -> Result<Chunk<T>, AllocError>
        ensures { IfOk result (λ chunk. chunk ≡ []) }
    {
        Ok(Chunk {
            elements: Vec::with_capacity(alloc, CHUNK_LIMIT)?,
            hints: Hints {
                mark: usize::MAX,
                numbers: Vec::with_capacity(alloc, CHUNK_LIMIT)?,
            },
        })
    }

    /// The number of elements.
    pub fn len(&self) -> usize
        ensures value { result ≡ length self.now }
        ensures limit { length self.now ≤ chunk_limit }
    {
        self.elements.len()
    }

    /// The elements, in order.
    pub fn as_slice(&self) -> &[T]
        ensures { result.now ≡ self.now }
    {
        self.elements.as_slice()
    }

    /// Puts an element at a place. It takes no memory.
    pub fn insert(&mut self, at: usize, element: T)
        requires room { length self.old < chunk_limit }
        requires place { at ≤ length self.old }
        ensures { self.new ≡ insert self.old at element }
    {
        put_hint(&mut self.hints, &self.elements, at, &element);
        put_in(&mut self.elements, at, element);
    }

    /// Takes out the element at a place.
    pub fn remove(&mut self, at: usize) -> T
        requires { at < length self.old }
        ensures rest { self.new ≡ remove self.old at }
        ensures value { result ≡ slice_index_or self.old at result }
    {
        let _ = self.hints.numbers.remove(at);
        self.elements.remove(at)
    }

    /// Moves what is behind the first half to an empty chunk. It takes no memory.
    pub fn split_into(&mut self, other: &mut Chunk<T>)
        requires { other.old ≡ [] }
        ensures front { self.new ≡ take half_limit self.old }
        ensures back { other.new ≡ drop half_limit self.old }
    {
        move_tail(&mut self.elements, &mut other.elements);
        move_tail(&mut self.hints.numbers, &mut other.hints.numbers);
        other.hints.mark = self.hints.mark;
        sharpen(&mut self.hints, &self.elements);
        sharpen(&mut other.hints, &other.elements);
    }

    /// How many elements are before the bound.
    pub fn count_before<B: Bound<T>>(&self, bound: &B) -> usize
        ensures bound { result ≤ length self.now }
        ensures place { IsPartitionedBy (B.before bound.now) self.now →
            IsPartitionPoint (λ x. B.before bound.now x ≡ true) (λ x. B.before bound.now x ≡ false) self.now result }
    {
        count_hinted(&self.hints, &self.elements, bound)
    }
}

// Moves what is behind the first half to an empty list with room.
fn move_tail<T: Drop>(from: &mut Vec<T>, to: &mut Vec<T>)
    requires empty { to.old.items ≡ [] }
    requires room { vec_len from.old ≤ vec_capacity to.old }
    ensures front { from.new.items ≡ take half_limit from.old.items }
    ensures back { to.new.items ≡ drop half_limit from.old.items }
    ensures room { vec_capacity from.new ≡ vec_capacity from.old }
    ensures room_to { vec_capacity to.new ≡ vec_capacity to.old }
{
    while from.len() > HALF {
        if let Some(element) = from.pop() {
            to.push_reserved(element);
        }
    }
    to.reverse();
}
