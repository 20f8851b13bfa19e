//! Hints of chunks: a chunk's text is that of its first element, so that a search among the chunks, too, seldom looks at one.
ghost use Rattle.std.specs.Prelude.{◌≡◌, take};
ghost use Rattle.hinted_chunks.specs.Hinted.{top_key};

use crate::bounds::{Bound, Keyed};
use crate::chunks::Chunk;

impl<T: Keyed + Drop> Keyed for Chunk<T> {
    ghost use Rattle.hinted_chunks.specs.Hinted.{top_key};

    ghost key = { top_key T.key };

    fn shared(&self, other: &Chunk<T>) -> usize {
        match other.as_slice().first() {
            Some(first) => shared_with_top(self, first),
            None => 0,
        }
    }

    fn hint(&self, place: usize) -> u64 {
        match self.as_slice().first() {
            Some(first) => first.hint(place),
            None => 0,
        }
    }
}

/// The place of a bound among chunks: behind those that begin before it.
#[derive(Drop)]
pub struct Begun<'a, B> {
    pub bound: &'a B,
}

impl<'a, T: Keyed + Drop, B: Bound<T>> Bound<Chunk<T>> for Begun<'a, B> {
    ghost use Rattle.hinted_chunks.specs.Hinted.{first_passes};
    ghost use Rattle.hinted_chunks.specs.TopLaws.{top_below, top_above};

    ghost before = { λ begun chunk. first_passes (B.before begun.bound.now) chunk };

    ghost key = { λ begun. B.key begun.bound.now };

    ghost below = { λ begun chunk less. top_below T.key (B.before begun.bound.now) (B.key begun.bound.now) (B.below begun.bound.now) chunk less };

    ghost above = { λ begun chunk more. top_above T.key (B.before begun.bound.now) (B.key begun.bound.now) (B.above begun.bound.now) chunk more };

    fn is_before(&self, chunk: &Chunk<T>) -> bool {
        match chunk.as_slice().first() {
            Some(first) => self.bound.is_before(first),
            None => true,
        }
    }

    fn shared(&self, chunk: &Chunk<T>) -> usize {
        match chunk.as_slice().first() {
            Some(first) => self.bound.shared(first),
            None => 0,
        }
    }

    fn hint(&self, place: usize) -> u64 {
        self.bound.hint(place)
    }
}

/// A number of bytes that a chunk's text and an element's share from their starts.
pub fn shared_with_top<T: Keyed + Drop>(chunk: &Chunk<T>, element: &T) -> usize
    ensures { take result (top_key T.key chunk.now) ≡ take result (T.key element.now) }
{
    match chunk.as_slice().first() {
        Some(first) => first.shared(element),
        None => 0,
    }
}
