//! Elements by how many stand before them.
ghost use Rattle.std.specs.Prelude.{◌≡◌, ◌<◌, ◌≤◌, ◌-◌, ◌++◌, true, false, length, map, take, drop, max, vec_len, vec_capacity, IfOk};
ghost use Rattle.std.specs.List.Sorted.{IsPartitionPoint};
ghost use Rattle.chunked_list.specs.Joined.{joined_chunks, chunk_at, front_of};
ghost use Rattle.chunked_list.specs.Parted.{IsElement, IsParted};
ghost use Rattle.chunked_list.specs.Stores.{IsStore, elements_in};

use crate::places::{Place, locate};
use crate::starts::last_at_most;
use crate::stores::Store;
use hinted_chunks::{Bound, Chunk, Keyed};
use std::alloc::{AllocError, Global};

/// The place of the element before which so many stand.
pub(crate) fn place_of<T: Keyed + Drop>(store: &Store<T>, count: usize) -> Place
    requires is { IsStore T.key store.now }
    requires element { count < length (elements_in store.now) }
    ensures element { IsElement store.now.chunks.items result.chunk result.at }
    ensures front { length (front_of store.now.chunks.items result.chunk result.at) ≡ count }
{
    let chunk = last_at_most(&store.starts, count);
    let at = count - store.starts[chunk];
    Place { chunk, at }
}

/// How many elements are before a bound.
pub(crate) fn count_in<T: Keyed + Drop, B: Bound<T>>(store: &Store<T>, bound: &B) -> usize
    requires is { IsStore T.key store.now }
    requires parted { IsParted (B.before bound.now) (elements_in store.now) }
    ensures end { result ≤ length (elements_in store.now) }
    ensures place { IsPartitionPoint (λ x. B.before bound.now x ≡ true) (λ x. B.before bound.now x ≡ false)
        (elements_in store.now) result }
{
    count_at(store, locate(store, bound))
}

// How many elements are in front of a place.
fn count_at<T: Keyed + Drop>(store: &Store<T>, place: Place) -> usize
    requires is { IsStore T.key store.now }
    requires chunk { place.chunk < max 1 (length store.now.chunks.items) }
    requires at { place.at ≤ length (chunk_at store.now.chunks.items place.chunk) }
    ensures { result ≡ length (front_of store.now.chunks.items place.chunk place.at) }
{
    if place.chunk < store.starts.len() {
        return store.starts[place.chunk] + place.at;
    }
    0
}

/// The elements from one number to before another, in order.
pub(crate) fn span_of<'a, T: Keyed + Drop>(
    alloc: Global,
    store: &'a Store<T>,
    from: usize,
    to: usize,
) -> Result<Vec<&'a T>, AllocError>
    requires is { IsStore T.key store.now }
    requires from { from ≤ to }
    requires to { to ≤ length (elements_in store.now) }
    ensures { IfOk result (λ found. map (λ x. x.now) found.items ≡ take (to - from) (drop from (elements_in store.now))) }
{
    let count = to - from;
    let mut found = Vec::with_capacity(alloc, count)?;
    if from < to {
        let place = place_of(store, from);
        add_first(
            &mut found,
            &store.chunks[place.chunk].as_slice()[place.at..],
            count,
        );
        add_first_of(&mut found, &store.chunks[place.chunk + 1..], count);
    }
    Ok(found)
}

// Adds the elements of chunks, until there are so many.
fn add_first_of<'a, T: Keyed + Drop>(found: &mut Vec<&'a T>, chunks: &'a [Chunk<T>], count: usize)
    requires few { vec_len found.old ≤ count }
    requires room { count ≤ vec_capacity found.old }
    ensures { map (λ x. x.now) found.new.items ≡ take count (map (λ x. x.now) found.old.items ++ joined_chunks chunks.now) }
{
    for chunk in chunks {
        if found.len() == count {
            return;
        }
        add_first(found, chunk.as_slice(), count);
    }
}

// Adds the elements, until there are so many.
fn add_first<'a, T: Keyed + Drop>(found: &mut Vec<&'a T>, elements: &'a [T], count: usize)
    requires few { vec_len found.old ≤ count }
    requires room { count ≤ vec_capacity found.old }
    ensures items { map (λ x. x.now) found.new.items ≡ take count (map (λ x. x.now) found.old.items ++ elements.now) }
    ensures few { vec_len found.new ≤ count }
    ensures room { vec_capacity found.new ≡ vec_capacity found.old }
{
    for element in elements {
        if found.len() == count {
            return;
        }
        found.push_reserved(element);
    }
}
