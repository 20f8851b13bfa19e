//! Places in a list of chunks.
ghost use Rattle.std.specs.Prelude.{◌≡◌, ◌<◌, ◌≤◌, ◌+◌, true, [], length, max, IfSome, IfNone, IsTrue};
ghost use Rattle.hinted_chunks.specs.ChunkLimits.{half_limit};
ghost use Rattle.chunked_list.specs.Joined.{joined_chunks, chunk_at, front_of, back_of};
ghost use Rattle.chunked_list.specs.Parted.{IsParted, Divides, IsElement};
ghost use Rattle.chunked_list.specs.Room.{last_half};
ghost use Rattle.chunked_list.specs.Stores.{AreSized, IsStore, elements_in};
ghost use Rattle.hinted_chunks.specs.tree_clock.Lists.{Has};

use crate::stores::Store;
use hinted_chunks::{Begun, Bound, Chunk, HALF, Keyed, count_hinted};

/// A place in a list of chunks: in front of an element of a chunk, or behind its last one.
#[derive(Clone, Copy)]
pub(crate) struct Place {
    /// The number of the chunk.
    pub(crate) chunk: usize,
    /// How many elements of the chunk are in front.
    pub(crate) at: usize,
}

/// The place behind the elements before the bound, at the end of a chunk rather than at the beginning of the next.
pub(crate) fn locate<T: Keyed + Drop, B: Bound<T>>(store: &Store<T>, bound: &B) -> Place
    requires is { IsStore T.key store.now }
    requires parted { IsParted (B.before bound.now) (elements_in store.now) }
    ensures chunk { result.chunk < max 1 (length store.now.chunks.items) }
    ensures at { result.at ≤ length (chunk_at store.now.chunks.items result.chunk) }
    ensures divides { Divides (B.before bound.now) store.now.chunks.items result.chunk result.at }
{
    if is_behind(&store.chunks, bound) {
        return end_of(&store.chunks);
    }
    let begun = count_hinted(&store.tops, &store.chunks, &Begun { bound });
    let chunk = begun.saturating_sub(1);
    if chunk < store.chunks.len() {
        let at = store.chunks[chunk].count_before(bound);
        return Place { chunk, at };
    }
    Place { chunk, at: 0 }
}

// Whether the last element is before the bound, and so all are. Elements come mostly in order, and such a one needs no search.
fn is_behind<T: Keyed + Drop, B: Bound<T>>(chunks: &[Chunk<T>], bound: &B) -> bool
    requires sized { AreSized chunks.now }
    requires parted { IsParted (B.before bound.now) (joined_chunks chunks.now) }
    ensures { IsTrue result → (x : T) → Has (joined_chunks chunks.now) x → B.before bound.now x ≡ true }
{
    if chunks.is_empty() {
        return false;
    }
    let last = chunks[chunks.len() - 1].as_slice();
    bound.is_before(&last[last.len() - 1])
}

/// The place of the first element that is not before the bound.
pub(crate) fn find<T: Keyed + Drop, B: Bound<T>>(store: &Store<T>, bound: &B) -> Option<Place>
    requires is { IsStore T.key store.now }
    requires parted { IsParted (B.before bound.now) (elements_in store.now) }
    ensures element { IfSome result (λ place. IsElement store.now.chunks.items place.chunk place.at) }
    ensures divides { IfSome result
        (λ place. Divides (B.before bound.now) store.now.chunks.items place.chunk place.at) }
    ensures none { IfNone result ((x : T) → Has (elements_in store.now) x → B.before bound.now x ≡ true) }
{
    next_of(&store.chunks, locate(store, bound))
}

/// The same place at an element: at the beginning of the next chunk, where the place is at the end of one.
pub(crate) fn next_of<T: Keyed + Drop>(chunks: &[Chunk<T>], place: Place) -> Option<Place>
    requires sized { AreSized chunks.now }
    requires chunk { place.chunk < max 1 (length chunks.now) }
    requires at { place.at ≤ length (chunk_at chunks.now place.chunk) }
    ensures element { IfSome result (λ next. IsElement chunks.now next.chunk next.at) }
    ensures front { IfSome result
        (λ next. front_of chunks.now next.chunk next.at ≡ front_of chunks.now place.chunk place.at) }
    ensures back { IfSome result
        (λ next. back_of chunks.now next.chunk next.at ≡ back_of chunks.now place.chunk place.at) }
    ensures none { IfNone result (joined_chunks chunks.now ≡ front_of chunks.now place.chunk place.at) }
{
    if place.chunk < chunks.len() && place.at < chunks[place.chunk].len() {
        return Some(place);
    }
    let next = place.chunk + 1;
    if next < chunks.len() {
        return Some(Place { chunk: next, at: 0 });
    }
    None
}

/// Whether a place is behind all elements.
pub(crate) fn is_end<T: Keyed + Drop>(chunks: &[Chunk<T>], place: Place) -> bool
    requires { place.chunk < length chunks.now }
    ensures last { IsTrue result → length chunks.now ≤ place.chunk + 1 }
    ensures at { IsTrue result → length (chunk_at chunks.now place.chunk) ≤ place.at }
{
    place.chunk + 1 == chunks.len() && place.at == chunks[place.chunk].len()
}

/// How many elements the last chunk has, up to a half; a half where there is no chunk.
pub(crate) fn count_half<T: Keyed + Drop>(chunks: &[Chunk<T>]) -> usize
    ensures value { result ≡ last_half half_limit chunks.now }
    ensures limit { result ≤ half_limit }
{
    if chunks.is_empty() {
        return HALF;
    }
    let last = chunks.len() - 1;
    chunks[last].len().min(HALF)
}

/// The place behind all elements.
pub(crate) fn end_of<T: Keyed + Drop>(chunks: &[Chunk<T>]) -> Place
    ensures chunk { result.chunk < max 1 (length chunks.now) }
    ensures at { result.at ≤ length (chunk_at chunks.now result.chunk) }
    ensures front { front_of chunks.now result.chunk result.at ≡ joined_chunks chunks.now }
    ensures back { back_of chunks.now result.chunk result.at ≡ [] }
{
    if chunks.is_empty() {
        return Place { chunk: 0, at: 0 };
    }
    let chunk = chunks.len() - 1;
    Place {
        chunk,
        at: chunks[chunk].len(),
    }
}
