//! Edits of a list of chunks, with the hints of these.
ghost use Rattle.std.specs.Prelude.{◌≡◌, ◌<◌, ◌≤◌, ◌+◌, ◌++◌, ◌∷◌, List, [], length, take, drop, vec_len, vec_capacity};
ghost use Rattle.std.specs.List.{insert, remove, slice_index_or, slice_set};
ghost use Rattle.chunked_list.specs.Joined.{chunk_at};
ghost use Rattle.hinted_chunks.specs.ChunkLimits.{chunk_limit, half_limit};
ghost use Rattle.hinted_chunks.specs.Hinted.{IsHinted, top_after, top_key};
ghost use Rattle.chunked_list.specs.Parted.{IsElement};

use crate::places::Place;
use hinted_chunks::{Chunk, Hints, Keyed, lower_to, put_hint, shared_with_top};

/// Puts an element at a place. It takes no memory.
pub(crate) fn insert_at<T: Keyed + Drop>(
    chunks: &mut Vec<Chunk<T>>,
    tops: &mut Hints,
    place: Place,
    element: T,
)
    requires is { IsHinted (top_key T.key) chunks.old.items tops.old }
    requires filled { 0 < length (chunk_at chunks.old.items place.chunk) }
    requires tops_room { vec_len chunks.old ≤ vec_capacity tops.old.numbers }
    requires chunk { place.chunk < vec_len chunks.old }
    requires at { place.at ≤ length (chunk_at chunks.old.items place.chunk) }
    requires room { length (chunk_at chunks.old.items place.chunk) < chunk_limit }
    ensures items { chunks.new.items
        ≡ slice_set chunks.old.items place.chunk (insert (chunk_at chunks.old.items place.chunk) place.at element) }
    ensures len { vec_len chunks.new ≡ vec_len chunks.old }
    ensures capacity { vec_capacity chunks.new ≡ vec_capacity chunks.old }
    ensures is { IsHinted (top_key T.key) chunks.new.items tops.new }
    ensures tops_room { vec_capacity tops.new.numbers ≡ vec_capacity tops.old.numbers }
{
    set_top(tops, chunks, place, &element);
    let chunk = &mut chunks[place.chunk];
    chunk.insert(place.at, element);
}

/// Takes out the element at a place, where others stay. It takes no memory.
pub(crate) fn remove_at<T: Keyed + Drop>(
    chunks: &mut Vec<Chunk<T>>,
    tops: &mut Hints,
    place: Place,
) -> T
    requires is { IsHinted (top_key T.key) chunks.old.items tops.old }
    requires others { 1 < length (chunk_at chunks.old.items place.chunk) }
    requires tops_room { vec_len chunks.old ≤ vec_capacity tops.old.numbers }
    requires element { IsElement chunks.old.items place.chunk place.at }
    ensures items { chunks.new.items
        ≡ slice_set chunks.old.items place.chunk (remove (chunk_at chunks.old.items place.chunk) place.at) }
    ensures value { result ≡ slice_index_or (chunk_at chunks.old.items place.chunk) place.at result }
    ensures len { vec_len chunks.new ≡ vec_len chunks.old }
    ensures capacity { vec_capacity chunks.new ≡ vec_capacity chunks.old }
    ensures is { IsHinted (top_key T.key) chunks.new.items tops.new }
    ensures tops_room { vec_capacity tops.new.numbers ≡ vec_capacity tops.old.numbers }
{
    set_top(tops, chunks, place, &chunks[place.chunk].as_slice()[1]);
    let chunk = &mut chunks[place.chunk];
    chunk.remove(place.at)
}

/// Moves what is behind the first half of a chunk to an empty one, which comes next. It takes no memory.
pub(crate) fn split_at<T: Keyed + Drop>(
    chunks: &mut Vec<Chunk<T>>,
    tops: &mut Hints,
    chunk: usize,
    spare: Chunk<T>,
)
    requires is { IsHinted (top_key T.key) chunks.old.items tops.old }
    requires tops_room { vec_len chunks.old < vec_capacity tops.old.numbers }
    requires chunk { chunk < vec_len chunks.old }
    requires spare { spare ≡ [] }
    requires room { vec_len chunks.old < vec_capacity chunks.old }
    ensures items { chunks.new.items ≡ take chunk chunks.old.items
        ++ take half_limit (chunk_at chunks.old.items chunk)
        ∷ drop half_limit (chunk_at chunks.old.items chunk)
        ∷ drop (chunk + 1) chunks.old.items }
    ensures len { vec_len chunks.new ≡ vec_len chunks.old + 1 }
    ensures capacity { vec_capacity chunks.old ≤ vec_capacity chunks.new }
    ensures is { IsHinted (top_key T.key) chunks.new.items tops.new }
    ensures tops_room { vec_capacity tops.old.numbers ≤ vec_capacity tops.new.numbers }
{
    let mut other = spare;
    move_half(chunks, chunk, &mut other);
    put_hint(tops, chunks, chunk + 1, &other);
    let _ = chunks.insert(chunk + 1, other);
}

// Moves what is behind the first half of a chunk to an empty one.
fn move_half<T: Keyed + Drop>(chunks: &mut Vec<Chunk<T>>, chunk: usize, other: &mut Chunk<T>)
    requires chunk { chunk < vec_len chunks.old }
    requires empty { other.old ≡ [] }
    ensures items { chunks.new.items
        ≡ slice_set chunks.old.items chunk (take half_limit (chunk_at chunks.old.items chunk)) }
    ensures other { other.new ≡ drop half_limit (chunk_at chunks.old.items chunk) }
    ensures len { vec_len chunks.new ≡ vec_len chunks.old }
    ensures capacity { vec_capacity chunks.new ≡ vec_capacity chunks.old }
{
    let first = &mut chunks[chunk];
    first.split_into(other);
}

// Makes the hint of a chunk anew, where an edit at a place brings another element to its front. It takes no memory.
fn set_top<T: Keyed + Drop>(tops: &mut Hints, chunks: &[Chunk<T>], place: Place, first: &T)
    requires is { IsHinted (top_key T.key) chunks.now tops.old }
    requires chunk { place.chunk < length chunks.now }
    requires room { length chunks.now ≤ vec_capacity tops.old.numbers }
    ensures is { (chunk : List T)
        → top_key T.key chunk ≡ top_after T.key (chunk_at chunks.now place.chunk) place.at first.now
        → IsHinted (top_key T.key) (slice_set chunks.now place.chunk chunk) tops.new }
    ensures room { vec_capacity tops.new.numbers ≡ vec_capacity tops.old.numbers }
{
    if place.at == 0 {
        lower_to(tops, chunks, shared_with_top(&chunks[0], first));
        tops.numbers[place.chunk] = first.hint(tops.mark);
    }
}
