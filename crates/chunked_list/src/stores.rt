//! The parts of a list in chunks.
ghost use Rattle.std.specs.Prelude.{◌≡◌, ◌<◌, ◌≤◌, ◌+◌, ◌-◌, ◌++◌, ◌∷◌, [], length, reverse, max, vec_len, IfOk, OnOk};
ghost use Rattle.chunked_list.specs.Joined.{chunk_at, with_element, without_element, IsRightBehind};
ghost use Rattle.hinted_chunks.specs.ChunkLimits.{chunk_limit, half_limit, chunks_limit};
ghost use Rattle.chunked_list.specs.Room.{last_half, load_of, room_of};
ghost use Rattle.chunked_list.specs.Parted.{IsElement};
ghost use Rattle.chunked_list.specs.Stores.{IsStore, elements_in, room_in};

use crate::edits::{insert_at, remove_at, split_at};
use crate::places::{Place, count_half, end_of, is_end};
use crate::starts::{put_half, shift};
use hinted_chunks::{CHUNK_LIMIT, CHUNKS_LIMIT, Chunk, HALF, Hints, Keyed, put_hint};
use std::alloc::{AllocError, Global};

/// The parts of a list in chunks. No chunk is empty or full.
#[derive(Drop)]
pub(crate) struct Store<T: Keyed> {
    /// The chunks, in order.
    pub(crate) chunks: Vec<Chunk<T>>,
    /// The hints of the chunks.
    pub(crate) tops: Hints,
    /// How many elements stand before each chunk.
    pub(crate) starts: Vec<usize>,
    /// Empty chunks, for those that come to be full.
    pub(crate) spare: Vec<Chunk<T>>,
    /// By how many elements the chunks pass their halves, summed up.
    pub(crate) excess: usize,
    /// The number of elements.
    pub(crate) count: usize,
}

/// Puts an element at a place. It takes no memory.
pub(crate) fn put<T: Keyed + Drop>(store: &mut Store<T>, place: Place, element: T)
    requires is { IsStore T.key store.old }
    requires room { 0 < room_in store.old }
    requires chunk { place.chunk < max 1 (length store.old.chunks.items) }
    requires at { place.at ≤ length (chunk_at store.old.chunks.items place.chunk) }
    ensures is { IsStore T.key store.new }
    ensures elements { elements_in store.new ≡ with_element store.old.chunks.items place.chunk place.at element }
    ensures room { room_in store.old ≤ room_in store.new + 1 }
{
    if store.chunks.is_empty() {
        return put_behind(store, element);
    }
    if store.chunks[place.chunk].len() + 1 < CHUNK_LIMIT {
        return put_within(store, place, element);
    }
    if is_end(&store.chunks, place) {
        return put_behind(store, element);
    }
    put_and_split(store, place, element);
}

// Puts an element behind all others, into a chunk of its own.
fn put_behind<T: Keyed + Drop>(store: &mut Store<T>, element: T)
    requires is { IsStore T.key store.old }
    requires room { 0 < room_in store.old }
    requires full { last_half half_limit store.old.chunks.items ≡ half_limit }
    ensures is { IsStore T.key store.new }
    ensures elements { elements_in store.new ≡ elements_in store.old ++ element ∷ [] }
    ensures room { room_in store.old ≤ room_in store.new + 1 }
{
    if let Some(spare) = store.spare.pop() {
        let mut chunk = spare;
        chunk.insert(0, element);
        put_hint(&mut store.tops, &store.chunks, store.chunks.len(), &chunk);
        store.chunks.push_reserved(chunk);
        store.starts.push_reserved(store.count);
        store.count += 1;
    }
}

// Puts an element into a chunk that isn't full then.
fn put_within<T: Keyed + Drop>(store: &mut Store<T>, place: Place, element: T)
    requires is { IsStore T.key store.old }
    requires chunk { place.chunk < length store.old.chunks.items }
    requires at { place.at ≤ length (chunk_at store.old.chunks.items place.chunk) }
    requires space { length (chunk_at store.old.chunks.items place.chunk) + 1 < chunk_limit }
    ensures is { IsStore T.key store.new }
    ensures elements { elements_in store.new ≡ with_element store.old.chunks.items place.chunk place.at element }
    ensures room { room_in store.old ≤ room_in store.new + 1 }
{
    let before = store.chunks[place.chunk].len();
    insert_at(&mut store.chunks, &mut store.tops, place, element);
    shift(&mut store.starts, place.chunk + 1, 0, 1);
    store.count += 1;
    store.excess = store.excess - over(before) + over(before + 1);
}

// By how many elements a chunk of so many passes its half.
fn over(len: usize) -> usize
    ensures { result ≡ len - half_limit }
{
    len.saturating_sub(HALF)
}

// Puts an element into a chunk that is full then, and splits it.
fn put_and_split<T: Keyed + Drop>(store: &mut Store<T>, place: Place, element: T)
    requires is { IsStore T.key store.old }
    requires room { 0 < room_in store.old }
    requires chunk { place.chunk < length store.old.chunks.items }
    requires at { place.at ≤ length (chunk_at store.old.chunks.items place.chunk) }
    requires full { length (chunk_at store.old.chunks.items place.chunk) + 1 ≡ chunk_limit }
    ensures is { IsStore T.key store.new }
    ensures elements { elements_in store.new ≡ with_element store.old.chunks.items place.chunk place.at element }
    ensures room { room_in store.old ≤ room_in store.new + 1 }
{
    if let Some(spare) = store.spare.pop() {
        insert_at(&mut store.chunks, &mut store.tops, place, element);
        split_at(&mut store.chunks, &mut store.tops, place.chunk, spare);
        shift(&mut store.starts, place.chunk + 1, 0, 1);
        put_half(&mut store.starts, place.chunk);
        store.count += 1;
        store.excess -= HALF - 1;
    }
}

/// Takes out the element at a place. It takes no memory.
pub(crate) fn take_out<T: Keyed + Drop>(store: &mut Store<T>, place: Place) -> T
    requires is { IsStore T.key store.old }
    requires element { IsElement store.old.chunks.items place.chunk place.at }
    ensures is { IsStore T.key store.new }
    ensures element { IsRightBehind store.old.chunks.items place.chunk place.at result }
    ensures elements { elements_in store.new ≡ without_element store.old.chunks.items place.chunk place.at }
    ensures room { room_in store.old ≤ room_in store.new }
{
    if store.chunks[place.chunk].len() == 1 {
        return take_only(store, place);
    }
    take_within(store, place)
}

// Takes the only element of a chunk out, and the chunk with it; where that is the last one, it is kept to spare.
fn take_only<T: Keyed + Drop>(store: &mut Store<T>, place: Place) -> T
    requires is { IsStore T.key store.old }
    requires element { IsElement store.old.chunks.items place.chunk place.at }
    requires only { length (chunk_at store.old.chunks.items place.chunk) ≡ 1 }
    ensures is { IsStore T.key store.new }
    ensures element { IsRightBehind store.old.chunks.items place.chunk place.at result }
    ensures elements { elements_in store.new ≡ without_element store.old.chunks.items place.chunk place.at }
    ensures room { room_in store.old ≤ room_in store.new }
{
    let _ = store.tops.numbers.remove(place.chunk);
    let _ = store.starts.remove(place.chunk);
    shift(&mut store.starts, place.chunk, 1, 0);
    let mut chunk = store.chunks.remove(place.chunk);
    let element = chunk.remove(place.at);
    store.count -= 1;
    if place.chunk == store.chunks.len() {
        store.spare.push_reserved(chunk);
    }
    element
}

// Takes an element out of a chunk that has others.
fn take_within<T: Keyed + Drop>(store: &mut Store<T>, place: Place) -> T
    requires is { IsStore T.key store.old }
    requires element { IsElement store.old.chunks.items place.chunk place.at }
    requires others { 1 < length (chunk_at store.old.chunks.items place.chunk) }
    ensures is { IsStore T.key store.new }
    ensures element { IsRightBehind store.old.chunks.items place.chunk place.at result }
    ensures elements { elements_in store.new ≡ without_element store.old.chunks.items place.chunk place.at }
    ensures room { room_in store.old ≤ room_in store.new }
{
    let before = store.chunks[place.chunk].len();
    let element = remove_at(&mut store.chunks, &mut store.tops, place);
    shift(&mut store.starts, place.chunk + 1, 1, 0);
    store.count -= 1;
    store.excess = store.excess - over(before) + over(before - 1);
    element
}

/// Makes room for so many elements more.
pub(crate) fn make_room<T: Keyed + Drop>(
    alloc: Global,
    store: &mut Store<T>,
    more: usize,
) -> Result<(), AllocError>
    requires { IsStore T.key store.old }
    ensures is { IsStore T.key store.new }
    ensures elements { store.new.chunks.items ≡ store.old.chunks.items }
    ensures ok { OnOk result (more ≤ room_in store.new) }
    ensures kept { room_in store.old ≤ room_in store.new }
{
    if more > CHUNKS_LIMIT {
        return Err(AllocError);
    }
    let wanted = wanted_for(store, more);
    if wanted > CHUNKS_LIMIT - store.chunks.len() {
        return Err(AllocError);
    }
    fill_spare(alloc, store, wanted)
}

// How many chunks to spare give room for so many elements more.
fn wanted_for<T: Keyed + Drop>(store: &Store<T>, more: usize) -> usize
    requires is { IsStore T.key store.now }
    requires few { more ≤ chunks_limit }
    ensures { more ≤ room_of result (load_of store.now.chunks.items) }
{
    more.min((store.excess + count_half(&store.chunks) + more) / HALF)
}

// Makes as many chunks to spare, where there are fewer.
fn fill_spare<T: Keyed + Drop>(
    alloc: Global,
    store: &mut Store<T>,
    wanted: usize,
) -> Result<(), AllocError>
    requires is { IsStore T.key store.old }
    requires few { vec_len store.old.chunks + wanted ≤ chunks_limit }
    ensures is { IsStore T.key store.new }
    ensures chunks { store.new.chunks.items ≡ store.old.chunks.items }
    ensures kept { vec_len store.old.spare ≤ vec_len store.new.spare }
    ensures ok { OnOk result (wanted ≤ vec_len store.new.spare) }
{
    store.chunks.reserve(wanted)?;
    store.tops.numbers.reserve(wanted)?;
    store.starts.reserve(wanted)?;
    store.spare.reserve(store.chunks.len() + wanted)?;
    while store.spare.len() < wanted {
        let chunk = Chunk::new(alloc)?;
        store.spare.push_reserved(chunk);
    }
    Ok(())
}

/// The parts of the list with no element.
pub(crate) fn empty<T: Keyed + Drop>(alloc: Global) -> Store<T>
    ensures is { IsStore T.key result }
    ensures elements { result.chunks.items ≡ [] }
{
    Store {
        chunks: Vec::new(alloc),
        tops: Hints {
            mark: usize::MAX,
            numbers: Vec::new(alloc),
        },
        starts: Vec::new(alloc),
        spare: Vec::new(alloc),
        excess: 0,
        count: 0,
    }
}

/// The parts of a list of these elements.
pub(crate) fn build<T: Keyed + Drop>(alloc: Global, list: Vec<T>) -> Result<Store<T>, AllocError>
    ensures is { IfOk result (IsStore T.key) }
    ensures elements { IfOk result (λ store. elements_in store ≡ list.items) }
{
    let mut store = empty(alloc);
    make_room(alloc, &mut store, list.len())?;
    let mut rest = list;
    rest.reverse();
    push_all(&mut store, &mut rest);
    Ok(store)
}

// Moves elements to the end, the last one first.
fn push_all<T: Keyed + Drop>(store: &mut Store<T>, rest: &mut Vec<T>)
    requires is { IsStore T.key store.old }
    requires room { vec_len rest.old ≤ room_in store.old }
    ensures is { IsStore T.key store.new }
    ensures elements { elements_in store.new ≡ elements_in store.old ++ reverse rest.old.items }
{
    while let Some(element) = rest.pop() {
        push(store, element);
    }
}

// Puts an element at the end.
fn push<T: Keyed + Drop>(store: &mut Store<T>, element: T)
    requires is { IsStore T.key store.old }
    requires room { 0 < room_in store.old }
    ensures is { IsStore T.key store.new }
    ensures elements { elements_in store.new ≡ elements_in store.old ++ element ∷ [] }
    ensures room { room_in store.old ≤ room_in store.new + 1 }
{
    let place = end_of(&store.chunks);
    put(store, place, element);
}
