//! Elements of an ascending list in chunks.
ghost use Rattle.std.specs.Prelude.{◌≡◌, ◌<◌, ◌≤◌, ◌+◌, ◌⊎◌, ◌↔◌, length, max, IsTrue};
ghost use Rattle.std.specs.Ordering.{is_lt};
ghost use Rattle.chunked_list.specs.Joined.{joined_chunks, chunk_at};
ghost use Rattle.chunked_list.specs.Parted.{Divides, IsElement};
ghost use Rattle.chunked_list.specs.Stores.{AreSized, IsStore, elements_in, room_in};
ghost use Rattle.hinted_chunks.specs.tree_clock.Lists.{Has, IsAscending};

use crate::places::{Place, find, locate, next_of};
use crate::stores::{Store, put, take_out};
use hinted_chunks::{Below, Chunk, Keyed, Order};

/// Whether an ascending list has the element.
pub(crate) fn has_in<T: Keyed + Drop, O: Order<T>>(store: &Store<T>, order: &O, element: &T) -> bool
    requires is { IsStore T.key store.now }
    requires ascending { IsAscending (O.order order.now) (elements_in store.now) }
    ensures { IsTrue result ↔ Has (elements_in store.now) element.now }
{
    match find(store, &Below { order, element }) {
        Some(place) => is_at(&store.chunks, place, order, element),
        None => false,
    }
}

// Whether the element is the one at its place.
fn is_at<T: Keyed + Drop, O: Order<T>>(
    chunks: &[Chunk<T>],
    place: Place,
    order: &O,
    element: &T,
) -> bool
    requires ascending { IsAscending (O.order order.now) (joined_chunks chunks.now) }
    requires element { IsElement chunks.now place.chunk place.at }
    requires divides { Divides (λ x. is_lt (O.order order.now x element.now)) chunks.now place.chunk place.at }
    ensures { IsTrue result ↔ Has (joined_chunks chunks.now) element.now }
{
    let other = &chunks[place.chunk].as_slice()[place.at];
    order.compare(other, element).is_eq()
}

/// Puts an element into an ascending list, unless it is there. It takes no memory.
pub(crate) fn insert_in<T: Keyed + Drop, O: Order<T>>(store: &mut Store<T>, order: &O, element: T)
    requires is { IsStore T.key store.old }
    requires room { 0 < room_in store.old }
    requires ascending { IsAscending (O.order order.now) (elements_in store.old) }
    ensures is { IsStore T.key store.new }
    ensures ascending { IsAscending (O.order order.now) (elements_in store.new) }
    ensures members { (other : T) → Has (elements_in store.new) other
        ↔ (Has (elements_in store.old) other ⊎ (other ≡ element)) }
    ensures room { room_in store.old ≤ room_in store.new + 1 }
{
    let bound = Below {
        order,
        element: &element,
    };
    let place = locate(store, &bound);
    if has_behind(&store.chunks, place, order, &element) {
        return;
    }
    put(store, place, element);
}

// Whether the element is right behind its place.
fn has_behind<T: Keyed + Drop, O: Order<T>>(
    chunks: &[Chunk<T>],
    place: Place,
    order: &O,
    element: &T,
) -> bool
    requires sized { AreSized chunks.now }
    requires ascending { IsAscending (O.order order.now) (joined_chunks chunks.now) }
    requires chunk { place.chunk < max 1 (length chunks.now) }
    requires at { place.at ≤ length (chunk_at chunks.now place.chunk) }
    requires divides { Divides (λ x. is_lt (O.order order.now x element.now)) chunks.now place.chunk place.at }
    ensures { IsTrue result ↔ Has (joined_chunks chunks.now) element.now }
{
    match next_of(chunks, place) {
        Some(next) => is_at(chunks, next, order, element),
        None => false,
    }
}

/// Takes an element out of an ascending list, if it is there. It takes no memory.
pub(crate) fn remove_in<T: Keyed + Drop, O: Order<T>>(store: &mut Store<T>, order: &O, element: &T)
    requires is { IsStore T.key store.old }
    requires ascending { IsAscending (O.order order.now) (elements_in store.old) }
    ensures is { IsStore T.key store.new }
    ensures ascending { IsAscending (O.order order.now) (elements_in store.new) }
    ensures members { (other : T) → Has (elements_in store.new) other
        ↔ (Has (elements_in store.old) other × ¬ (other ≡ element.now)) }
    ensures room { room_in store.old ≤ room_in store.new }
{
    if let Some(place) = find(store, &Below { order, element }) {
        if is_at(&store.chunks, place, order, element) {
            take_out(store, place);
        }
    }
}
