//! Ascending lists in chunks.
ghost use Rattle.std.specs.Prelude.{◌≡◌, ◌<◌, ◌≤◌, ◌+◌, ◌-◌, ◌⊎◌, ◌↔◌, ◌∷◌, [], true, false, length, map, take, drop, IsTrue, IfOk, OnOk};
ghost use Rattle.std.specs.List.{filter};
ghost use Rattle.std.specs.List.Sorted.{IsPartitionPoint};
ghost use Rattle.std.specs.Option.{option_copied};
ghost use Rattle.chunked_list.specs.Joined.{joined_chunks};
ghost use Rattle.chunked_list.specs.Parted.{IsParted, IsFirstOf, is_between};
ghost use Rattle.hinted_chunks.specs.tree_clock.Lists.{Has, IsAscending};

use crate::counted::{count_in, place_of, span_of};
use crate::places::find;
use crate::searches::{has_in, insert_in, remove_in};
use crate::spans::{between_in, filtered_in};
use crate::stores::{Store, build, empty, make_room};
use hinted_chunks::{Bound, Chunk, Keyed, Order, Test};
use std::alloc::{AllocError, Global};
use std::marker::Model;

/// A list in chunks. Contracts see its elements, and how many more can come in without memory, wherever they go.
#[derive(Drop)]
pub struct Chunked<T: Keyed> {
    store: Store<T>,
}

impl<T: Keyed> Model for Chunked<T> {
    ghost use Rattle.chunked_list.specs.Room.{ChunkedValue};
    ghost use Rattle.chunked_list.specs.Stores.{IsStore, elements_in, room_in};

    ghost Value = { ChunkedValue T };

    ghost view = { λ list. record { elements = elements_in list.store; room = room_in list.store } };

    ghost invariant = { λ list. IsStore T.key list.store };
}

impl<T: Keyed + Drop> Chunked<T> {
    /// The list with no element.
    pub fn new(alloc: Global) -> Chunked<T>
        ensures { result.elements ≡ [] }
    {
        Chunked {
            store: empty(alloc),
        }
    }

    /// A list of these elements, in this order.
    pub fn from_vec(alloc: Global, list: Vec<T>) -> Result<Chunked<T>, AllocError>
        ensures { IfOk result (λ made. made.elements ≡ list.items) }
    {
        Ok(Chunked {
            store: build(alloc, list)?,
        })
    }

    /// The number of elements.
    pub fn len(&self) -> usize
        ensures { result ≡ length self.now.elements }
    {
        self.store.count
    }

    /// The chunks, in order.
    pub fn chunks(&self) -> &[Chunk<T>]
        ensures { joined_chunks result.now ≡ self.now.elements }
    {
        self.store.chunks.as_slice()
    }

    /// The element before which so many stand.
    pub fn at(&self, place: usize) -> &T
        requires { place < length self.now.elements }
        ensures { drop place self.now.elements ≡ result.now ∷ drop (place + 1) self.now.elements }
    {
        let place = place_of(&self.store, place);
        &self.store.chunks[place.chunk].as_slice()[place.at]
    }

    /// The elements from one place to before another, in order. It looks at no others but those of the chunk where they begin.
    pub fn from_to(&self, alloc: Global, from: usize, to: usize) -> Result<Vec<&T>, AllocError>
        requires from { from ≤ to }
        requires to { to ≤ length self.now.elements }
        ensures { IfOk result (λ found. map (λ x. x.now) found.items ≡ take (to - from) (drop from self.now.elements)) }
    {
        span_of(alloc, &self.store, from, to)
    }

    /// How many elements are before the bound.
    pub fn count_before<B: Bound<T>>(&self, bound: &B) -> usize
        requires { IsParted (B.before bound.now) self.now.elements }
        ensures end { result ≤ length self.now.elements }
        ensures place { IsPartitionPoint (λ x. B.before bound.now x ≡ true) (λ x. B.before bound.now x ≡ false)
            self.now.elements result }
    {
        count_in(&self.store, bound)
    }

    /// The first element that isn't before the bound.
    pub fn first_from<B: Bound<T>>(&self, bound: &B) -> Option<&T>
        requires { IsParted (B.before bound.now) self.now.elements }
        ensures { IsFirstOf (B.before bound.now) self.now.elements (option_copied result) }
    {
        let place = find(&self.store, bound)?;
        Some(&self.store.chunks[place.chunk].as_slice()[place.at])
    }

    /// The elements that aren't before the first bound, and are before the second, in order. It looks at no others but those
    /// that a search by halves meets.
    pub fn between<A: Bound<T>, B: Bound<T>>(
        &self,
        alloc: Global,
        first: &A,
        second: &B,
    ) -> Result<Vec<&T>, AllocError>
        requires first { IsParted (A.before first.now) self.now.elements }
        requires second { IsParted (B.before second.now) self.now.elements }
        ensures { IfOk result (λ found. map (λ x. x.now) found.items
            ≡ filter (is_between (A.before first.now) (B.before second.now)) self.now.elements) }
    {
        between_in(alloc, &self.store, first, second)
    }

    /// The elements that pass the test, wherever they stand, in order.
    pub fn find_all<P: Test<T>>(&self, alloc: Global, test: &P) -> Result<Vec<&T>, AllocError>
        ensures { IfOk result (λ found. map (λ x. x.now) found.items ≡ filter (P.passes test.now) self.now.elements) }
    {
        filtered_in(alloc, &self.store.chunks, test)
    }

    /// Whether an ascending list has the element.
    pub fn contains<O: Order<T>>(&self, order: &O, element: &T) -> bool
        requires { IsAscending (O.order order.now) self.now.elements }
        ensures { IsTrue result ↔ Has self.now.elements element.now }
    {
        has_in(&self.store, order, element)
    }

    /// Makes room for so many elements more.
    pub fn prepare(&mut self, alloc: Global, more: usize) -> Result<(), AllocError>
        ensures elements { self.new.elements ≡ self.old.elements }
        ensures room { self.old.room ≤ self.new.room }
        ensures ok { OnOk result (more ≤ self.new.room) }
    {
        make_room(alloc, &mut self.store, more)
    }

    /// Puts an element into an ascending list, unless it is there. It takes no memory.
    pub fn insert<O: Order<T>>(&mut self, order: &O, element: T)
        requires room { 0 < self.old.room }
        requires order { IsAscending (O.order order.now) self.old.elements }
        ensures ascending { IsAscending (O.order order.now) self.new.elements }
        ensures members { (other : T) → Has self.new.elements other
            ↔ (Has self.old.elements other ⊎ (other ≡ element)) }
        ensures room { self.old.room ≤ self.new.room + 1 }
    {
        insert_in(&mut self.store, order, element);
    }

    /// Takes an element out of an ascending list, if it is there. It takes no memory.
    pub fn remove<O: Order<T>>(&mut self, order: &O, element: &T)
        requires { IsAscending (O.order order.now) self.old.elements }
        ensures ascending { IsAscending (O.order order.now) self.new.elements }
        ensures members { (other : T) → Has self.new.elements other
            ↔ (Has self.old.elements other × ¬ (other ≡ element.now)) }
        ensures room { self.old.room ≤ self.new.room }
    {
        remove_in(&mut self.store, order, element);
    }
}
