//! The elements of a list in chunks: those between two bounds, and those that pass a test.
ghost use Rattle.std.specs.Prelude.{◌≡◌, ◌++◌, false, map, IfOk, OnOk};
ghost use Rattle.std.specs.List.{filter};
ghost use Rattle.chunked_list.specs.Joined.{joined_chunks, back_of};
ghost use Rattle.chunked_list.specs.Parted.{IsParted, IsElement, HasFailing, is_between};
ghost use Rattle.chunked_list.specs.Stores.{IsStore, elements_in};

use crate::places::{Place, find};
use crate::stores::Store;
use hinted_chunks::{Bound, Chunk, Keyed, Test};
use std::alloc::{AllocError, Global};

/// The elements that aren't before the first bound, and are before the second, in order.
pub(crate) fn between_in<'a, T: Keyed + Drop, A: Bound<T>, B: Bound<T>>(
    alloc: Global,
    store: &'a Store<T>,
    first: &A,
    second: &B,
) -> Result<Vec<&'a T>, AllocError>
    requires is { IsStore T.key store.now }
    requires first { IsParted (A.before first.now) (elements_in store.now) }
    requires second { IsParted (B.before second.now) (elements_in store.now) }
    ensures { IfOk result (λ found. map (λ x. x.now) found.items
        ≡ filter (is_between (A.before first.now) (B.before second.now)) (elements_in store.now)) }
{
    let mut found = Vec::new(alloc);
    if let Some(place) = find(store, first) {
        add_from(&mut found, &store.chunks, place, second)?;
    }
    Ok(found)
}

// Adds the elements from a place on, as long as they are before the bound.
fn add_from<'a, T: Keyed + Drop, B: Bound<T>>(
    found: &mut Vec<&'a T>,
    chunks: &'a [Chunk<T>],
    place: Place,
    bound: &B,
) -> Result<(), AllocError>
    requires element { IsElement chunks.now place.chunk place.at }
    requires parted { IsParted (B.before bound.now) (back_of chunks.now place.chunk place.at) }
    ensures { OnOk result (map (λ x. x.now) found.new.items
        ≡ map (λ x. x.now) found.old.items ++ filter (B.before bound.now) (back_of chunks.now place.chunk place.at)) }
{
    let rest = &chunks[place.chunk].as_slice()[place.at..];
    if add_elements(found, rest, bound)? {
        return add_chunks(found, &chunks[place.chunk + 1..], bound);
    }
    Ok(())
}

// Adds the elements of chunks, as long as they are before the bound.
fn add_chunks<'a, T: Keyed + Drop, B: Bound<T>>(
    found: &mut Vec<&'a T>,
    chunks: &'a [Chunk<T>],
    bound: &B,
) -> Result<(), AllocError>
    requires { IsParted (B.before bound.now) (joined_chunks chunks.now) }
    ensures { OnOk result (map (λ x. x.now) found.new.items
        ≡ map (λ x. x.now) found.old.items ++ filter (B.before bound.now) (joined_chunks chunks.now)) }
{
    for chunk in chunks {
        if !add_elements(found, chunk.as_slice(), bound)? {
            return Ok(());
        }
    }
    Ok(())
}

// Adds the elements, as long as they are before the bound, and tells whether all are.
fn add_elements<'a, T: Keyed + Drop, B: Bound<T>>(
    found: &mut Vec<&'a T>,
    elements: &'a [T],
    bound: &B,
) -> Result<bool, AllocError>
    requires { IsParted (B.before bound.now) elements.now }
    ensures items { OnOk result (map (λ x. x.now) found.new.items
        ≡ map (λ x. x.now) found.old.items ++ filter (B.before bound.now) elements.now) }
    ensures ended { IfOk result (λ all. all ≡ false → HasFailing (B.before bound.now) elements.now) }
{
    for element in elements {
        if !bound.is_before(element) {
            return Ok(false);
        }
        found.push(element)?;
    }
    Ok(true)
}

/// The elements that pass the test, in order.
pub(crate) fn filtered_in<'a, T: Keyed + Drop, P: Test<T>>(
    alloc: Global,
    chunks: &'a [Chunk<T>],
    test: &P,
) -> Result<Vec<&'a T>, AllocError>
    ensures { IfOk result
        (λ found. map (λ x. x.now) found.items ≡ filter (P.passes test.now) (joined_chunks chunks.now)) }
{
    let mut found = Vec::new(alloc);
    for chunk in chunks {
        add_filtered(&mut found, chunk.as_slice(), test)?;
    }
    Ok(found)
}

// Adds the elements that pass the test.
fn add_filtered<'a, T: Keyed + Drop, P: Test<T>>(
    found: &mut Vec<&'a T>,
    elements: &'a [T],
    test: &P,
) -> Result<(), AllocError>
    ensures { OnOk result (map (λ x. x.now) found.new.items
        ≡ map (λ x. x.now) found.old.items ++ filter (P.passes test.now) elements.now) }
{
    for element in elements {
        if test.passes(element) {
            found.push(element)?;
        }
    }
    Ok(())
}
