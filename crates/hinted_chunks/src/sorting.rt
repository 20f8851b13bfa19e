//! Lists sorted by hints, so that a comparison seldom looks at an element itself.
ghost use Rattle.std.specs.Prelude.{◌≡◌, ◌≤◌, ℕ, List, [], ◌∷◌, OnOk, OnErr, map, reverse, take, drop, vec_len, vec_capacity};
ghost use Rattle.std.specs.Cmp.{IsTotalOrder};
ghost use Rattle.std.specs.Cmp.Lexicographic.{slice_cmp};
ghost use Rattle.std.specs.List.{All};
ghost use Rattle.std.specs.List.Sorted.{IsPermutation, IsSorted};
ghost use Rattle.std.specs.Ordering.{nat_cmp};
ghost use Rattle.std.specs.declared.cmp.Ordering.{Ordering as OrderingValue};
ghost use Rattle.std.specs.declared.cmp.Ordering.TheVariants.{Equal};
ghost use Rattle.hinted_chunks.specs.Hinted.{ShareText, hint_of};
ghost use Rattle.hinted_chunks.specs.HintedOrder.{AreHintedFrom, hinted_cmp};
ghost use Rattle.hinted_chunks.specs.Leading.{leading};

use std::alloc::{AllocError, Global};
use std::cmp::Ordering;

/// A total order of elements, which have texts in it: what these say of two elements, the order says too. It may stand on data.
pub trait TextOrder<T> {
    /// How two elements compare.
    ghost order: { Self → T → T → OrderingValue };

    /// The text of an element.
    ghost text: { Self → T → List ℕ };

    /// How two elements compare.
    fn compare(&self, a: &T, b: &T) -> Ordering
        ensures { result ≡ order self.now a.now b.now };

    /// A number of bytes that the texts of two share from their starts.
    fn shared(&self, a: &T, b: &T) -> usize
        ensures { take result (text self.now a.now) ≡ take result (text self.now b.now) };

    /// The first eight bytes of an element's text from a place on, as a number.
    fn hint(&self, element: &T, place: usize) -> u64
        ensures { result ≡ leading 8 (drop place (text self.now element.now)) };

    /// The order is total.
    ghost total: { (o : Self) → IsTotalOrder (order o) };

    /// What their texts say of two elements, the order says too.
    ghost by_text: { (o : Self) (a b : T) (r : OrderingValue) → ¬ (r ≡ Equal) → slice_cmp nat_cmp (text o a) (text o b) ≡ r → order o a b ≡ r };
}

// As many elements beside the first are looked at to guess what all share.
const SAMPLES: usize = 16;

/// Sorts elements. Where memory is wanting they are as they were.
pub fn sort_by_hints<T: Drop, O: TextOrder<T>>(
    alloc: Global,
    order: &O,
    elements: &mut Vec<T>,
) -> Result<(), AllocError>
    ensures same { IsPermutation elements.old.items elements.new.items }
    ensures sorted { OnOk result (IsSorted (O.order order.now) elements.new.items) }
    ensures kept { OnErr result (elements.new.items ≡ elements.old.items) }
{
    let mut hinted = Vec::with_capacity(alloc, elements.len())?;
    take_hints(order, elements, &mut hinted);
    sort_hinted(order, &mut hinted);
    put_back(&mut hinted, elements);
    Ok(())
}

// Moves elements to an empty list with room, each with its hint. Each is looked at once, where the guess of what all share is right;
// else the hints are taken again.
fn take_hints<T: Drop, O: TextOrder<T>>(
    order: &O,
    elements: &mut Vec<T>,
    hinted: &mut Vec<(u64, T)>,
)
    requires empty { hinted.old.items ≡ [] }
    requires room { vec_len elements.old ≤ vec_capacity hinted.old }
    ensures same { IsPermutation elements.old.items (map (λ pair. pair.1) hinted.new.items) }
    ensures hinted { (mark : ℕ) × AreHintedFrom (O.text order.now) mark hinted.new.items }
    ensures gone { elements.new.items ≡ [] }
    ensures room { vec_len hinted.new ≤ vec_capacity elements.new }
{
    let guess = shared_by_some(order, elements);
    let shared = put_hints(order, guess, elements, hinted);
    if guess <= shared {
        return;
    }
    put_back(hinted, elements);
    let _shared = put_hints(order, shared, elements, hinted);
}

// As many bytes as the first element shares with each of a few, which is no less than all share.
fn shared_by_some<T, O: TextOrder<T>>(order: &O, elements: &[T]) -> usize {
    let mut shared = usize::MAX;
    let Some(first) = elements.first() else {
        return shared;
    };
    let step = elements.len() / SAMPLES + 1;
    let mut place = step;
    for _ in 0..SAMPLES {
        let Some(other) = elements.get(place) else {
            return shared;
        };
        shared = shared.min(order.shared(first, other));
        place = place.saturating_add(step);
    }
    shared
}

// Moves elements to an empty list with room, each with its hint from the mark on, the last one first. It tells a number of bytes that
// the texts of all share from their starts.
fn put_hints<T: Drop, O: TextOrder<T>>(
    order: &O,
    mark: usize,
    elements: &mut Vec<T>,
    hinted: &mut Vec<(u64, T)>,
) -> usize
    requires empty { hinted.old.items ≡ [] }
    requires room { vec_len elements.old ≤ vec_capacity hinted.old }
    ensures moved { elements.old.items ≡ reverse (map (λ pair. pair.1) hinted.new.items) }
    ensures hints { All (λ pair. pair.0 ≡ hint_of (O.text order.now) mark pair.1) hinted.new.items }
    ensures shared { ShareText (O.text order.now) result (map (λ pair. pair.1) hinted.new.items) }
    ensures gone { elements.new.items ≡ [] }
    ensures room { vec_len hinted.new ≤ vec_capacity elements.new }
{
    let mut shared = usize::MAX;
    while let Some(element) = elements.pop() {
        shared = shared_with(order, hinted, &element, shared);
        hinted.push_reserved((order.hint(&element, mark), element));
    }
    shared
}

// A number of bytes that one element more shares, too, where some share so many. Of these it looks at the last, which was looked at
// just before.
fn shared_with<T, O: TextOrder<T>>(
    order: &O,
    hinted: &[(u64, T)],
    element: &T,
    shared: usize,
) -> usize
    requires { ShareText (O.text order.now) shared (map (λ pair. pair.1) hinted.now) }
    ensures { ShareText (O.text order.now) result (element.now ∷ map (λ pair. pair.1) hinted.now) }
{
    match hinted.last() {
        Some(last) => shared.min(order.shared(&last.1, element)),
        None => shared,
    }
}

// Sorts elements that have their hints beside them: by these first.
fn sort_hinted<T, O: TextOrder<T>>(order: &O, hinted: &mut Vec<(u64, T)>)
    ensures same { IsPermutation hinted.old.items hinted.new.items }
    ensures len { vec_len hinted.new ≡ vec_len hinted.old }
    ensures sorted { IsSorted (hinted_cmp (O.order order.now)) hinted.new.items }
{
    hinted.sort_unstable_by(|a, b| cmp_hinted(order, a, b));
}

// Compares two elements by their hints, then by the order.
fn cmp_hinted<T, O: TextOrder<T>>(order: &O, a: &(u64, T), b: &(u64, T)) -> Ordering
    ensures { result ≡ hinted_cmp (O.order order.now) a.now b.now }
{
    match a.0.cmp(&b.0) {
        Ordering::Less => Ordering::Less,
        Ordering::Equal => order.compare(&a.1, &b.1),
        Ordering::Greater => Ordering::Greater,
    }
}

// Moves elements back to an empty list with room, without their hints.
fn put_back<T: Drop>(hinted: &mut Vec<(u64, T)>, elements: &mut Vec<T>)
    requires empty { elements.old.items ≡ [] }
    requires room { vec_len hinted.old ≤ vec_capacity elements.old }
    ensures moved { elements.new.items ≡ map (λ pair. pair.1) hinted.old.items }
    ensures gone { hinted.new.items ≡ [] }
    ensures room { vec_len elements.new ≤ vec_capacity hinted.new }
{
    while let Some((_, element)) = hinted.pop() {
        elements.push_reserved(element);
    }
    elements.reverse();
}
