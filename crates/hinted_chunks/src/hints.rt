//! Hints: numbers that stand beside the elements of a list, so that a search by halves seldom looks at an element itself.
//!
//! Up to a mark the elements have one text. The hint of an element is what its text has from there on: its first
//! eight bytes, as a number. A lesser number is that of a lesser text.
ghost use Rattle.std.specs.Prelude.{◌≡◌, ◌<◌, ◌≤◌, ◌+◌, length, take, drop, IsTrue, vec_len, vec_capacity, true, false};
ghost use Rattle.std.specs.List.{insert, slice_index_or};
ghost use Rattle.std.specs.List.Sorted.{IsPartitionedBy, IsPartitionPoint};
ghost use Rattle.hinted_chunks.specs.Hinted.{IsHinted, ShareText};
ghost use Rattle.hinted_chunks.specs.Leading.{leading};
ghost use Rattle.tree_clock.specs.Lists.{Has};

use crate::bounds::{Bound, Keyed};

/// The hints of a list.
#[derive(Drop)]
pub struct Hints {
    /// As many bytes the elements share from the starts of their texts.
    pub mark: usize,
    /// The hints, in the order of the elements.
    pub numbers: Vec<u64>,
}

// Makes the hints anew, from a mark on. It takes no memory.
fn renew<T: Keyed>(hints: &mut Hints, elements: &[T], mark: usize)
    requires shared { ShareText T.key mark elements.now }
    requires room { length elements.now ≤ vec_capacity hints.old.numbers }
    ensures mark { hints.new.mark ≡ mark }
    ensures is { IsHinted T.key elements.now hints.new }
    ensures room { vec_capacity hints.new.numbers ≡ vec_capacity hints.old.numbers }
{
    hints.mark = mark;
    hints.numbers.clear();
    for element in elements {
        hints.numbers.push_reserved(element.hint(mark));
    }
}

/// Makes a hint for an element that comes in at a place. It takes no memory.
pub fn put_hint<T: Keyed>(hints: &mut Hints, elements: &[T], at: usize, element: &T)
    requires is { IsHinted T.key elements.now hints.old }
    requires place { at ≤ length elements.now }
    requires room { length elements.now < vec_capacity hints.old.numbers }
    ensures is { IsHinted T.key (insert elements.now at element.now) hints.new }
    ensures room { vec_capacity hints.old.numbers ≤ vec_capacity hints.new.numbers }
{
    lower(hints, elements, element);
    let hint = element.hint(hints.mark);
    put_in(&mut hints.numbers, at, hint);
}

// Lowers the mark to what the elements share with one more, so that it can come in.
fn lower<T: Keyed>(hints: &mut Hints, elements: &[T], element: &T)
    requires is { IsHinted T.key elements.now hints.old }
    requires room { length elements.now ≤ vec_capacity hints.old.numbers }
    ensures is { IsHinted T.key elements.now hints.new }
    ensures shared { (x : T) → Has elements.now x
        → take hints.new.mark (T.key x) ≡ take hints.new.mark (T.key element.now) }
    ensures room { vec_capacity hints.new.numbers ≡ vec_capacity hints.old.numbers }
{
    match elements.first() {
        Some(first) => lower_to(hints, elements, first.shared(element)),
        None => hints.mark = usize::MAX,
    }
}

/// Lowers the mark to so many bytes, where it is more.
pub fn lower_to<T: Keyed>(hints: &mut Hints, elements: &[T], shared: usize)
    requires is { IsHinted T.key elements.now hints.old }
    requires room { length elements.now ≤ vec_capacity hints.old.numbers }
    ensures is { IsHinted T.key elements.now hints.new }
    ensures mark { hints.new.mark ≤ shared }
    ensures room { vec_capacity hints.new.numbers ≡ vec_capacity hints.old.numbers }
{
    if shared < hints.mark {
        renew(hints, elements, shared);
    }
}

/// Raises the mark as far as it can be, where the hints don't tell the elements apart.
pub fn sharpen<T: Keyed>(hints: &mut Hints, elements: &[T])
    requires is { IsHinted T.key elements.now hints.old }
    requires room { length elements.now ≤ vec_capacity hints.old.numbers }
    ensures is { IsHinted T.key elements.now hints.new }
    ensures room { vec_capacity hints.new.numbers ≡ vec_capacity hints.old.numbers }
{
    if are_blunt(&hints.numbers) {
        let mark = shared_by(elements);
        renew(hints, elements, mark);
    }
}

// Whether the first hint is the last, too, and something stands behind the mark.
fn are_blunt(numbers: &[u64]) -> bool {
    match (numbers.first(), numbers.last()) {
        (Some(first), Some(last)) => first == last && *first != 0,
        _ => false,
    }
}

// As many bytes as the first element shares with each.
fn shared_by<T: Keyed>(elements: &[T]) -> usize
    ensures { ShareText T.key result elements.now }
{
    match elements.first() {
        Some(first) => shared_with(first, elements),
        None => 0,
    }
}

// As many bytes as one element shares with each of others.
fn shared_with<T: Keyed>(element: &T, others: &[T]) -> usize
    ensures { (x : T) → Has others.now x → take result (T.key element.now) ≡ take result (T.key x) }
{
    let mut shared = usize::MAX;
    for other in others {
        shared = shared.min(element.shared(other));
    }
    shared
}

/// How many elements are before the bound.
pub fn count_hinted<T: Keyed, B: Bound<T>>(hints: &Hints, elements: &[T], bound: &B) -> usize
    requires { IsHinted T.key elements.now hints.now }
    ensures bound { result ≤ length elements.now }
    ensures place { IsPartitionedBy (B.before bound.now) elements.now →
        IsPartitionPoint (λ x. B.before bound.now x ≡ true) (λ x. B.before bound.now x ≡ false) elements.now result }
{
    if shares(hints.mark, elements, bound) {
        return count_by_halves(hints, elements, bound);
    }
    elements.partition_point(|element| bound.is_before(element))
}

// Whether the bound's text is that of the elements up to the mark.
fn shares<T: Keyed, B: Bound<T>>(mark: usize, elements: &[T], bound: &B) -> bool
    requires { ShareText T.key mark elements.now }
    ensures { IsTrue result → (x : T) → Has elements.now x → take mark (T.key x) ≡ take mark (B.key bound.now) }
{
    match elements.first() {
        Some(first) => mark <= bound.shared(first),
        None => true,
    }
}

// How many elements are before the bound: the hints tell it, but for those that are the bound's.
fn count_by_halves<T: Keyed, B: Bound<T>>(hints: &Hints, elements: &[T], bound: &B) -> usize
    requires is { IsHinted T.key elements.now hints.now }
    requires shared { (x : T) → Has elements.now x
        → take hints.now.mark (T.key x) ≡ take hints.now.mark (B.key bound.now) }
    ensures bound { result ≤ length elements.now }
    ensures place { IsPartitionedBy (B.before bound.now) elements.now →
        IsPartitionPoint (λ x. B.before bound.now x ≡ true) (λ x. B.before bound.now x ≡ false) elements.now result }
{
    let wanted = bound.hint(hints.mark);
    let mut low = 0;
    let mut high = elements.len();
    while low < high {
        let middle = low + (high - low) / 2;
        if is_before_at(hints, elements, middle, wanted, bound) {
            low = middle + 1;
        } else {
            high = middle;
        }
    }
    low
}

// Whether the element at a place is before the bound, whose hint is given.
fn is_before_at<T: Keyed, B: Bound<T>>(
    hints: &Hints,
    elements: &[T],
    at: usize,
    wanted: u64,
    bound: &B,
) -> bool
    requires is { IsHinted T.key elements.now hints.now }
    requires shared { (x : T) → Has elements.now x
        → take hints.now.mark (T.key x) ≡ take hints.now.mark (B.key bound.now) }
    requires place { at < length elements.now }
    requires wanted { wanted ≡ leading 8 (drop hints.now.mark (B.key bound.now)) }
    ensures { (d : T) → result ≡ B.before bound.now (slice_index_or elements.now at d) }
{
    let hint = hints.numbers[at];
    if hint == wanted {
        return bound.is_before(&elements[at]);
    }
    hint < wanted
}

/// Puts an element at a place where there is room.
pub fn put_in<T: Drop>(elements: &mut Vec<T>, at: usize, element: T)
    requires room { vec_len elements.old < vec_capacity elements.old }
    requires place { at ≤ vec_len elements.old }
    ensures items { elements.new.items ≡ insert elements.old.items at element }
    ensures len { vec_len elements.new ≡ vec_len elements.old + 1 }
    ensures capacity { vec_capacity elements.old ≤ vec_capacity elements.new }
{
    let _ = elements.insert(at, element);
}
