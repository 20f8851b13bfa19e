//! A search by halves in an order of pairs.
ghost use Rattle.std.specs.Prelude.{◌≡◌, ◌<◌, ◌≤◌, ◌+◌, ◌-◌, ◌*◌, true, false, not, map, length, IfOk, IsTrue};
ghost use Rattle.std.specs.List.{AllWithin, slice_index_or};
ghost use Rattle.pair_orders.specs.Keys.{LeadsIn, LeadsByTerms, has_places};
ghost use Rattle.pair_orders.specs.Orders.{IsOrder, IsDividedAt, IsSpan, binary_digits, entries_with, is_before_places, is_up_to_places};
ghost use Rattle.pair_orders.specs.PairEntries.{StandOnce, entries_of};
ghost use Rattle.pair_orders.specs.TripleEntries.{AreTriplesOf};
ghost use Rattle.pair_orders.specs.declared.keys.Key.{Key};

use crate::keys::{Places, TermNumbers};
use crate::orders::KeyOrder;
use crate::steps::Steps;
use mld_ops::PairRow;
use std::alloc::{AllocError, Global};
use std::cmp::Ordering;
use std::sync::ledger::Ledger;

/// The pairs that have the wanted places, which lead in the order.
pub fn search<'a, L: Ledger>(
    alloc: Global,
    order: &KeyOrder<'a>,
    wanted: &Places,
    steps: &mut Steps<L>,
) -> Result<Vec<&'a PairRow>, AllocError>
    requires { LeadsIn order.now.shape wanted.now }
    ensures found { IfOk result (λ found. map (λ x. x.now) found.items
        ≡ map (λ entry. entry.1) (entries_with wanted.now (entries_of order.now.slots order.now.keys))) }
    ensures bound { steps.new ≤ steps.old + 2 * binary_digits (length order.now.keys)
        + length (entries_with wanted.now (entries_of order.now.slots order.now.keys)) + 2 }
{
    let span = find_span(order, wanted, steps);
    order.between(alloc, span.from, span.to, steps)
}

/// The triples of the pairs that have the wanted places, which lead in the order, by the numbers of their terms.
pub fn search_triples<L: Ledger>(
    alloc: Global,
    order: &KeyOrder<'_>,
    wanted: &Places,
    steps: &mut Steps<L>,
) -> Result<Vec<TermNumbers>, AllocError>
    requires { LeadsIn order.now.shape wanted.now }
    ensures members { IfOk result
        (λ found. AreTriplesOf (has_places wanted.now) (entries_of order.now.slots order.now.keys) found.items) }
    ensures once { LeadsByTerms order.now.shape → IfOk result (λ found. StandOnce found.items) }
    ensures bound { steps.new ≤ steps.old + 2 * binary_digits (length order.now.keys)
        + length (entries_with wanted.now (entries_of order.now.slots order.now.keys)) + 2 }
{
    let span = find_span(order, wanted, steps);
    order.triples_between(alloc, span.from, span.to, steps)
}

/// Two places among the keys of an order.
#[derive(Clone, Copy)]
pub(crate) struct Span {
    pub(crate) from: usize,
    pub(crate) to: usize,
}

// The places between which the keys with the wanted places stand. A guess is looked at first, and the key in front of it: mostly it
// is right, and what is left to be found is the end.
fn find_span<L: Ledger>(order: &KeyOrder<'_>, wanted: &Places, steps: &mut Steps<L>) -> Span
    ensures order { IsOrder order.now.shape order.now.keys order.now.slots }
    ensures is { IsSpan order.now.shape wanted.now order.now.keys result.from result.to }
    ensures bound { steps.new ≤ steps.old + 2 * binary_digits (length order.now.keys) + 2 }
{
    // That of an order tells that its keys ascend, and how many there may be.
    let _ = order.len();
    let guess = order.guess(wanted);
    if is_begun(order, wanted, guess, steps) {
        return span_from(order, wanted, guess, steps);
    }
    span_within(order, wanted, 0, guess - 1, steps)
}

// Whether the keys in front of a place are in front of those with the wanted places: none is there, or the last of them is.
fn is_begun<L: Ledger>(
    order: &KeyOrder<'_>,
    wanted: &Places,
    at: usize,
    steps: &mut Steps<L>,
) -> bool
    requires { at ≤ length order.now.keys }
    ensures front { IsTrue result → AllWithin (λ key. is_before_places order.now.shape wanted.now key ≡ true) order.now.keys 0 at }
    ensures there { IsTrue (not result) → 0 < at }
    ensures back { IsTrue (not result)
        → AllWithin (λ key. is_before_places order.now.shape wanted.now key ≡ false) order.now.keys (at - 1) (length order.now.keys) }
    ensures bound { steps.new ≤ steps.old + 1 }
{
    // That of an order tells that its keys ascend.
    let _ = order.len();
    at == 0 || order.compare(at - 1, wanted, steps).is_gt()
}

// Those places, where the keys in front of a place are in front of those with the wanted ones.
fn span_from<L: Ledger>(
    order: &KeyOrder<'_>,
    wanted: &Places,
    at: usize,
    steps: &mut Steps<L>,
) -> Span
    requires end { at ≤ length order.now.keys }
    requires front { AllWithin (λ key. is_before_places order.now.shape wanted.now key ≡ true) order.now.keys 0 at }
    ensures is { IsSpan order.now.shape wanted.now order.now.keys result.from result.to }
    ensures bound { steps.new ≤ steps.old + 2 * binary_digits (length order.now.keys) + 1 }
{
    let count = order.len();
    if at == count {
        return Span { from: at, to: at };
    }
    match order.compare(at, wanted, steps) {
        Ordering::Less => Span { from: at, to: at },
        Ordering::Equal => Span {
            from: at,
            to: behind_next(order, wanted, at + 1, steps),
        },
        Ordering::Greater => span_within(order, wanted, at + 1, count, steps),
    }
}

// Those places by halves, where the first is one of a range.
fn span_within<L: Ledger>(
    order: &KeyOrder<'_>,
    wanted: &Places,
    low: usize,
    high: usize,
    steps: &mut Steps<L>,
) -> Span
    requires order { low ≤ high }
    requires end { high ≤ length order.now.keys }
    requires front { AllWithin (λ key. is_before_places order.now.shape wanted.now key ≡ true) order.now.keys 0 low }
    requires back { AllWithin (λ key. is_before_places order.now.shape wanted.now key ≡ false) order.now.keys high (length order.now.keys) }
    ensures is { IsSpan order.now.shape wanted.now order.now.keys result.from result.to }
    ensures bound { steps.new ≤ steps.old + 2 * binary_digits (length order.now.keys) }
{
    let from = first_within(order, wanted, low, high, steps);
    let to = behind_by_halves(order, wanted, from, steps);
    Span { from, to }
}

// The place of the first key in a range that isn't in front of those that have the wanted places.
fn first_within<L: Ledger>(
    order: &KeyOrder<'_>,
    wanted: &Places,
    from: usize,
    to: usize,
    steps: &mut Steps<L>,
) -> usize
    requires order { from ≤ to }
    requires end { to ≤ length order.now.keys }
    requires front { AllWithin (λ key. is_before_places order.now.shape wanted.now key ≡ true) order.now.keys 0 from }
    requires back { AllWithin (λ key. is_before_places order.now.shape wanted.now key ≡ false) order.now.keys to (length order.now.keys) }
    ensures end { result ≤ length order.now.keys }
    ensures place { IsDividedAt (is_before_places order.now.shape wanted.now) order.now.keys result }
    ensures bound { steps.new ≤ steps.old + binary_digits (length order.now.keys) }
{
    // That of an order tells that its keys ascend.
    let _ = order.len();
    let mut low = from;
    let mut high = to;
    while low < high {
        let middle = low + (high - low) / 2;
        if order.compare(middle, wanted, steps).is_gt() {
            low = middle + 1;
        } else {
            high = middle;
        }
    }
    low
}

// The place of the first key behind those that have the wanted places, of which one is in front of a place. Most searches find one
// pair, so that place is looked at by itself.
fn behind_next<L: Ledger>(
    order: &KeyOrder<'_>,
    wanted: &Places,
    next: usize,
    steps: &mut Steps<L>,
) -> usize
    requires end { next ≤ length order.now.keys }
    requires front { AllWithin (λ key. is_up_to_places order.now.shape wanted.now key ≡ true) order.now.keys 0 next }
    ensures from { next ≤ result }
    ensures end { result ≤ length order.now.keys }
    ensures place { IsDividedAt (is_up_to_places order.now.shape wanted.now) order.now.keys result }
    ensures bound { steps.new ≤ steps.old + binary_digits (length order.now.keys) + 1 }
{
    // That of an order tells that its keys ascend.
    let _ = order.len();
    if is_behind(order, wanted, next, steps) {
        return next;
    }
    behind_by_halves(order, wanted, next + 1, steps)
}

// Whether a place is the end, or its key is behind those that have the wanted places.
fn is_behind<L: Ledger>(
    order: &KeyOrder<'_>,
    wanted: &Places,
    at: usize,
    steps: &mut Steps<L>,
) -> bool
    requires { at ≤ length order.now.keys }
    ensures behind { IsTrue result → at < length order.now.keys
        → (none : Key) → is_up_to_places order.now.shape wanted.now (slice_index_or order.now.keys at none) ≡ false }
    ensures there { IsTrue (not result) → at < length order.now.keys }
    ensures before { IsTrue (not result)
        → (none : Key) → is_up_to_places order.now.shape wanted.now (slice_index_or order.now.keys at none) ≡ true }
    ensures bound { steps.new ≤ steps.old + 1 }
{
    if at == order.len() {
        return true;
    }
    order.compare(at, wanted, steps).is_lt()
}

// The place of the first key behind those that have the wanted places, by halves, where those up to a place aren't.
fn behind_by_halves<L: Ledger>(
    order: &KeyOrder<'_>,
    wanted: &Places,
    from: usize,
    steps: &mut Steps<L>,
) -> usize
    requires end { from ≤ length order.now.keys }
    requires front { AllWithin (λ key. is_up_to_places order.now.shape wanted.now key ≡ true) order.now.keys 0 from }
    ensures from { from ≤ result }
    ensures end { result ≤ length order.now.keys }
    ensures place { IsDividedAt (is_up_to_places order.now.shape wanted.now) order.now.keys result }
    ensures bound { steps.new ≤ steps.old + binary_digits (length order.now.keys) }
{
    let mut low = from;
    let mut high = order.len();
    while low < high {
        let middle = low + (high - low) / 2;
        if order.compare(middle, wanted, steps).is_ge() {
            low = middle + 1;
        } else {
            high = middle;
        }
    }
    low
}
