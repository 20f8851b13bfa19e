//! The numbers of pairs, their keys, and the orders of these.
ghost use Rattle.std.specs.Prelude.{◌≡◌};
ghost use Rattle.std.specs.Ordering.{nat_cmp, ordering_then};
ghost use Rattle.pair_orders.specs.Keys.{slotted_key, ranked, ranked_cmp, key_by, three_cmp, LeadsIn, LeadsByTerms};
ghost use Rattle.pair_orders.specs.TripleEntries.{key_terms};

use chunked_list::{Keyed, Order, numbers_hint};
use std::cmp::Ordering;

/// The numbers of a pair: of its terms and of its path, and its tick.
#[derive(Clone, Copy, PartialEq, Eq)]
pub struct Numbers {
    /// Of the subject.
    pub s: u32,
    /// Of the predicate.
    pub p: u32,
    /// Of the object.
    pub o: u32,
    /// Of the path.
    pub path: u32,
    /// The tick.
    pub tick: u32,
}

/// The numbers of a triple's terms.
#[derive(Clone, Copy, PartialEq, Eq)]
pub struct TermNumbers {
    /// Of the subject.
    pub s: u32,
    /// Of the predicate.
    pub p: u32,
    /// Of the object.
    pub o: u32,
}

/// Wanted numbers of terms. A place that isn't wanted is none.
#[derive(Clone, Copy)]
pub struct Places {
    /// Of the subject.
    pub s: Option<u64>,
    /// Of the predicate.
    pub p: Option<u64>,
    /// Of the object.
    pub o: Option<u64>,
}

impl Places {
    /// The order in which the wanted places lead.
    pub fn shape(&self) -> Shape
        ensures leads { LeadsIn result self.now }
        ensures terms { LeadsByTerms result }
    {
        match (self.s, self.p, self.o) {
            (None, Some(_), _) => Shape::Predicate,
            (_, None, Some(_)) => Shape::Object,
            _ => Shape::Subject,
        }
    }
}

/// The key of a pair: its numbers, and its slot.
#[derive(Clone, Copy)]
pub struct Key {
    pub(crate) s: u32,
    pub(crate) p: u32,
    pub(crate) o: u32,
    pub(crate) path: u32,
    pub(crate) tick: u32,
    pub(crate) slot: u32,
}

impl Key {
    /// The key of a pair with these numbers.
    pub(crate) fn new(numbers: &Numbers, slot: u32) -> Key
        ensures { result ≡ slotted_key numbers.now slot }
    {
        Key {
            s: numbers.s,
            p: numbers.p,
            o: numbers.o,
            path: numbers.path,
            tick: numbers.tick,
            slot,
        }
    }

    /// The key as it stands in an order.
    pub(crate) fn ranked(&self, shape: Shape) -> RankedKey
        ensures { result ≡ ranked shape self.now }
    {
        let Key {
            s,
            p,
            o,
            path,
            tick,
            slot,
        } = *self;
        match shape {
            Shape::Dot => in_row((path, tick, s), (p, o, slot)),
            Shape::Subject => in_row((s, p, o), (path, tick, slot)),
            Shape::Predicate => in_row((p, o, s), (path, tick, slot)),
            Shape::Object => in_row((o, s, p), (path, tick, slot)),
        }
    }
}

/// A key as it stands in an order: its numbers from the one that leads to the last, which is the slot.
#[derive(Clone, Copy)]
pub struct RankedKey {
    pub(crate) first: u32,
    pub(crate) second: u32,
    pub(crate) third: u32,
    pub(crate) fourth: u32,
    pub(crate) fifth: u32,
    pub(crate) slot: u32,
}

// The key with its numbers in this row.
fn in_row(front: (u32, u32, u32), back: (u32, u32, u32)) -> RankedKey
    ensures { result ≡ record { first = front.0; second = front.1; third = front.2; fourth = back.0; fifth = back.1; slot = back.2 } }
{
    RankedKey {
        first: front.0,
        second: front.1,
        third: front.2,
        fourth: back.0,
        fifth: back.1,
        slot: back.2,
    }
}

impl RankedKey {
    /// The numbers of the terms of the pair's triple.
    pub(crate) fn terms(&self, shape: Shape) -> TermNumbers
        ensures { result ≡ key_terms (key_by shape self.now) }
    {
        let (s, p, o) = (self.first, self.second, self.third);
        match shape {
            Shape::Dot => TermNumbers {
                s: self.third,
                p: self.fourth,
                o: self.fifth,
            },
            Shape::Subject => TermNumbers { s, p, o },
            Shape::Predicate => TermNumbers { s: o, p: s, o: p },
            Shape::Object => TermNumbers { s: p, p: o, o: s },
        }
    }

    /// How the key compares with another of the same order.
    pub(crate) fn compare(&self, other: &RankedKey) -> Ordering
        ensures { result ≡ ranked_cmp self.now other.now }
    {
        then_three(
            compare_three(
                (self.first, self.second, self.third),
                (other.first, other.second, other.third),
            ),
            (self.fourth, self.fifth, self.slot),
            (other.fourth, other.fifth, other.slot),
        )
    }
}

// Its text is its first two numbers, so that a search by halves mostly compares hints.
impl Keyed for RankedKey {
    ghost use Rattle.pair_orders.specs.Keys.{ranked_text};

    ghost key = { ranked_text };

    // None, so that all hints are whole.
    fn shared(&self, _other: &RankedKey) -> usize {
        0
    }

    fn hint(&self, place: usize) -> u64 {
        numbers_hint(self.first, self.second, place)
    }
}

/// Which numbers lead in an order of keys, and in which row the others follow. The slot is always the last.
#[derive(Clone, Copy, PartialEq, Eq)]
pub enum Shape {
    /// The path, the tick, the subject, the predicate, the object.
    Dot,
    /// The subject, the predicate, the object, the path, the tick.
    Subject,
    /// The predicate, the object, the subject, the path, the tick.
    Predicate,
    /// The object, the subject, the predicate, the path, the tick.
    Object,
}

// How three numbers compare with three, up to the first that differ.
fn compare_three(a: (u32, u32, u32), b: (u32, u32, u32)) -> Ordering
    ensures { result ≡ three_cmp a b }
{
    then_number(then_number(a.0.cmp(&b.0), a.1, b.1), a.2, b.2)
}

// How what compares so in front compares with a number more.
fn then_number(front: Ordering, a: u32, b: u32) -> Ordering
    ensures { result ≡ ordering_then front (nat_cmp a b) }
{
    match front {
        Ordering::Less => Ordering::Less,
        Ordering::Equal => a.cmp(&b),
        Ordering::Greater => Ordering::Greater,
    }
}

// How what compares so in front compares with three numbers more.
fn then_three(front: Ordering, a: (u32, u32, u32), b: (u32, u32, u32)) -> Ordering
    ensures { result ≡ ordering_then front (three_cmp a b) }
{
    match front {
        Ordering::Less => Ordering::Less,
        Ordering::Equal => compare_three(a, b),
        Ordering::Greater => Ordering::Greater,
    }
}

/// The order of keys as they stand in one: by their numbers, from the first.
pub(crate) struct ByRanks;

impl Order<RankedKey> for ByRanks {
    ghost use Rattle.pair_orders.specs.Keys.{ranked_cmp, ranked_total, ranked_exact, ranked_by_text};

    ghost order = { λ _. ranked_cmp };

    ghost total = { λ _. ranked_total };

    ghost exact = { λ _. ranked_exact };

    ghost by_key = { λ _. ranked_by_text };

    fn compare(&self, a: &RankedKey, b: &RankedKey) -> Ordering {
        a.compare(b)
    }
}
