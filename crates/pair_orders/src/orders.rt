//! An order of pairs.
ghost use Rattle.std.specs.Prelude.{◌≡◌, ◌<◌, ◌≤◌, ◌+◌, ◌-◌, ◌↔◌, map, length, take, drop, IfOk, OnOk, IsTrue};
ghost use Rattle.std.specs.List.{slice_index_or};
ghost use Rattle.pair_orders.specs.Keys.{key_by, keys_by, slot_pairs, ranked_places, wanted_then, places_cmp, LeadsByTerms};
ghost use Rattle.pair_orders.specs.Orders.{IsOrder};
ghost use Rattle.pair_orders.specs.PairEntries.{StandOnce, StandTogether, entries_of};
ghost use Rattle.pair_orders.specs.TripleEntries.{IsRepeated, key_terms};
ghost use Rattle.pair_orders.specs.declared.keys.Key.{Key};
ghost use Rattle.pair_orders.specs.declared.keys.TermNumbers.{TermNumbers};
ghost use Rattle.tree_clock.specs.Lists.{Has};

use crate::fronts::BeforeFront;
use crate::keys::{Places, RankedKey, Shape, TermNumbers};
use crate::lends::add_pair;
use crate::steps::Steps;
use chunked_list::Chunked;
use mld_ops::PairRow;
use std::alloc::{AllocError, Global};
use std::cmp::Ordering;
use std::marker::Model;
use std::sync::ledger::Ledger;

/// An order of pairs. It shows them by three calls alone, and all count their steps.
#[derive(Drop)]
pub struct KeyOrder<'a> {
    shape: Shape,
    keys: &'a Chunked<RankedKey>,
    slots: &'a [Option<PairRow>],
}

impl<'a> Model for KeyOrder<'a> {
    ghost use Rattle.pair_orders.specs.Keys.{keys_by};
    ghost use Rattle.pair_orders.specs.Orders.{OrderValue, IsOrder};

    ghost Value = { OrderValue };

    ghost view = { λ order. record { shape = order.shape; keys = keys_by order.shape order.keys.now.elements; slots = order.slots.now } };

    ghost invariant = { λ order. IsOrder order.shape (keys_by order.shape order.keys.now.elements) order.slots.now };
}

/// The order that keys have, of which the pairs stand in slots.
pub(crate) fn order_of<'a>(
    shape: Shape,
    keys: &'a Chunked<RankedKey>,
    slots: &'a [Option<PairRow>],
) -> KeyOrder<'a>
    requires { IsOrder shape (keys_by shape keys.now.elements) slots.now }
    ensures { result ≡ record { shape = shape; keys = keys_by shape keys.now.elements; slots = slots.now } }
{
    KeyOrder { shape, keys, slots }
}

impl<'a> KeyOrder<'a> {
    /// The number of keys, which ascend and have pairs in their slots.
    pub fn len(&self) -> usize
        ensures len { result ≡ length self.now.keys }
        ensures order { IsOrder self.now.shape self.now.keys self.now.slots }
    {
        self.keys.len()
    }

    /// Where the first key that has the wanted places would stand. It shows no key, and is trusted for nothing: it goes by hints, and
    /// looks at keys themselves where these are alike.
    pub fn guess(&self, wanted: &Places) -> usize
        ensures { result ≤ length self.now.keys }
    {
        let front = least_front(self.shape, wanted);
        self.keys.count_before(&BeforeFront { front: &front })
    }

    /// How wanted places compare with the key at a place. It is one step.
    pub fn compare<L: Ledger>(&self, at: usize, wanted: &Places, steps: &mut Steps<L>) -> Ordering
        requires { at < length self.now.keys }
        ensures order { (none : Key) → result ≡ places_cmp self.now.shape wanted.now (slice_index_or self.now.keys at none) }
        ensures step { steps.new ≡ steps.old + 1 }
    {
        steps.tick();
        compare_places(self.shape, wanted, self.keys.at(at))
    }

    /// The pairs from one place to before another, in order. Each is a step.
    pub fn between<L: Ledger>(
        &self,
        alloc: Global,
        from: usize,
        to: usize,
        steps: &mut Steps<L>,
    ) -> Result<Vec<&'a PairRow>, AllocError>
        requires from { from ≤ to }
        requires to { to ≤ length self.now.keys }
        ensures pairs { IfOk result (λ found. map (λ x. x.now) found.items
            ≡ map (λ entry. entry.1) (entries_of self.now.slots (take (to - from) (drop from self.now.keys)))) }
        ensures step { OnOk result (steps.new ≡ steps.old + (to - from)) }
        ensures most { steps.new ≤ steps.old + (to - from) }
    {
        let keys = self.keys.from_to(alloc, from, to)?;
        lend_pairs(alloc, self.slots, &keys, steps)
    }

    /// The numbers of the terms of the keys from one place to before another, without those of the key in front where
    /// they are the same. Each key is a step.
    pub fn triples_between<L: Ledger>(
        &self,
        alloc: Global,
        from: usize,
        to: usize,
        steps: &mut Steps<L>,
    ) -> Result<Vec<TermNumbers>, AllocError>
        requires from { from ≤ to }
        requires to { to ≤ length self.now.keys }
        ensures members { IfOk result (λ found. (terms : TermNumbers) → Has found.items terms
            ↔ Has (map key_terms (take (to - from) (drop from self.now.keys))) terms) }
        ensures once { LeadsByTerms self.now.shape → IfOk result (λ found. StandOnce found.items) }
        ensures step { OnOk result (steps.new ≡ steps.old + (to - from)) }
        ensures most { steps.new ≤ steps.old + (to - from) }
    {
        let lent = self.keys.from_to(alloc, from, to)?;
        terms_of(alloc, self.shape, &lent, steps)
    }
}

// The wanted places in the row of an order; none by dot.
fn places_in(shape: Shape, wanted: &Places) -> (Option<u64>, Option<u64>, Option<u64>)
    ensures { result ≡ ranked_places shape wanted.now }
{
    let Places { s, p, o } = *wanted;
    match shape {
        Shape::Dot => (None, None, None),
        Shape::Subject => (s, p, o),
        Shape::Predicate => (p, o, s),
        Shape::Object => (o, s, p),
    }
}

// The least numbers with which a key that has the wanted places may begin.
fn least_front(shape: Shape, wanted: &Places) -> [u32; 3] {
    let places = places_in(shape, wanted);
    [
        least_number(places.0),
        least_number(places.1),
        least_number(places.2),
    ]
}

// The wanted number, as far as a key has room for it; 0 where none is wanted.
fn least_number(wanted: Option<u64>) -> u32 {
    match wanted {
        Some(number) => number.min(u64::from(u32::MAX)) as u32,
        None => 0,
    }
}

// How wanted places compare with a key, as far as they are wanted from the front.
fn compare_places(shape: Shape, wanted: &Places, key: &RankedKey) -> Ordering
    ensures { result ≡ places_cmp shape wanted.now (key_by shape key.now) }
{
    let places = places_in(shape, wanted);
    let third = compare_wanted(places.2, key.third, Ordering::Equal);
    let second = compare_wanted(places.1, key.second, third);
    compare_wanted(places.0, key.first, second)
}

// How a wanted number compares with that of a key, and then the next ones do. Where none is wanted all are alike.
fn compare_wanted(wanted: Option<u64>, number: u32, next: Ordering) -> Ordering
    ensures { result ≡ wanted_then wanted number next }
{
    match wanted {
        Some(wanted) => wanted.cmp(&u64::from(number)).then(next),
        None => Ordering::Equal,
    }
}

// The pairs of keys. Each is a step.
fn lend_pairs<'a, L: Ledger>(
    alloc: Global,
    slots: &'a [Option<PairRow>],
    keys: &[&RankedKey],
    steps: &mut Steps<L>,
) -> Result<Vec<&'a PairRow>, AllocError>
    ensures pairs { IfOk result (λ found. map (λ x. x.now) found.items ≡ slot_pairs slots.now (map (λ key. key.now.slot) keys.now)) }
    ensures step { OnOk result (steps.new ≡ steps.old + length keys.now) }
    ensures most { steps.new ≤ steps.old + length keys.now }
{
    let mut found = Vec::with_capacity(alloc, keys.len())?;
    for key in keys {
        steps.tick();
        add_pair(&mut found, slots, key.slot)?;
    }
    Ok(found)
}

// The numbers of the terms of keys, without those that are the same as of the key in front. Each key is a step.
fn terms_of<L: Ledger>(
    alloc: Global,
    shape: Shape,
    keys: &[&RankedKey],
    steps: &mut Steps<L>,
) -> Result<Vec<TermNumbers>, AllocError>
    ensures members { IfOk result (λ found. (terms : TermNumbers) → Has found.items terms
        ↔ Has (map (λ key. key_terms (key_by shape key.now)) keys.now) terms) }
    ensures once { IfOk result (λ found. StandTogether (λ key. key_terms (key_by shape key.now)) keys.now → StandOnce found.items) }
    ensures step { OnOk result (steps.new ≡ steps.old + length keys.now) }
    ensures most { steps.new ≤ steps.old + length keys.now }
{
    let mut found = Vec::with_capacity(alloc, keys.len())?;
    for i in 0..keys.len() {
        steps.tick();
        if is_repeated(shape, keys, i) {
            continue;
        }
        found.push(keys[i].terms(shape))?;
    }
    Ok(found)
}

// Whether the key at a place has the terms of the one in front of it.
fn is_repeated(shape: Shape, keys: &[&RankedKey], at: usize) -> bool
    requires { at < length keys.now }
    ensures { IsTrue result ↔ IsRepeated (λ key. key_terms (key_by shape key.now)) keys.now at }
{
    at > 0 && keys[at].terms(shape) == keys[at - 1].terms(shape)
}
