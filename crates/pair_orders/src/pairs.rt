//! Pairs by their numbers.
ghost use Rattle.std.specs.Prelude.{◌≡◌, ◌<◌, ◌≤◌, ◌+◌, ◌*◌, ◌⊎◌, ◌↔◌, [], length, map, IsTrue, IfOk, OnOk};
ghost use Rattle.std.specs.List.{filter};
ghost use Rattle.mld_ops.specs.declared.pair_lists.PairRow.{PairRow};
ghost use Rattle.tree_clock.specs.Lists.{Has};
ghost use Rattle.pair_orders.specs.Keys.{has_places};
ghost use Rattle.pair_orders.specs.Orders.{binary_digits, entries_with};
ghost use Rattle.pair_orders.specs.PairEntries.{FindsEntries, StandOnce, HasNumbers, HasTerms, entries_of, is_of_ticks};
ghost use Rattle.pair_orders.specs.TripleEntries.{FindsTriples};
ghost use Rattle.pair_orders.specs.declared.keys.Numbers.{Numbers};

use crate::building::{fill_slots, sort_lists};
use crate::changes::{insert_in, prepare_for, remove_in};
use crate::finds::{find_slot, has_terms};
use crate::fronts::{BeforeFront, BehindTwo};
use crate::keys::{Numbers, Places, Shape, TermNumbers};
use crate::lends::{lend_chunks, lend_found};
use crate::lists::{Lists, by_dot, keys_in, no_lists};
use crate::moving::{move_all, slots_by_dot};
use crate::orders::{KeyOrder, order_of};
use crate::searches::{search, search_triples};
use crate::slots::{Slots, no_slots};
use crate::steps::Steps;
use mld_ops::PairRow;
use std::alloc::{AllocError, Global};
use std::marker::Model;
use std::sync::ledger::Ledger;

/// Pairs by their numbers: each stands once, in a slot. Contracts see them by dot, and how many more can come in without memory.
#[derive(Drop)]
pub struct NumberedPairs {
    slots: Slots,
    lists: Lists,
}

impl Model for NumberedPairs {
    ghost use Rattle.pair_orders.specs.PairEntries.{PairsValue};
    ghost use Rattle.pair_orders.specs.KeptPairs.{IsPairs, pairs_value};

    ghost Value = { PairsValue };

    ghost view = { λ pairs. pairs_value pairs.slots pairs.lists };

    ghost invariant = { λ pairs. IsPairs pairs.slots pairs.lists };
}

impl NumberedPairs {
    /// No pair.
    pub fn new(alloc: Global) -> NumberedPairs
        ensures { result.pairs ≡ [] }
    {
        NumberedPairs {
            slots: no_slots(alloc),
            lists: no_lists(alloc),
        }
    }

    /// The pairs of a list in which no two have the same numbers, sorted once for each order.
    pub fn build(
        alloc: Global,
        entries: Vec<(Numbers, PairRow)>,
    ) -> Result<NumberedPairs, AllocError>
        requires { StandOnce (map (λ entry. entry.0) entries.items) }
        ensures { IfOk result (λ made. (entry : Numbers × PairRow) → Has made.pairs entry ↔ Has entries.items entry) }
    {
        let mut slots = no_slots(alloc);
        let keys = fill_slots(alloc, &mut slots, entries)?;
        let lists = sort_lists(alloc, keys.as_slice())?;
        Ok(NumberedPairs { slots, lists })
    }

    /// The number of pairs, of which no two have the same numbers.
    pub fn len(&self) -> usize
        ensures len { result ≡ length self.now.pairs }
        ensures once { StandOnce (map (λ entry. entry.0) self.now.pairs) }
    {
        by_dot(&self.lists).len()
    }

    /// Makes room for so many pairs more.
    pub fn prepare(&mut self, alloc: Global, more: usize) -> Result<(), AllocError>
        ensures pairs { self.new.pairs ≡ self.old.pairs }
        ensures ok { OnOk result (more ≤ self.new.room) }
        ensures kept { self.old.room ≤ self.new.room }
    {
        prepare_for(alloc, &mut self.slots, &mut self.lists, more)
    }

    /// Puts a pair in, unless one with these numbers is there. It takes no memory.
    pub fn insert(&mut self, numbers: Numbers, pair: PairRow)
        requires { 0 < self.old.room }
        ensures members { (other : Numbers × PairRow) → Has self.new.pairs other
            ↔ (Has self.old.pairs other ⊎ ((other ≡ (numbers, pair)) × ¬ HasNumbers self.old.pairs numbers)) }
        ensures room { self.old.room ≤ self.new.room + 1 }
    {
        insert_in(&mut self.slots, &mut self.lists, numbers, pair);
    }

    /// Takes out the pair with these numbers, if it is there. It takes no memory.
    pub fn remove(&mut self, numbers: &Numbers)
        ensures members { (other : Numbers × PairRow) → Has self.new.pairs other
            ↔ (Has self.old.pairs other × ¬ (other.0 ≡ numbers.now)) }
        ensures room { self.old.room ≤ self.new.room }
    {
        remove_in(&mut self.slots, &mut self.lists, numbers);
    }

    /// Whether a pair has these numbers.
    pub fn has(&self, numbers: &Numbers) -> bool
        ensures { IsTrue result ↔ HasNumbers self.now.pairs numbers.now }
    {
        find_slot(&self.lists, numbers).is_some()
    }

    /// Whether a pair has these numbers of terms.
    pub fn has_triple(&self, s: u32, p: u32, o: u32) -> bool
        ensures { IsTrue result ↔ HasTerms self.now.pairs s p o }
    {
        has_terms(&self.lists, s, p, o)
    }

    /// The pairs of a path whose ticks are from the first to the last, by tick.
    pub fn of_dots(
        &self,
        alloc: Global,
        path: u32,
        first: u32,
        last: u32,
    ) -> Result<Vec<&PairRow>, AllocError>
        ensures found { IfOk result (λ found. map (λ x. x.now) found.items
            ≡ map (λ entry. entry.1) (filter (λ entry. is_of_ticks path first last entry.0) self.now.pairs)) }
        ensures once { StandOnce (map (λ entry. entry.0) self.now.pairs) }
    {
        let low = BeforeFront {
            front: &[path, first],
        };
        let high = BehindTwo {
            first: path,
            second: last,
        };
        let keys = by_dot(&self.lists).between(alloc, &low, &high)?;
        lend_found(alloc, &self.slots.pairs, &keys)
    }

    /// All pairs, by dot.
    pub fn lend_all(&self, alloc: Global) -> Result<Vec<&PairRow>, AllocError>
        ensures pairs { IfOk result (λ found. map (λ x. x.now) found.items ≡ map (λ entry. entry.1) self.now.pairs) }
        ensures once { StandOnce (map (λ entry. entry.0) self.now.pairs) }
    {
        let dots = by_dot(&self.lists);
        lend_chunks(alloc, &self.slots.pairs, dots.chunks(), dots.len())
    }

    /// The pairs alone, by dot. Keys are let go first, so that the list is made beside the slots.
    pub fn into_rows(self, alloc: Global) -> Result<Vec<PairRow>, AllocError>
        ensures pairs { IfOk result (λ list. list.items ≡ map (λ entry. entry.1) self.pairs) }
        ensures once { StandOnce (map (λ entry. entry.0) self.pairs) }
    {
        let NumberedPairs { slots, lists } = self;
        let numbers = slots_by_dot(alloc, lists)?;
        let Slots { pairs, free: _ } = slots;
        move_all(alloc, pairs, &numbers)
    }

    /// The pairs that have the wanted numbers of terms, each once, in whatever order. They are found by halves.
    pub fn search<L: Ledger>(
        &self,
        alloc: Global,
        wanted: &Places,
        steps: &mut Steps<L>,
    ) -> Result<Vec<&PairRow>, AllocError>
        ensures found { IfOk result (λ found. FindsEntries (has_places wanted.now) self.now.pairs (map (λ x. x.now) found.items)) }
        ensures bound { steps.new ≤ steps.old + 2 * binary_digits (length self.now.pairs)
            + length (entries_with wanted.now self.now.pairs) + 2 }
        ensures once { StandOnce (map (λ entry. entry.0) self.now.pairs) }
    {
        // `len` tells that no two have the same numbers.
        let _ = self.len();
        let order = self.order(wanted.shape());
        // That of an order tells that its keys ascend.
        let _ = order.len();
        search(alloc, &order, wanted, steps)
    }

    /// The triples of the pairs that have the wanted numbers of terms, by the numbers of all their terms, each once, in
    /// whatever order. They are found by halves.
    pub fn triples<L: Ledger>(
        &self,
        alloc: Global,
        wanted: &Places,
        steps: &mut Steps<L>,
    ) -> Result<Vec<TermNumbers>, AllocError>
        ensures found { IfOk result (λ found. FindsTriples (has_places wanted.now) self.now.pairs found.items) }
        ensures bound { steps.new ≤ steps.old + 2 * binary_digits (length self.now.pairs)
            + length (entries_with wanted.now self.now.pairs) + 2 }
        ensures once { StandOnce (map (λ entry. entry.0) self.now.pairs) }
    {
        // `len` tells that no two have the same numbers.
        let _ = self.len();
        search_triples(alloc, &self.order(wanted.shape()), wanted, steps)
    }

    /// The pairs in an order.
    pub fn order(&self, shape: Shape) -> KeyOrder<'_>
        ensures shape { result.shape ≡ shape }
        ensures entries { (entry : Numbers × PairRow) → Has (entries_of result.slots result.keys) entry ↔ Has self.now.pairs entry }
        ensures once { StandOnce (map (λ entry. entry.0) (entries_of result.slots result.keys)) }
        ensures length { length result.keys ≡ length self.now.pairs }
    {
        order_of(
            shape,
            keys_in(&self.lists, shape),
            self.slots.pairs.as_slice(),
        )
    }
}
