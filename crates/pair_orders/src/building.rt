//! Pairs that are put in all at once.
ghost use Rattle.std.specs.Prelude.{◌≡◌, ◌+◌, ◌<◌, ◌≤◌, ◌⊎◌, ◌↔◌, ℕ, [], map, vec_len, vec_capacity, IfOk};
ghost use Rattle.mld_ops.specs.declared.pair_lists.PairRow.{PairRow};
ghost use Rattle.tree_clock.specs.Lists.{Has, IsAscending};
ghost use Rattle.pair_orders.specs.Keys.{slotted_key, key_numbers, ranked, ranked_cmp};
ghost use Rattle.pair_orders.specs.PairEntries.{StandOnce, entries_of};
ghost use Rattle.pair_orders.specs.KeptPairs.{AreSlots, AreFilled, AreLists, AreKeysOf, dots_in};
ghost use Rattle.pair_orders.specs.declared.keys.Key.{Key};
ghost use Rattle.pair_orders.specs.declared.keys.RankedKey.{RankedKey};
ghost use Rattle.pair_orders.specs.declared.keys.Numbers.{Numbers};

use crate::keys::{Key, Numbers, RankedKey, Shape};
use crate::lists::{Lists, lists_of};
use crate::slots::{Slots, make_slots, take_slot};
use chunked_list::Chunked;
use mld_ops::PairRow;
use std::alloc::{AllocError, Global};

/// Puts pairs into slots of which there are none yet, and gives their keys.
pub(crate) fn fill_slots(
    alloc: Global,
    slots: &mut Slots,
    entries: Vec<(Numbers, PairRow)>,
) -> Result<Vec<Key>, AllocError>
    requires is { AreSlots slots.old }
    requires pairs { slots.old.pairs.items ≡ [] }
    requires free { vec_len slots.old.free ≡ 0 }
    requires once { StandOnce (map (λ entry. entry.0) entries.items) }
    ensures is { IfOk result (λ keys. AreFilled slots.new keys.items) }
    ensures members { IfOk result (λ keys. (entry : Numbers × PairRow) → Has (entries_of slots.new.pairs.items keys.items) entry
        ↔ Has entries.items entry) }
{
    make_slots(slots, entries.len())?;
    let mut keys = Vec::with_capacity(alloc, entries.len())?;
    put_all(slots, &mut keys, entries);
    Ok(keys)
}

// Puts pairs into empty slots, the last first.
fn put_all(slots: &mut Slots, keys: &mut Vec<Key>, entries: Vec<(Numbers, PairRow)>)
    requires is { AreFilled slots.old keys.old.items }
    requires none { keys.old.items ≡ [] }
    requires once { StandOnce (map (λ entry. entry.0) entries.items) }
    requires free { vec_len entries ≤ vec_len slots.old.free }
    requires room { vec_len keys.old + vec_len entries ≤ vec_capacity keys.old }
    ensures is { AreFilled slots.new keys.new.items }
    ensures members { (entry : Numbers × PairRow) → Has (entries_of slots.new.pairs.items keys.new.items) entry ↔ Has entries.items entry }
{
    let mut rest = entries;
    while let Some(entry) = rest.pop() {
        put_entry(slots, keys, entry);
    }
}

// Puts a pair into an empty slot, whose key comes behind the others.
fn put_entry(slots: &mut Slots, keys: &mut Vec<Key>, entry: (Numbers, PairRow))
    requires is { AreFilled slots.old keys.old.items }
    requires none { (slot : ℕ) → ¬ Has keys.old.items (slotted_key entry.0 slot) }
    requires free { 0 < vec_len slots.old.free }
    requires room { vec_len keys.old < vec_capacity keys.old }
    ensures is { AreFilled slots.new keys.new.items }
    ensures members { (other : Numbers × PairRow) → Has (entries_of slots.new.pairs.items keys.new.items) other
        ↔ (Has (entries_of slots.old.pairs.items keys.old.items) other ⊎ (other ≡ entry)) }
    ensures numbers { (other : Key) → Has keys.new.items other → (Has keys.old.items other ⊎ (key_numbers other ≡ entry.0)) }
    ensures free { vec_len slots.old.free ≡ vec_len slots.new.free + 1 }
    ensures len { vec_len keys.new ≡ vec_len keys.old + 1 }
    ensures capacity { vec_capacity keys.old ≤ vec_capacity keys.new }
{
    let (numbers, pair) = entry;
    let slot = take_slot(slots, pair);
    keys.push_reserved(Key::new(&numbers, slot));
}

/// The keys in each order.
pub(crate) fn sort_lists(alloc: Global, keys: &[Key]) -> Result<Lists, AllocError>
    requires { StandOnce keys.now }
    ensures is { IfOk result AreLists }
    ensures same { IfOk result (λ lists. (key : Key) → Has (dots_in lists) key ↔ Has keys.now key) }
{
    let dot = sorted_keys(alloc, keys, Shape::Dot)?;
    let subject = sorted_keys(alloc, keys, Shape::Subject)?;
    let predicate = sorted_keys(alloc, keys, Shape::Predicate)?;
    let object = sorted_keys(alloc, keys, Shape::Object)?;
    Ok(lists_of(dot, subject, predicate, object))
}

// The keys in an order.
fn sorted_keys(alloc: Global, keys: &[Key], shape: Shape) -> Result<Chunked<RankedKey>, AllocError>
    requires { StandOnce keys.now }
    ensures { IfOk result (λ list. AreKeysOf shape list.elements keys.now) }
{
    let mut sorted = ranked_keys(alloc, keys, shape)?;
    sort_keys(&mut sorted);
    Chunked::from_vec(alloc, sorted)
}

// The keys as they stand in an order.
fn ranked_keys(alloc: Global, keys: &[Key], shape: Shape) -> Result<Vec<RankedKey>, AllocError>
    ensures { IfOk result (λ list. list.items ≡ map (ranked shape) keys.now) }
{
    let mut list = Vec::with_capacity(alloc, keys.len())?;
    for key in keys {
        list.push(key.ranked(shape))?;
    }
    Ok(list)
}

// Sorts keys as they stand in an order.
fn sort_keys(keys: &mut Vec<RankedKey>)
    requires { StandOnce keys.old.items }
    ensures ascending { IsAscending ranked_cmp keys.new.items }
    ensures same { (key : RankedKey) → Has keys.new.items key ↔ Has keys.old.items key }
{
    keys.sort_unstable_by(|a, b| a.compare(b));
}
