//! Pairs that come and go.
ghost use Rattle.std.specs.Prelude.{◌≡◌, ◌<◌, ◌≤◌, ◌+◌, ◌⊎◌, ◌↔◌, ℕ, min, vec_len, OnOk};
ghost use Rattle.mld_ops.specs.declared.pair_lists.PairRow.{PairRow};
ghost use Rattle.tree_clock.specs.Lists.{Has};
ghost use Rattle.pair_orders.specs.Keys.{slotted_key};
ghost use Rattle.pair_orders.specs.PairEntries.{HasNumbers};
ghost use Rattle.pair_orders.specs.KeptPairs.{IsPairs, pairs_value, dots_in};
ghost use Rattle.pair_orders.specs.declared.keys.Numbers.{Numbers};

use crate::finds::find_slot;
use crate::keys::{Key, Numbers};
use crate::lists::{Lists, make_room, put_key, take_key};
use crate::slots::{Slots, let_go, make_slots, take_slot};
use mld_ops::PairRow;
use std::alloc::{AllocError, Global};

/// Makes room for so many pairs more.
pub(crate) fn prepare_for(
    alloc: Global,
    slots: &mut Slots,
    lists: &mut Lists,
    more: usize,
) -> Result<(), AllocError>
    requires { IsPairs slots.old lists.old }
    ensures is { IsPairs slots.new lists.new }
    ensures pairs { (pairs_value slots.new lists.new).pairs ≡ (pairs_value slots.old lists.old).pairs }
    ensures ok { OnOk result (more ≤ (pairs_value slots.new lists.new).room) }
    ensures kept { (pairs_value slots.old lists.old).room ≤ (pairs_value slots.new lists.new).room }
{
    make_slots(slots, more)?;
    make_room(alloc, lists, more)
}

/// Puts a pair in, unless one with these numbers is there. It takes no memory.
pub(crate) fn insert_in(slots: &mut Slots, lists: &mut Lists, numbers: Numbers, pair: PairRow)
    requires is { IsPairs slots.old lists.old }
    requires room { 0 < (pairs_value slots.old lists.old).room }
    ensures is { IsPairs slots.new lists.new }
    ensures members { (other : Numbers × PairRow) → Has (pairs_value slots.new lists.new).pairs other
        ↔ (Has (pairs_value slots.old lists.old).pairs other ⊎ ((other ≡ (numbers, pair)) × ¬ HasNumbers (pairs_value slots.old lists.old).pairs numbers)) }
    ensures room { (pairs_value slots.old lists.old).room ≤ (pairs_value slots.new lists.new).room + 1 }
{
    if find_slot(lists, &numbers).is_some() {
        return;
    }
    put_new(slots, lists, numbers, pair);
}

// Puts a pair in whose numbers aren't there.
fn put_new(slots: &mut Slots, lists: &mut Lists, numbers: Numbers, pair: PairRow)
    requires is { IsPairs slots.old lists.old }
    requires room { 0 < (pairs_value slots.old lists.old).room }
    requires none { (slot : ℕ) → ¬ Has (dots_in lists.old) (slotted_key numbers slot) }
    ensures is { IsPairs slots.new lists.new }
    ensures members { (other : Numbers × PairRow) → Has (pairs_value slots.new lists.new).pairs other
        ↔ (Has (pairs_value slots.old lists.old).pairs other ⊎ (other ≡ (numbers, pair))) }
    ensures room { (pairs_value slots.old lists.old).room ≤ (pairs_value slots.new lists.new).room + 1 }
{
    let slot = take_slot(slots, pair);
    put_key(lists, Key::new(&numbers, slot));
}

/// Takes out the pair with these numbers, if it is there. It takes no memory.
pub(crate) fn remove_in(slots: &mut Slots, lists: &mut Lists, numbers: &Numbers)
    requires { IsPairs slots.old lists.old }
    ensures is { IsPairs slots.new lists.new }
    ensures members { (other : Numbers × PairRow) → Has (pairs_value slots.new lists.new).pairs other
        ↔ (Has (pairs_value slots.old lists.old).pairs other × ¬ (other.0 ≡ numbers.now)) }
    ensures room { (pairs_value slots.old lists.old).room ≤ (pairs_value slots.new lists.new).room }
{
    if let Some(slot) = find_slot(lists, numbers) {
        take_old(slots, lists, numbers, slot);
    }
}

// Takes out the pair that has these numbers in that slot.
fn take_old(slots: &mut Slots, lists: &mut Lists, numbers: &Numbers, slot: u32)
    requires is { IsPairs slots.old lists.old }
    requires member { Has (dots_in lists.old) (slotted_key numbers.now slot) }
    ensures is { IsPairs slots.new lists.new }
    ensures members { (other : Numbers × PairRow) → Has (pairs_value slots.new lists.new).pairs other
        ↔ (Has (pairs_value slots.old lists.old).pairs other × ¬ (other.0 ≡ numbers.now)) }
    ensures room { (pairs_value slots.old lists.old).room ≤ (pairs_value slots.new lists.new).room }
{
    take_key(lists, &Key::new(numbers, slot));
    let_go(slots, slot);
}
