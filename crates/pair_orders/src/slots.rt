//! Slots, in which pairs stand.
ghost use Rattle.std.specs.Prelude.{◌≡◌, ◌+◌, ◌<◌, ◌≤◌, ℕ, [], IsSome, None, Some, OnOk, vec_len, vec_capacity};
ghost use Rattle.std.specs.Option.{option_copied};
ghost use Rattle.pair_orders.specs.Keys.{slot_at};
ghost use Rattle.pair_orders.specs.SlotLimit.{slots_limit};
ghost use Rattle.pair_orders.specs.KeptPairs.{AreSlots, PutsAt};

use crate::limits::SLOTS_LIMIT;
use mld_ops::PairRow;
use std::alloc::{AllocError, Global};

/// Slots for pairs.
#[derive(Drop)]
pub(crate) struct Slots {
    /// The pair in each, where one is there.
    pub(crate) pairs: Vec<Option<PairRow>>,
    /// The numbers of the empty ones.
    pub(crate) free: Vec<u32>,
}

/// No slot.
pub(crate) fn no_slots(alloc: Global) -> Slots
    ensures is { AreSlots result }
    ensures pairs { result.pairs.items ≡ [] }
    ensures free { vec_len result.free ≡ 0 }
{
    Slots {
        pairs: Vec::new(alloc),
        free: Vec::new(alloc),
    }
}

/// The pair in a slot.
pub(crate) fn pair_in(slots: &[Option<PairRow>], slot: u32) -> Option<&PairRow>
    ensures { option_copied result ≡ slot_at slots.now slot }
{
    let slot = slot as usize;
    if slot < slots.len() {
        return slots[slot].as_ref();
    }
    None
}

/// Puts a pair into an empty slot, whose number it gives. It takes no memory.
pub(crate) fn take_slot(slots: &mut Slots, pair: PairRow) -> u32
    requires is { AreSlots slots.old }
    requires free { 0 < vec_len slots.old.free }
    ensures is { AreSlots slots.new }
    ensures empty { slot_at slots.old.pairs.items result ≡ None }
    ensures put { PutsAt slots.old.pairs.items slots.new.pairs.items result (Some pair) }
    ensures pairs { vec_len slots.new.pairs ≡ vec_len slots.old.pairs }
    ensures len { vec_len slots.old.free ≡ vec_len slots.new.free + 1 }
    ensures capacity { vec_capacity slots.old.free ≤ vec_capacity slots.new.free }
{
    if let Some(slot) = slots.free.pop() {
        slots.pairs[slot as usize] = Some(pair);
        return slot;
    }
    0
}

/// Empties a slot. It takes no memory.
pub(crate) fn let_go(slots: &mut Slots, slot: u32)
    requires is { AreSlots slots.old }
    requires occupied { IsSome (slot_at slots.old.pairs.items slot) }
    requires room { vec_len slots.old.free < vec_capacity slots.old.free }
    ensures is { AreSlots slots.new }
    ensures put { PutsAt slots.old.pairs.items slots.new.pairs.items slot None }
    ensures pairs { vec_len slots.new.pairs ≡ vec_len slots.old.pairs }
    ensures len { vec_len slots.new.free ≡ vec_len slots.old.free + 1 }
    ensures capacity { vec_capacity slots.old.free ≤ vec_capacity slots.new.free }
{
    slots.pairs[slot as usize] = None;
    slots.free.push_reserved(slot);
}

/// Makes slots until so many are empty, and room to let all go.
pub(crate) fn make_slots(slots: &mut Slots, more: usize) -> Result<(), AllocError>
    requires is { AreSlots slots.old }
    requires room { vec_len slots.old.pairs ≤ vec_capacity slots.old.free }
    ensures is { AreSlots slots.new }
    ensures same { (slot : ℕ) → slot_at slots.new.pairs.items slot ≡ slot_at slots.old.pairs.items slot }
    ensures made { vec_len slots.new.pairs + vec_len slots.old.free ≡ vec_len slots.old.pairs + vec_len slots.new.free }
    ensures room { vec_len slots.new.pairs ≤ vec_capacity slots.new.free }
    ensures ok { OnOk result (more ≤ vec_len slots.new.free) }
    ensures kept { vec_len slots.old.free ≤ vec_len slots.new.free }
{
    let wanted = more.saturating_sub(slots.free.len());
    if wanted > SLOTS_LIMIT - slots.pairs.len() {
        return Err(AllocError);
    }
    reserve(&mut slots.pairs, wanted)?;
    let used = slots.pairs.len().saturating_sub(slots.free.len());
    reserve(&mut slots.free, used + wanted)?;
    add_slots(slots, wanted);
    Ok(())
}

// Makes so many empty slots more.
fn add_slots(slots: &mut Slots, more: usize)
    requires is { AreSlots slots.old }
    requires few { vec_len slots.old.pairs + more ≤ slots_limit }
    requires pairs { vec_len slots.old.pairs + more ≤ vec_capacity slots.old.pairs }
    requires free { vec_len slots.old.free + more ≤ vec_capacity slots.old.free }
    ensures is { AreSlots slots.new }
    ensures same { (slot : ℕ) → slot_at slots.new.pairs.items slot ≡ slot_at slots.old.pairs.items slot }
    ensures pairs { vec_len slots.new.pairs ≡ vec_len slots.old.pairs + more }
    ensures len { vec_len slots.new.free ≡ vec_len slots.old.free + more }
    ensures capacity { vec_capacity slots.old.free ≤ vec_capacity slots.new.free }
{
    for _i in 0..more {
        add_slot(slots);
    }
}

// Makes an empty slot more.
fn add_slot(slots: &mut Slots)
    requires is { AreSlots slots.old }
    requires few { vec_len slots.old.pairs < slots_limit }
    requires pairs { vec_len slots.old.pairs < vec_capacity slots.old.pairs }
    requires free { vec_len slots.old.free < vec_capacity slots.old.free }
    ensures is { AreSlots slots.new }
    ensures same { (slot : ℕ) → slot_at slots.new.pairs.items slot ≡ slot_at slots.old.pairs.items slot }
    ensures pairs { vec_len slots.new.pairs ≡ vec_len slots.old.pairs + 1 }
    ensures pairs_capacity { vec_capacity slots.old.pairs ≤ vec_capacity slots.new.pairs }
    ensures len { vec_len slots.new.free ≡ vec_len slots.old.free + 1 }
    ensures capacity { vec_capacity slots.old.free ≤ vec_capacity slots.new.free }
{
    let slot = slots.pairs.len() as u32;
    slots.pairs.push_reserved(None);
    slots.free.push_reserved(slot);
}

// Makes room for so many elements more, and where it has to, for an eighth of what there was at least.
fn reserve<T>(list: &mut Vec<T>, more: usize) -> Result<(), AllocError>
    ensures items { list.new.items ≡ list.old.items }
    ensures len { vec_len list.new ≡ vec_len list.old }
    ensures capacity { vec_capacity list.old ≤ vec_capacity list.new }
    ensures ok { OnOk result (vec_len list.new + more ≤ vec_capacity list.new) }
{
    let spare = list.capacity() - list.len();
    if more <= spare {
        return Ok(());
    }
    list.reserve_exact(more.max(spare.saturating_add(list.capacity() / 8)))
}
