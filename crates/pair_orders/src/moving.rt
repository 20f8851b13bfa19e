//! Pairs that move out of their slots.
ghost use Rattle.std.specs.Prelude.{◌≡◌, ◌∷◌, ◌++◌, ℕ, [], map, IfOk, OnOk};
ghost use Rattle.chunked_list.specs.Joined.{joined_chunks};
ghost use Rattle.pair_orders.specs.Keys.{slot_at, slot_pairs};
ghost use Rattle.pair_orders.specs.KeptPairs.{AreLists, list_at};
ghost use Rattle.pair_orders.specs.PairEntries.{StandOnce};

use crate::keys::RankedKey;
use crate::lists::{Lists, by_dot};
use chunked_list::Chunk;
use mld_ops::PairRow;
use std::alloc::{AllocError, Global};

/// The slots of keys, by dot. The keys are let go.
pub(crate) fn slots_by_dot(alloc: Global, lists: Lists) -> Result<Vec<u32>, AllocError>
    requires { AreLists lists }
    ensures { IfOk result (λ numbers. numbers.items ≡ map (λ key. key.slot) (list_at lists 0).elements) }
{
    let dots = by_dot(&lists);
    slots_of(alloc, dots.chunks(), dots.len())
}

// The slots of the keys in chunks, of which there are so many.
fn slots_of(
    alloc: Global,
    chunks: &[Chunk<RankedKey>],
    count: usize,
) -> Result<Vec<u32>, AllocError>
    ensures { IfOk result (λ numbers. numbers.items ≡ map (λ key. key.slot) (joined_chunks chunks.now)) }
{
    let mut numbers = Vec::with_capacity(alloc, count)?;
    for chunk in chunks {
        add_slots_of(&mut numbers, chunk.as_slice())?;
    }
    Ok(numbers)
}

// Adds the slots of keys.
fn add_slots_of(numbers: &mut Vec<u32>, keys: &[RankedKey]) -> Result<(), AllocError>
    ensures { OnOk result (numbers.new.items ≡ numbers.old.items ++ map (λ key. key.slot) keys.now) }
{
    for key in keys {
        numbers.push(key.slot)?;
    }
    Ok(())
}

/// The pairs in these slots, which move to the list.
pub(crate) fn move_all(
    alloc: Global,
    slots: Vec<Option<PairRow>>,
    numbers: &[u32],
) -> Result<Vec<PairRow>, AllocError>
    requires { StandOnce numbers.now }
    ensures { IfOk result (λ list. list.items ≡ slot_pairs slots.items numbers.now) }
{
    let mut list = Vec::with_capacity(alloc, numbers.len())?;
    let mut rest = slots;
    for number in numbers {
        move_pair(&mut list, &mut rest, *number)?;
    }
    Ok(list)
}

// Moves the pair in a slot to the end of a list.
fn move_pair(
    list: &mut Vec<PairRow>,
    slots: &mut Vec<Option<PairRow>>,
    number: u32,
) -> Result<(), AllocError>
    ensures list { OnOk result (list.new.items ≡ list.old.items ++ slot_pairs slots.old.items (number ∷ [])) }
    ensures others { (other : ℕ) → ¬ (other ≡ number) → slot_at slots.new.items other ≡ slot_at slots.old.items other }
{
    if let Some(pair) = move_out(slots, number) {
        list.push(pair)?;
    }
    Ok(())
}

// The pair in a slot, which is empty then.
fn move_out(slots: &mut Vec<Option<PairRow>>, number: u32) -> Option<PairRow>
    ensures pair { result ≡ slot_at slots.old.items number }
    ensures others { (other : ℕ) → ¬ (other ≡ number) → slot_at slots.new.items other ≡ slot_at slots.old.items other }
{
    let number = number as usize;
    if number < slots.len() {
        return slots[number].take();
    }
    None
}
