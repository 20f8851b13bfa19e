//! Pairs that are lent where they stand.
ghost use Rattle.std.specs.Prelude.{◌≡◌, ◌∷◌, ◌++◌, [], map, IfOk, OnOk};
ghost use Rattle.chunked_list.specs.Joined.{joined_chunks};
ghost use Rattle.pair_orders.specs.Keys.{slot_pairs};

use crate::keys::RankedKey;
use crate::slots::pair_in;
use chunked_list::Chunk;
use mld_ops::PairRow;
use std::alloc::{AllocError, Global};

/// The pairs of the keys that were found.
pub(crate) fn lend_found<'a>(
    alloc: Global,
    slots: &'a [Option<PairRow>],
    keys: &[&RankedKey],
) -> Result<Vec<&'a PairRow>, AllocError>
    ensures { IfOk result (λ list. map (λ x. x.now) list.items ≡ slot_pairs slots.now (map (λ key. key.now.slot) keys.now)) }
{
    let mut list = Vec::with_capacity(alloc, keys.len())?;
    for key in keys {
        add_pair(&mut list, slots, key.slot)?;
    }
    Ok(list)
}

/// The pairs of the keys in chunks, of which there are so many.
pub(crate) fn lend_chunks<'a>(
    alloc: Global,
    slots: &'a [Option<PairRow>],
    chunks: &[Chunk<RankedKey>],
    count: usize,
) -> Result<Vec<&'a PairRow>, AllocError>
    ensures { IfOk result (λ list. map (λ x. x.now) list.items
        ≡ slot_pairs slots.now (map (λ key. key.slot) (joined_chunks chunks.now))) }
{
    let mut list = Vec::with_capacity(alloc, count)?;
    for chunk in chunks {
        add_pairs(&mut list, slots, chunk.as_slice())?;
    }
    Ok(list)
}

// Adds the pairs of keys.
fn add_pairs<'a>(
    list: &mut Vec<&'a PairRow>,
    slots: &'a [Option<PairRow>],
    keys: &[RankedKey],
) -> Result<(), AllocError>
    ensures { OnOk result (map (λ x. x.now) list.new.items
        ≡ map (λ x. x.now) list.old.items ++ slot_pairs slots.now (map (λ key. key.slot) keys.now)) }
{
    for key in keys {
        add_pair(list, slots, key.slot)?;
    }
    Ok(())
}

/// Adds the pair in a slot.
pub(crate) fn add_pair<'a>(
    list: &mut Vec<&'a PairRow>,
    slots: &'a [Option<PairRow>],
    slot: u32,
) -> Result<(), AllocError>
    ensures { OnOk result (map (λ x. x.now) list.new.items
        ≡ map (λ x. x.now) list.old.items ++ slot_pairs slots.now (slot ∷ [])) }
{
    if let Some(pair) = pair_in(slots, slot) {
        list.push(pair)?;
    }
    Ok(())
}
