//! Ascending lists of pairs.
ghost use Rattle.std.specs.Prelude.{◌≡◌, ◌≤◌, ◌↔◌, ◌⊎◌, IsTrue, IfOk, OnOk, OnErr, vec_len, vec_capacity};
ghost use Rattle.mld_ops.specs.Tagged.{tagged_cmp};
ghost use Rattle.mld_ops.specs.declared.tagged.Tagged.{Tagged};
ghost use Rattle.tree_clock.specs.Lists.{Has, IsAscending};

use crate::tagged::Tagged;
use std::alloc::{AllocError, Global};

/// Whether the pair is one of an ascending list.
pub fn has_pair(pairs: &[Tagged], pair: &Tagged) -> bool
    requires { IsAscending tagged_cmp pairs.now }
    ensures { IsTrue result ↔ Has pairs.now pair.now }
{
    pairs.binary_search(pair).is_ok()
}

/// Puts a pair into an ascending list, unless it is there.
pub fn insert_pair(pairs: &mut Vec<Tagged>, pair: Tagged) -> Result<(), AllocError>
    requires { IsAscending tagged_cmp pairs.old.items }
    ensures ascending { IsAscending tagged_cmp pairs.new.items }
    ensures ok { OnOk result ((other : Tagged) → Has pairs.new.items other
        ↔ (Has pairs.old.items other ⊎ (other ≡ pair))) }
    ensures err { OnErr result (pairs.new.items ≡ pairs.old.items) }
{
    if let Err(place) = pairs.binary_search(&pair) {
        pairs.insert(place, pair)?;
    }
    Ok(())
}

/// Takes a pair out of an ascending list, if it is there. It takes no memory.
pub fn remove_pair(pairs: &mut Vec<Tagged>, pair: &Tagged)
    requires { IsAscending tagged_cmp pairs.old.items }
    ensures ascending { IsAscending tagged_cmp pairs.new.items }
    ensures members { (other : Tagged) → Has pairs.new.items other
        ↔ (Has pairs.old.items other × ¬ (other ≡ pair.now)) }
    ensures len { vec_len pairs.new ≤ vec_len pairs.old }
    ensures capacity { vec_capacity pairs.new ≡ vec_capacity pairs.old }
{
    if let Ok(place) = pairs.binary_search(pair) {
        pairs.remove(place);
    }
}

/// Takes pairs out of an ascending list, those of them that are there. It takes no memory.
pub fn remove_pairs(pairs: &mut Vec<Tagged>, deletes: &[Tagged])
    requires { IsAscending tagged_cmp pairs.old.items }
    ensures ascending { IsAscending tagged_cmp pairs.new.items }
    ensures members { (pair : Tagged) → Has pairs.new.items pair
        ↔ (Has pairs.old.items pair × ¬ Has deletes.now pair) }
    ensures len { vec_len pairs.new ≤ vec_len pairs.old }
    ensures capacity { vec_capacity pairs.new ≡ vec_capacity pairs.old }
{
    for delete in deletes {
        remove_pair(pairs, delete);
    }
}

/// A copy of a list of pairs.
pub fn copy_pairs(alloc: Global, pairs: &[Tagged]) -> Result<Vec<Tagged>, AllocError>
    ensures { IfOk result (λ copy. copy.items ≡ pairs.now) }
{
    let mut copy = Vec::with_capacity(alloc, pairs.len())?;
    for pair in pairs {
        copy.push(pair.share()?)?;
    }
    Ok(copy)
}
