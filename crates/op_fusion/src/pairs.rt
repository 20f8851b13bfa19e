//! Ascending lists of pairs, gone over once.
ghost use Rattle.std.specs.Prelude.{◌≡◌, ◌≢◌, ◌+◌, ◌<◌, ◌↔◌, ◌⊎◌, ◌++◌, ◌∷◌, [], IfOk, OnOk, IfSome, IfNone, IsSome, length};
ghost use Rattle.std.specs.declared.cmp.Ordering.TheVariants.{Less};
ghost use Rattle.mld_ops.specs.Entry.{IsEntry};
ghost use Rattle.mld_ops.specs.Tagged.{tagged_cmp};
ghost use Rattle.mld_ops.specs.declared.tagged.Tagged.{Tagged};
ghost use Rattle.op_fusion.specs.FusionPairs.{InsertsWithin, IsAsWanted, first_cmp, TakesLeast};
ghost use Rattle.tree_clock.specs.Lists.{Has, IsAscending};

use mld_ops::{Entry, Tagged, skip_below, stands_at};
use std::alloc::{AllocError, Global};
use std::cmp::Ordering;
use std::collections::VecDeque;
use tree_clock::Dot;

/// The pairs that an entry inserts at ticks above one number and up to another.
pub fn inserted_within(
    alloc: Global,
    entry: &Entry,
    low: u32,
    high: u32,
) -> Result<Vec<Tagged>, AllocError>
    ensures ascending { IfOk result (λ pairs. IsAscending tagged_cmp pairs.items) }
    ensures members { IfOk result (λ pairs. (pair : Tagged) → Has pairs.items pair
        ↔ InsertsWithin entry.now low high pair) }
    ensures entry { IsEntry entry.now }
{
    let path = entry.range().path;
    let mut pairs = Vec::new(alloc);
    for (triple, tick) in entry.inserts() {
        if low < *tick && *tick <= high {
            let dot = Dot { path, tick: *tick };
            let triple = triple.share()?;
            pairs.push(Tagged { triple, dot })?;
        }
    }
    Ok(pairs)
}

/// Those of the pairs that others have, or those that they lack.
pub fn sift(
    alloc: Global,
    pairs: Vec<Tagged>,
    others: &[Tagged],
    wanted: bool,
) -> Result<Vec<Tagged>, AllocError>
    requires pairs { IsAscending tagged_cmp pairs.items }
    requires others { IsAscending tagged_cmp others.now }
    ensures ascending { IfOk result (λ sifted. IsAscending tagged_cmp sifted.items) }
    ensures members { IfOk result (λ sifted. (pair : Tagged) → Has sifted.items pair
        ↔ (Has pairs.items pair × IsAsWanted wanted others.now pair)) }
{
    let mut sifted = Vec::new(alloc);
    let mut rest = VecDeque::from_vec(pairs);
    let mut place = 0;
    while let Some(pair) = rest.pop_front() {
        place = skip_below(others, place, &pair);
        let stands = stands_at(others, place, &pair);
        push_wanted(&mut sifted, pair, stands, wanted)?;
    }
    Ok(sifted)
}

// Puts a pair behind the others where it is as wanted.
fn push_wanted(
    pairs: &mut Vec<Tagged>,
    pair: Tagged,
    stands: bool,
    wanted: bool,
) -> Result<(), AllocError>
    ensures wanted { stands ≡ wanted → OnOk result (pairs.new.items ≡ pairs.old.items ++ pair ∷ []) }
    ensures unwanted { stands ≢ wanted → OnOk result (pairs.new.items ≡ pairs.old.items) }
{
    if stands == wanted {
        pairs.push(pair)?;
    }
    Ok(())
}

/// The pairs of both lists, each once.
pub fn merge(
    alloc: Global,
    left: Vec<Tagged>,
    right: Vec<Tagged>,
) -> Result<Vec<Tagged>, AllocError>
    requires left { IsAscending tagged_cmp left.items }
    requires right { IsAscending tagged_cmp right.items }
    ensures ascending { IfOk result (λ merged. IsAscending tagged_cmp merged.items) }
    ensures members { IfOk result (λ merged. (pair : Tagged) → Has merged.items pair
        ↔ (Has left.items pair ⊎ Has right.items pair)) }
{
    let mut merged = Vec::new(alloc);
    let mut left = VecDeque::from_vec(left);
    let mut right = VecDeque::from_vec(right);
    while let Some(pair) = take_least(&mut left, &mut right) {
        merged.push(pair)?;
    }
    Ok(merged)
}

// Takes the least pair out of both lists.
fn take_least(left: &mut VecDeque<Tagged>, right: &mut VecDeque<Tagged>) -> Option<Tagged>
    requires left { IsAscending tagged_cmp left.old.items }
    requires right { IsAscending tagged_cmp right.old.items }
    ensures some { IfSome result
        (λ pair. TakesLeast left.old.items right.old.items pair left.new.items right.new.items) }
    ensures none { IfNone result ((left.old.items ≡ []) × (right.old.items ≡ [])) }
    ensures fewer { IsSome result
        → length left.new.items + length right.new.items < length left.old.items + length right.old.items }
{
    match cmp_first(left, right) {
        Ordering::Less => left.pop_front(),
        Ordering::Greater => right.pop_front(),
        Ordering::Equal => {
            right.pop_front();
            left.pop_front()
        }
    }
}

// Which of the lists begins with the lesser pair.
fn cmp_first(left: &VecDeque<Tagged>, right: &VecDeque<Tagged>) -> Ordering
    ensures { result ≡ first_cmp left.now.items right.now.items }
{
    match (left.front(), right.front()) {
        (Some(pair), Some(other)) => pair.cmp(other),
        (Some(_), None) => Ordering::Less,
        (None, _) => Ordering::Greater,
    }
}
