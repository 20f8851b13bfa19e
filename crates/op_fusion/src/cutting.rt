//! The cut of an entry.
ghost use Rattle.std.specs.Prelude.{◌↔◌, IfOk};
ghost use Rattle.mld_ops.specs.Cut.{IsSuperseded};
ghost use Rattle.mld_ops.specs.Entry.{IsEntry};
ghost use Rattle.mld_ops.specs.Tagged.{tagged_cmp};
ghost use Rattle.mld_ops.specs.declared.tagged.Tagged.{Tagged};
ghost use Rattle.op_fusion.specs.Cutting.{AreCuts, IsDropped};
ghost use Rattle.tree_clock.specs.Clock.{ticks_of};
ghost use Rattle.tree_clock.specs.Lists.{Has, IsAscending};

use crate::pairs::{inserted_within, merge, sift};
use mld_ops::{Cut, Entry, Tagged, Tags};
use std::alloc::{AllocError, Global};
use tree_clock::{Clock, Range};

/// What taking an entry does to a set of pairs, of one who has seen the dots of a clock: the present pairs go that the
/// entry deletes, and those with a seen dot of its range that it doesn't insert; what it inserts at ticks not seen comes.
pub fn cut<S: Tags>(
    alloc: Global,
    entry: &Entry,
    seen: &Clock,
    state: &S,
) -> Result<Cut, AllocError>
    ensures { IfOk result (λ cut. AreCuts entry.now (ticks_of seen.now.ticks entry.now.range.path) (S.pairs state.now)
        cut.drops.items cut.adds.items) }
{
    let range = entry.range();
    let known = seen.ticks(&range.path);
    let drops = dropped(alloc, entry, known, state)?;
    let adds = inserted_within(alloc, entry, known, range.last)?;
    Ok(Cut { drops, adds })
}

// The present pairs that go.
fn dropped<S: Tags>(
    alloc: Global,
    entry: &Entry,
    known: u32,
    state: &S,
) -> Result<Vec<Tagged>, AllocError>
    requires { IsEntry entry.now }
    ensures ascending { IfOk result (λ pairs. IsAscending tagged_cmp pairs.items) }
    ensures members { IfOk result (λ pairs. (pair : Tagged) → Has pairs.items pair
        ↔ IsDropped entry.now known (S.pairs state.now) pair) }
{
    let deleted = present(alloc, entry.deletes(), state)?;
    let superseded = superseded(alloc, entry, known, state)?;
    merge(alloc, deleted, superseded)
}

// Those of the pairs that are present.
fn present<S: Tags>(alloc: Global, pairs: &[Tagged], state: &S) -> Result<Vec<Tagged>, AllocError>
    requires { IsAscending tagged_cmp pairs.now }
    ensures ascending { IfOk result (λ present. IsAscending tagged_cmp present.items) }
    ensures members { IfOk result (λ present. (pair : Tagged) → Has present.items pair
        ↔ (Has pairs.now pair × Has (S.pairs state.now) pair)) }
{
    let mut present = Vec::new(alloc);
    for pair in pairs {
        if state.has(pair) {
            present.push(pair.share()?)?;
        }
    }
    Ok(present)
}

// The present pairs that the entry supersedes.
fn superseded<S: Tags>(
    alloc: Global,
    entry: &Entry,
    known: u32,
    state: &S,
) -> Result<Vec<Tagged>, AllocError>
    ensures ascending { IfOk result (λ pairs. IsAscending tagged_cmp pairs.items) }
    ensures members { IfOk result (λ pairs. (pair : Tagged) → Has pairs.items pair
        ↔ (Has (S.pairs state.now) pair × IsSuperseded entry.now known pair)) }
{
    let range = entry.range();
    if known < range.first {
        return Ok(Vec::new(alloc));
    }
    let seen = Range {
        path: range.path,
        first: range.first,
        last: known,
    };
    let had = state.of_range(alloc, &seen)?;
    let stay = inserted_within(alloc, entry, 0, known)?;
    sift(alloc, had, &stay, false)
}
