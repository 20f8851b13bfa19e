//! Fused entries.
ghost use Rattle.std.specs.Prelude.{◌≡◌, ℕ, ◌+◌, ◌↔◌, ◌⊎◌, max, map, List, IsTrue, IfOk, IsErrOf};
ghost use Rattle.mld_ops.specs.Tagged.{tagged_cmp, insert_cmp};
ghost use Rattle.mld_ops.specs.declared.tagged.Tagged.{Tagged};
ghost use Rattle.op_fusion.specs.Fusion as fusion;
ghost use Rattle.op_fusion.specs.declared.faults.FuseFault.TheVariants as faults;
ghost use Rattle.rdf_terms.specs.declared.terms.Triple.{Triple};
ghost use Rattle.tree_clock.specs.Clock.{ticks_of, IsClock};
ghost use Rattle.tree_clock.specs.Dot.{IsIn};
ghost use Rattle.tree_clock.specs.Lists.{Has, IsAscending};

use crate::faults::FuseFault;
use crate::pairs::{inserted_within, merge, sift};
use mld_ops::{Entry, Tagged};
use rdf_terms::Triple;
use std::alloc::{AllocError, Global};
use tree_clock::{Clock, Range};

/// The entry of both ranges, made from the entries of each: it takes time linear in both. The second range has the tick
/// after the first one's last, or begins with it; it may begin earlier.
pub fn fuse(alloc: Global, first: &Entry, second: &Entry) -> Result<Entry, FuseFault>
    ensures ok { IfOk result (λ fused. fusion.Fused first.now second.now fused) }
    ensures not_adjacent { IsErrOf result faults.NotAdjacent
        ↔ (¬ fusion.AreNeighbours first.now.range second.now.range) }
{
    if !are_neighbours(&first.range(), &second.range()) {
        return Err(FuseFault::NotAdjacent);
    }
    Ok(fuse_neighbours(alloc, first, second)?)
}

/// Whether the ranges may be fused.
pub fn are_neighbours(first: &Range, second: &Range) -> bool
    ensures { IsTrue result ↔ fusion.AreNeighbours first.now second.now }
{
    first.path == second.path && first.last < second.last && second.first <= first.last + 1
}

/// The entry of both ranges, which are neighbours.
pub fn fuse_neighbours(alloc: Global, first: &Entry, second: &Entry) -> Result<Entry, AllocError>
    requires { fusion.AreNeighbours first.now.range second.now.range }
    ensures { IfOk result (λ fused. fusion.Fused first.now second.now fused) }
{
    let range = joined(&first.range(), &second.range());
    let time = fused_time(alloc, first.time(), second.time())?;
    let deletes = fused_deletes(alloc, first, second)?;
    let inserts = fused_inserts(alloc, first, second)?;
    Ok(Entry::new(range, time, deletes, inserts).unwrap())
}

// The range of both.
fn joined(first: &Range, second: &Range) -> Range
    ensures { result ≡ fusion.joined first.now second.now }
{
    Range {
        path: first.path,
        first: first.first.min(second.first),
        last: second.last,
    }
}

// The join of both times.
fn fused_time(alloc: Global, first: &Clock, second: &Clock) -> Result<Clock, AllocError>
    ensures ticks { IfOk result (λ time. (path : List ℕ)
        → ticks_of time.ticks path ≡ max (ticks_of first.now.ticks path) (ticks_of second.now.ticks path)) }
    ensures clock { IfOk result (λ time. IsClock time.ticks) }
{
    let mut time = second.copy_in(alloc)?;
    time.merge(first)?;
    Ok(time)
}

// The deletes of both entries whose dots are none of the range of both.
fn fused_deletes(alloc: Global, first: &Entry, second: &Entry) -> Result<Vec<Tagged>, AllocError>
    ensures ascending { IfOk result (λ deletes. IsAscending tagged_cmp deletes.items) }
    ensures members { IfOk result (λ deletes. (pair : Tagged) → Has deletes.items pair
        ↔ fusion.StaysDeleted first.now second.now pair) }
{
    let range = joined(&first.range(), &second.range());
    let left = outside(alloc, first.deletes(), &range)?;
    let right = outside(alloc, second.deletes(), &range)?;
    merge(alloc, left, right)
}

// The pairs whose dots are none of the range.
fn outside(alloc: Global, pairs: &[Tagged], range: &Range) -> Result<Vec<Tagged>, AllocError>
    requires { IsAscending tagged_cmp pairs.now }
    ensures ascending { IfOk result (λ kept. IsAscending tagged_cmp kept.items) }
    ensures members { IfOk result (λ kept. (pair : Tagged) → Has kept.items pair
        ↔ (Has pairs.now pair × ¬ IsIn range.now pair.dot)) }
{
    let mut kept = Vec::new(alloc);
    for pair in pairs {
        if !range.contains(&pair.dot) {
            kept.push(pair.share()?)?;
        }
    }
    Ok(kept)
}

// The inserts of both entries that stay.
fn fused_inserts(
    alloc: Global,
    first: &Entry,
    second: &Entry,
) -> Result<Vec<(Triple, u32)>, AllocError>
    requires { fusion.AreNeighbours first.now.range second.now.range }
    ensures ascending { IfOk result (λ inserts. IsAscending insert_cmp inserts.items) }
    ensures members { IfOk result (λ inserts. (triple : Triple) (tick : ℕ) → Has inserts.items (triple, tick)
        ↔ (fusion.StaysOfSecond first.now second.now triple tick
        ⊎ fusion.StaysOfFirst first.now second.now triple tick)) }
{
    let early = staying_of_first(alloc, first, second)?;
    let late = staying_of_second(alloc, first, second)?;
    inserts_of(alloc, merge(alloc, early, late)?)
}

// The inserts of the first entry that stay, as pairs.
fn staying_of_first(alloc: Global, first: &Entry, second: &Entry) -> Result<Vec<Tagged>, AllocError>
    requires { fusion.AreNeighbours first.now.range second.now.range }
    ensures ascending { IfOk result (λ pairs. IsAscending tagged_cmp pairs.items) }
    ensures members { IfOk result (λ pairs. (pair : Tagged) → Has pairs.items pair
        ↔ ((pair.dot.path ≡ first.now.range.path)
        × fusion.StaysOfFirst first.now second.now pair.triple pair.dot.tick)) }
{
    let before = inserted_within(alloc, first, 0, second.range().first - 1)?;
    sift(alloc, before, second.deletes(), false)
}

// The inserts of the second entry that stay, as pairs: those behind the first range, those of both entries, and those
// before the first range.
fn staying_of_second(
    alloc: Global,
    first: &Entry,
    second: &Entry,
) -> Result<Vec<Tagged>, AllocError>
    requires { fusion.AreNeighbours first.now.range second.now.range }
    ensures ascending { IfOk result (λ pairs. IsAscending tagged_cmp pairs.items) }
    ensures members { IfOk result (λ pairs. (pair : Tagged) → Has pairs.items pair
        ↔ ((pair.dot.path ≡ first.now.range.path)
        × fusion.StaysOfSecond first.now second.now pair.triple pair.dot.tick)) }
{
    let range = first.range();
    let behind = inserted_within(alloc, second, range.last, second.range().last)?;
    let both = inserted_by_both(alloc, first, second)?;
    let before = inserted_within(alloc, second, 0, range.first - 1)?;
    let before = sift(alloc, before, first.deletes(), false)?;
    merge(alloc, merge(alloc, behind, both)?, before)
}

// The pairs that both entries insert.
fn inserted_by_both(alloc: Global, first: &Entry, second: &Entry) -> Result<Vec<Tagged>, AllocError>
    requires { fusion.AreNeighbours first.now.range second.now.range }
    ensures ascending { IfOk result (λ pairs. IsAscending tagged_cmp pairs.items) }
    ensures members { IfOk result (λ pairs. (pair : Tagged) → Has pairs.items pair
        ↔ ((pair.dot.path ≡ first.now.range.path)
        × Has first.now.inserts (pair.triple, pair.dot.tick) × Has second.now.inserts (pair.triple, pair.dot.tick))) }
{
    let low = second.range().first - 1;
    let high = first.range().last;
    let left = inserted_within(alloc, first, low, high)?;
    let right = inserted_within(alloc, second, low, high)?;
    sift(alloc, left, &right, true)
}

// The pairs of one path as inserts.
fn inserts_of(alloc: Global, pairs: Vec<Tagged>) -> Result<Vec<(Triple, u32)>, AllocError>
    ensures { IfOk result
        (λ inserts. inserts.items ≡ map (λ (pair : Tagged). (pair.triple, pair.dot.tick)) pairs.items) }
{
    pairs
        .into_iter()
        .map(|pair| (pair.triple, pair.dot.tick))
        .collect(alloc)
}
