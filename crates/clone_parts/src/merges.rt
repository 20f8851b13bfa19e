//! Merging a snapshot in memory: the new base, and what the entries held back that this releases lead to from there.
ghost use Rattle.std.specs.Prelude.{IfOk};
ghost use Rattle.clone_parts.specs.Merges.{IsMergeOf, IsReleasedFrom};
ghost use Rattle.mld_ops.specs.Messages.{snapshot_value, IsGoodSnapshot};
ghost use Rattle.mld_ops.specs.Tagged.{tagged_cmp};
ghost use Rattle.suset.specs.SnapshotJoin.{CoversAll, IsJoinedWith};
ghost use Rattle.tree_clock.specs.Clock.{IsClock};
ghost use Rattle.tree_clock.specs.Lists.{IsAscending};

use crate::plans::{begin, cut_of, release_held};
use causal_buffer::Held;
use graph_index::Graph;
use mld_ops::{Entry, PairList, Snapshot};
use std::alloc::{AllocError, Global};
use suset::{TaggedSet, join};
use tree_clock::{Clock, Ranges};

/// What a clone has that merges a snapshot.
#[derive(Drop)]
pub struct Merge {
    /// The clock of its base: the dots of both.
    pub base: Clock,
    /// The pairs of its base, ascending: the join of both.
    pub base_pairs: PairList,
    /// What this releases, and what it has then.
    pub after: Released,
}

/// The entries that a clone takes of those held back, and what it has then.
#[derive(Drop)]
pub struct Released {
    /// Its clock then.
    pub clock: Clock,
    /// Its pairs then.
    pub pairs: Graph,
    /// The entries, in order.
    pub entries: Vec<Entry>,
    /// Their ranges.
    pub ranges: Ranges,
    /// What it holds back then, where that changes.
    pub left: Option<Held>,
}

/// Merges a snapshot into what one knows and has, and then takes those of the entries held back that this releases. Nothing that is given
/// changes. It takes time linear in the pairs of both, but for what is released.
pub fn prepare_merge(
    alloc: Global,
    clock: &Clock,
    pairs: &Graph,
    held: &Held,
    snapshot: &Snapshot,
) -> Result<Merge, AllocError>
    requires covered { CoversAll clock.now.ticks pairs.now.pairs }
    requires good { IsGoodSnapshot (snapshot_value snapshot.now) }
    ensures { IfOk result (IsMergeOf clock.now.ticks pairs.now.pairs held.now (snapshot_value snapshot.now)) }
{
    let (base, base_pairs) = joined_base(alloc, clock, pairs, snapshot)?;
    let after = release_from(alloc, &base, &base_pairs, held)?;
    Ok(Merge {
        base,
        base_pairs,
        after,
    })
}

// The clock and the pairs of the base that a snapshot and what one knows and has make. What the join takes besides is let go with it.
fn joined_base(
    alloc: Global,
    clock: &Clock,
    pairs: &Graph,
    snapshot: &Snapshot,
) -> Result<(Clock, PairList), AllocError>
    requires covered { CoversAll clock.now.ticks pairs.now.pairs }
    requires good { IsGoodSnapshot (snapshot_value snapshot.now) }
    ensures joined { IfOk result (λ base.
        IsJoinedWith clock.now.ticks pairs.now.pairs (snapshot_value snapshot.now) base.0.ticks base.1) }
    ensures covered { IfOk result (λ base. CoversAll base.0.ticks base.1) }
{
    let own = TaggedSet::from_list(pairs.to_list(alloc)?)?;
    let (base, set) = join(alloc, clock, &own, snapshot)?;
    let pairs = PairList::from_list(alloc, &base, set.into_list())?;
    Ok((base, pairs))
}

// Takes those of the entries held back that a clock releases, from it and these pairs on.
fn release_from(
    alloc: Global,
    base: &Clock,
    base_pairs: &PairList,
    held: &Held,
) -> Result<Released, AllocError>
    requires ascending { IsAscending tagged_cmp base_pairs.now }
    requires covered { CoversAll base.now.ticks base_pairs.now }
    ensures released { IfOk result (IsReleasedFrom base.now.ticks base_pairs.now held.now) }
    ensures clock { IfOk result (λ _. IsClock base.now.ticks) }
{
    let mut pairs = Graph::from_pairs(alloc, base_pairs)?;
    let mut plan = begin(alloc, base)?;
    let left = release_held(alloc, &mut plan, &pairs, held)?;
    let cut = cut_of(alloc, &plan.drops, &plan.adds)?;
    pairs.prepare(alloc, &cut)?;
    pairs.apply(cut);
    Ok(Released {
        clock: plan.clock,
        pairs,
        entries: plan.entries,
        ranges: plan.ranges,
        left,
    })
}
