//! What the entries that a clock knows lead to.
ghost use Rattle.std.specs.Prelude.{◌≡◌, IfOk, OnOk};
ghost use Rattle.clone_history.specs.PastParts.{AreReadyKept, LeadsToPairs, LeadsWithin};
ghost use Rattle.mld_ops.specs.Cut.{IsCutOf};
ghost use Rattle.mld_ops.specs.Ready.{last_dot};
ghost use Rattle.mld_ops.specs.Tagged.{tagged_cmp};
ghost use Rattle.tree_clock.specs.Clock.{RaisesTo, ticks_of};
ghost use Rattle.tree_clock.specs.Lists.{IsAscending};

use crate::checks::last_dot;
use clone_core::clone_parts::tell_clock;
use graph_index::Graph;
use mld_ops::{Entry, PairList};
use op_fusion::cut;
use std::alloc::{AllocError, Global};
use tree_clock::Clock;

/// The pairs that the entries which a clock knows lead to, in order, from a base on.
pub(crate) fn pairs_within(
    alloc: Global,
    base: &Clock,
    pairs: &PairList,
    entries: &[Entry],
    clock: &Clock,
) -> Result<Graph, AllocError>
    requires ascending { IsAscending tagged_cmp pairs.now }
    requires ready { AreReadyKept clock.now.ticks base.now.ticks entries.now }
    ensures { IfOk result (λ graph.
        LeadsToPairs clock.now.ticks entries.now base.now.ticks pairs.now graph.pairs) }
{
    let mut own = base.copy_in(alloc)?;
    let mut graph = Graph::from_pairs(alloc, pairs)?;
    take_within(alloc, &mut own, &mut graph, entries, clock)?;
    tell_clock(&own);
    Ok(graph)
}

// Takes the entries that a clock knows, one after another.
fn take_within(
    alloc: Global,
    own: &mut Clock,
    pairs: &mut Graph,
    entries: &[Entry],
    clock: &Clock,
) -> Result<(), AllocError>
    requires { AreReadyKept clock.now.ticks own.old.ticks entries.now }
    ensures { OnOk result
        (LeadsWithin clock.now.ticks entries.now own.old.ticks pairs.old.pairs own.new.ticks pairs.new.pairs) }
{
    for entry in entries {
        if clock.covers(&last_dot(entry)) {
            take(alloc, own, pairs, entry)?;
        }
    }
    Ok(())
}

// Takes an entry.
fn take(alloc: Global, own: &mut Clock, pairs: &mut Graph, entry: &Entry) -> Result<(), AllocError>
    ensures raised { OnOk result (RaisesTo own.old.ticks own.new.ticks (last_dot entry.now.range)) }
    ensures cut { OnOk result
        (IsCutOf entry.now (ticks_of own.old.ticks entry.now.range.path) pairs.old.pairs pairs.new.pairs) }
{
    let last = last_dot(entry);
    let cut = cut(alloc, entry, own, pairs)?;
    own.reserve(&last.path)?;
    pairs.prepare(alloc, &cut)?;
    pairs.apply(cut);
    own.raise(&last);
    Ok(())
}
