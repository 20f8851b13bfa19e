//! Past states.
ghost use Rattle.std.specs.Prelude.{◌≡◌, ◌↔◌, Some, IfOk, IfErr, OnOk, IsErrOf};
ghost use Rattle.clone_core.specs.journal_store.declared.faults.Why.{Why};
ghost use Rattle.clone_history.specs.PastStates.{HasStateAt, IsStateAt, MeansAsDots, RefusesPast};

use crate::checks::can_tell;
use crate::faults::PastFault;
use crate::taking::pairs_within;
use clone_core::MldClone;
use graph_index::Graph;
use mld_io::Banks;
use mld_ops::Tagged;
use std::alloc::Global;
use tree_clock::Clock;

/// The pairs of a clone at an earlier clock, ascending: what the entries of its journal whose last dot is one of the clock's lead to from its base on.
///
/// # Errors
///
/// In this order, each with the first case: `Closed` where an earlier call closed the clone; `Unknown` where the last dot of the clock at some path
/// isn't known, by path; `BehindBase` where the base isn't a part of the clock; `Split` where neither the base nor a range of the journal ends at the
/// last dot of the clock at some path, by path; `NotClosed` where the last dot of a range is one of the clock's and its time isn't a part of the
/// clock, in the order of the journal; and `NoMemory`.
pub fn as_of<B: Banks>(
    alloc: Global,
    clone: &MldClone<B>,
    clock: &Clock,
) -> Result<Vec<Tagged>, PastFault>
    ensures state { IfOk result (λ past. IsStateAt clone.now.local clock.now.ticks past.items) }
    ensures meaning { IfOk result (λ past. MeansAsDots clone.now.local clock.now.ticks past.items) }
    ensures told { OnOk result (HasStateAt clone.now.local clock.now.ticks) }
    ensures closed { (why : Why) → IsErrOf result (PastFault.Closed why) ↔ (clone.now.closed ≡ Some why) }
    ensures refused { IfErr result (RefusesPast clone.now.local clock.now.ticks) }
{
    let graph = graph_as_of(alloc, clone, clock)?;
    Ok(graph.into_list(alloc)?)
}

/// The same pairs as a graph.
///
/// # Errors
///
/// As `as_of`.
pub fn graph_as_of<B: Banks>(
    alloc: Global,
    clone: &MldClone<B>,
    clock: &Clock,
) -> Result<Graph, PastFault>
    ensures state { IfOk result (λ past. IsStateAt clone.now.local clock.now.ticks past.pairs) }
    ensures meaning { IfOk result (λ past. MeansAsDots clone.now.local clock.now.ticks past.pairs) }
    ensures told { OnOk result (HasStateAt clone.now.local clock.now.ticks) }
    ensures closed { (why : Why) → IsErrOf result (PastFault.Closed why) ↔ (clone.now.closed ≡ Some why) }
    ensures refused { IfErr result (RefusesPast clone.now.local clock.now.ticks) }
{
    if let Some(why) = clone.is_closed() {
        return Err(PastFault::Closed { why });
    }
    can_tell(alloc, clone, clock)?;
    // It tells that the clone is one.
    clone.known();
    Ok(pairs_within(
        alloc,
        clone.base(),
        clone.base_pairs(),
        clone.journal(),
        clock,
    )?)
}
