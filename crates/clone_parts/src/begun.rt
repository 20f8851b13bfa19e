//! What one begins with who joins by a snapshot.
ghost use Rattle.std.specs.Prelude.{IfOk};
ghost use Rattle.clone_parts.specs.Begun.{AreBegunWith};
ghost use Rattle.mld_ops.specs.Messages.{snapshot_value, IsGoodSnapshot};

use graph_index::Graph;
use mld_ops::Snapshot;
use std::alloc::{AllocError, Global};
use tree_clock::Clock;

/// A copy of a good snapshot for the base of a clone, and its clock and its pairs for the clone.
pub fn begun_with(
    alloc: Global,
    snapshot: &Snapshot,
) -> Result<(Snapshot, Clock, Graph), AllocError>
    requires { IsGoodSnapshot (snapshot_value snapshot.now) }
    ensures { IfOk result (AreBegunWith snapshot.now) }
{
    let base = snapshot.copy_in(alloc)?;
    let clock = snapshot.clock.copy_in(alloc)?;
    let pairs = Graph::from_pairs(alloc, &snapshot.tagged)?;
    Ok((base, clock, pairs))
}
