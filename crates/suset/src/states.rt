//! What someone knows and has, and snapshots of it.
ghost use Rattle.std.specs.Prelude.{◌≡◌, IfOk};
ghost use Rattle.mld_ops.specs.Messages.{snapshot_value, IsGoodSnapshot};
ghost use Rattle.mld_ops.specs.Tagged.{tagged_cmp};
ghost use Rattle.mld_ops.specs.declared.tagged.Tagged.{Tagged};
ghost use Rattle.suset.specs.SnapshotJoin.{CoversAll, IsJoinedWith};
ghost use Rattle.tree_clock.specs.Lists.{IsAscending};

use crate::sets::TaggedSet;
use mld_ops::{PairList, Snapshot, Tagged};
use std::alloc::{AllocError, Global};
use tree_clock::Clock;

/// What both know and have: the clock with the dots of both, and the join of their pairs.
pub fn join(
    alloc: Global,
    clock: &Clock,
    set: &TaggedSet,
    snapshot: &Snapshot,
) -> Result<(Clock, TaggedSet), AllocError>
    requires { IsGoodSnapshot (snapshot_value snapshot.now) }
    ensures joined { IfOk result
        (λ new. IsJoinedWith clock.now.ticks set.now (snapshot_value snapshot.now) new.0.ticks new.1) }
    ensures covered { CoversAll clock.now.ticks set.now → IfOk result (λ new. CoversAll new.0.ticks new.1) }
{
    let theirs = snapshot.tagged.to_list(alloc)?;
    let pairs = set.join(alloc, clock, &theirs, &snapshot.clock)?;
    let mut both = clock.copy_in(alloc)?;
    both.merge(&snapshot.clock)?;
    Ok((both, pairs))
}

/// The snapshot of one who knows the dots of a clock, and has just these pairs.
pub fn of_state(alloc: Global, clock: &Clock, list: Vec<Tagged>) -> Result<Snapshot, AllocError>
    requires ascending { IsAscending tagged_cmp list.items }
    requires covered { CoversAll clock.now.ticks list.items }
    ensures value { IfOk result
        (λ snapshot. snapshot_value snapshot ≡ record { ticks = clock.now.ticks; pairs = list.items }) }
    ensures good { IfOk result (λ snapshot. IsGoodSnapshot (snapshot_value snapshot)) }
{
    Ok(Snapshot {
        clock: clock.copy_in(alloc)?,
        tagged: PairList::from_list(alloc, clock, list)?,
    })
}
