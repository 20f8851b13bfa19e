//! The laws of joins, for all lawful histories. These functions do nothing: their clauses are the laws.
ghost use Rattle.suset.specs.JoinLaws.{JoinIsOne, JoinIsClosed, JoinIsMeaning, JoinCommutes, JoinAssociates, JoinIsIdempotent};
ghost use Rattle.suset.specs.SnapshotJoin.{JoinedWithIsState};

/// What a join is. Two lists and two clocks have one. Where each side knows a closed set of dots, and has their meaning, the dots of
/// both together are closed, and the join is their meaning. So the order and the grouping of joins make no difference, and what is
/// joined with itself stays as it was.
pub fn joined_states()
    ensures one { JoinIsOne }
    ensures closed { JoinIsClosed }
    ensures meaning { JoinIsMeaning }
    ensures commutes { JoinCommutes }
    ensures associates { JoinAssociates }
    ensures idempotent { JoinIsIdempotent }
{}

/// One who knows a closed set of dots and has their meaning, joined with a snapshot of another such one, knows the dots of both, and
/// has their meaning.
pub fn joined_snapshots()
    ensures { JoinedWithIsState }
{}
