//! Taking back operations of one's own.
ghost use Rattle.std.specs.Prelude.{◌≡◌, ◌≢◌, ◌↔◌, List, None, Some, IfOk, IfErr, IsOk, OnOk, IsErrOf};
ghost use Rattle.jrql_ast.specs.InForm.{IsPlanInForm};
ghost use Rattle.clone_core.specs.clone_parts.KeptSteps.{KeptStep};
ghost use Rattle.clone_core.specs.clone_parts.declared.faults.UpdateFault.{UpdateFault};
ghost use Rattle.clone_core.specs.journal_store.declared.faults.Why.{Why};
ghost use Rattle.clone_core.specs.CloneClosing.{LeavesClone, StaysOpen};
ghost use Rattle.clone_core.specs.DurableCalls.{Changes};
ghost use Rattle.clone_history.specs.Undoing.{IsUndo, IsOwnLost, IsUndoSpent, IsDueUndo, LocallyUndoes, RefusesUndo, RefusesUndoing, RestoresTriples, UndoSteps, undo_stop};

use crate::faults::UndoFault;
use crate::plans::plan_against;
use clone_core::{Done, MldClone, UpdateFault};
use jrql_ast::UpdatePlan;
use mld_io::Banks;
use std::alloc::Global;
use tree_clock::{Dot, Range};

/// Takes back the operation of a dot, which is of the clone's own path and of which the journal keeps an entry of its own, by an update: of the triples
/// that it inserts those are deleted that have its pair alone and of which it deletes no pair, and of those of which it deletes a pair those are inserted
/// that have none.
///
/// # Errors
///
/// In this order: `Update(Closed)` where an earlier call closed the clone; `NotOwn` where the dot isn't of the clone's own path; `NotKept` where the
/// journal has no range of just that dot; `Update` as `MldClone::update` refuses the plan, and leaves the clone as it says; `NoMemory`, which leaves it
/// as it was. So do `NotOwn` and `NotKept`.
pub fn undo<B: Banks>(alloc: Global, clone: &mut MldClone<B>, dot: &Dot) -> Result<Done, UndoFault>
    ensures ok { IfOk result (λ done. LocallyUndoes clone.old.local dot.now done clone.new.local) }
    ensures restores { OnOk result (RestoresTriples clone.old.local dot.now clone.new.local) }
    ensures opened { OnOk result (StaysOpen clone.old clone.new) }
    ensures closed { (why : Why) → IsErrOf result (UndoFault.Update (UpdateFault.Closed why))
        ↔ (clone.old.closed ≡ Some why) }
    ensures not_own { IsErrOf result UndoFault.NotOwn
        ↔ ((clone.old.closed ≡ None) × (dot.now.path ≢ clone.old.local.path)) }
    ensures not_kept { IsErrOf result UndoFault.NotKept
        ↔ ((clone.old.closed ≡ None) × IsOwnLost clone.old.local dot.now) }
    ensures spent { IsErrOf result (UndoFault.Update UpdateFault.TicksSpent)
        ↔ (IsUndoSpent clone.old dot.now × ¬ IsErrOf result UndoFault.NoMemory) }
    ensures refused { IfErr result (RefusesUndo clone.old.local dot.now) }
    ensures left { IfErr result (λ fault.
        LeavesClone B.log B.meter (IsDueUndo clone.old.local dot.now) ⊥ clone.old clone.new (undo_stop fault)) }
    ensures durable { (steps : List KeptStep) × UndoSteps clone.old.local dot.now result steps
        × Changes B.log B.meter steps clone.old clone.new.banks (IsOk result)
        (IsErrOf result (UndoFault.Update UpdateFault.Device)) }
{
    // It tells that the clone is one.
    clone.known();
    let plan = undo_plan(alloc, clone, dot)?;
    Ok(clone.update(alloc, &plan)?)
}

/// The plan of the update that takes back the operation of a dot. Nothing changes.
///
/// # Errors
///
/// In this order: `Update(Closed)`, `NotOwn` and `NotKept`, as of `undo`; and `NoMemory`.
pub fn undo_plan<B: Banks>(
    alloc: Global,
    clone: &MldClone<B>,
    dot: &Dot,
) -> Result<UpdatePlan, UndoFault>
    ensures plan { IfOk result (IsUndo clone.now.local dot.now) }
    ensures form { IfOk result IsPlanInForm }
    ensures closed { (why : Why) → IsErrOf result (UndoFault.Update (UpdateFault.Closed why))
        ↔ (clone.now.closed ≡ Some why) }
    ensures not_own { IsErrOf result UndoFault.NotOwn
        ↔ ((clone.now.closed ≡ None) × (dot.now.path ≢ clone.now.local.path)) }
    ensures not_kept { IsErrOf result UndoFault.NotKept
        ↔ ((clone.now.closed ≡ None) × IsOwnLost clone.now.local dot.now) }
    ensures refused { IfErr result (RefusesUndoing clone.now.local dot.now) }
{
    if let Some(why) = clone.is_closed() {
        return Err(UndoFault::Update(UpdateFault::Closed { why }));
    }
    if clone.path() != dot.path {
        return Err(UndoFault::NotOwn);
    }
    let range = Range {
        path: dot.path,
        first: dot.tick,
        last: dot.tick,
    };
    let Some(entry) = clone.entry_of(&range) else {
        return Err(UndoFault::NotKept);
    };
    Ok(plan_against(alloc, entry, clone.pairs())?)
}
