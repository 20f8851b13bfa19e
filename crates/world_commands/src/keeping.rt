//! The commands `compact` and `truncate`: what a clone keeps of its journal.
ghost use Rattle.std.specs.Prelude.{◌≡◌, ◌≢◌, ◌<◌, ◌^◌, ◌-◌, ℕ, length, vec_len, None, IfOk, IsOk, IsErrOf, OnOk};
ghost use Rattle.std.specs.Result.{result_err};
ghost use Rattle.mld_io.specs.Arm.{Metered};
ghost use Rattle.crash_laws.specs.journal_store.declared.faults.Why.{Why};
ghost use Rattle.mld_model.specs.declared.CloneState.TheVariants as kinds;
ghost use Rattle.world_commands.specs.KeptJournals.{keeping_command, KeepsBy, KeepsAs, fault_of_keeping};
ghost use Rattle.world_commands.specs.WorldBanks.{MeterGoesOn};
ghost use Rattle.world_commands.specs.OneCall.{HasFaultsAt};
ghost use Rattle.world_commands.specs.LeftBanks.{LeavesState, LeavesAt, IsSilent};
ghost use Rattle.world_commands.specs.Doings.{doing_keep};
ghost use Rattle.world_commands.specs.WorldParts.{HasStepLeft, KeepsDomain, HasFaultsOfParts, Does};

use crate::faults::WorldFault;
use crate::parts::Parts;
use crate::states::state_reply;
use crash_laws::clone_core::{KeepFault, MldClone};
use mld_io::{Banks, CrashBanks};
use mld_model::CloneState;
use schedule_replies::Reply;
use std::alloc::Global;

/// What is kept of a journal.
#[derive(Clone, Copy)]
pub enum Keeping {
    /// All of it, compacted.
    Compacted,
    /// So many ranges at its end.
    Last(u64),
}

/// Clone `number`, which is live, keeps so much of its journal.
pub fn keep<B: CrashBanks>(
    alloc: Global,
    parts: &mut Parts<B>,
    number: u8,
    keeping: Keeping,
) -> Result<Reply<'static>, WorldFault>
    requires left { HasStepLeft B.log parts.old }
    requires number { number < vec_len parts.old.clones }
    ensures keeps { KeepsDomain B.meter number parts.old parts.new }
    ensures done { IfOk result (Does B.log parts.old (keeping_command number keeping) parts.new) }
    ensures faults { HasFaultsOfParts B.meter number parts.old parts.new result }
    ensures left { LeavesAt B.log B.meter (doing_keep keeping) (result_err result)
        number parts.old.clones.items parts.new.clones.items }
    ensures unsent { IsSilent result parts.old.messages.items parts.new.messages.items }
{
    match &mut parts.clones[usize::from(number)] {
        CloneState::Live(clone) => keep_live(alloc, number, clone, keeping),
        missing => Ok(state_reply(missing)),
    }
}

/// A live clone, which has a generation left, keeps so much of its journal.
fn keep_live<B: CrashBanks>(
    alloc: Global,
    number: u8,
    clone: &mut MldClone<B>,
    keeping: Keeping,
) -> Result<Reply<'static>, WorldFault>
    requires opened { clone.old.closed ≡ None }
    requires left { clone.old.generation ≢ 2 ^ 64 - 1 }
    ensures opened { OnOk result (clone.new.closed ≡ None) }
    ensures meter { MeterGoesOn (B.meter clone.old.banks) (B.meter clone.new.banks) }
    ensures faults { HasFaultsAt number (B.meter clone.old.banks) (B.meter clone.new.banks) result }
    ensures done { IfOk result (KeepsAs keeping clone.old clone.new) }
    ensures left { LeavesState B.log B.meter (doing_keep keeping) (result_err result)
        (kinds.Live clone.old) (kinds.Live clone.new) }
{
    match kept(alloc, clone, keeping) {
        Ok(count) => Ok(Reply::Kept(count)),
        Err(KeepFault::NoMemory) => Err(WorldFault::NoMemory),
        Err(KeepFault::Device) => Err(WorldFault::Device { clone: number }),
        Err(KeepFault::Closed { .. }) => unreachable!(),
        Err(KeepFault::GenerationsSpent) => unreachable!(),
    }
}

/// How many ranges the journal of such a clone has then.
fn kept<B: Banks>(
    alloc: Global,
    clone: &mut MldClone<B>,
    keeping: Keeping,
) -> Result<u64, KeepFault>
    requires opened { clone.old.closed ≡ None }
    requires left { clone.old.generation ≢ 2 ^ 64 - 1 }
    ensures done { IfOk result
        (λ count. KeepsBy keeping clone.old clone.new × (count ≡ length clone.new.local.entries)) }
    ensures opened { OnOk result (clone.new.closed ≡ None) }
    ensures closed { (why : Why) → ¬ IsErrOf result (KeepFault.Closed why) }
    ensures spent { ¬ IsErrOf result KeepFault.GenerationsSpent }
    ensures meter { (calls : ℕ) × Metered calls (B.meter clone.old.banks) (B.meter clone.new.banks) (IsOk result)
        (IsErrOf result KeepFault.Device) }
    ensures left { (number : ℕ) → LeavesState B.log B.meter (doing_keep keeping) (fault_of_keeping number result)
        (kinds.Live clone.old) (kinds.Live clone.new) }
{
    match keeping {
        Keeping::Compacted => clone.compact(alloc),
        Keeping::Last(count) => clone.truncate(alloc, count),
    }
}
