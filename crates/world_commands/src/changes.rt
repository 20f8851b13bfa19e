//! The commands `add`, `remove` and `update`.
ghost use Rattle.std.specs.Prelude.{◌≡◌, ◌<◌, vec_len, map, None, IfOk, OnOk};
ghost use Rattle.std.specs.Result.{result_err};
ghost use Rattle.tree_clock.specs.Limits.{tick_limit};
ghost use Rattle.tree_clock.specs.Clock.{ticks_of};
ghost use Rattle.jrql_ast.specs.InForm.{IsPlanInForm};
ghost use Rattle.jrql_ast.specs.Templates.{insertion_of, deletion_of};
ghost use Rattle.mld_ops.specs.Messages.{message_value};
ghost use Rattle.mld_model.specs.declared.CloneState.TheVariants as kinds;
ghost use Rattle.crash_laws.specs.schedule_model.declared.Command.TheVariants as commands;
ghost use Rattle.crash_laws.specs.clone_core.CloneClosing.{StaysOpen};
ghost use Rattle.world_commands.specs.Changes.{UpdatesAsReplied, SendsEntry};
ghost use Rattle.world_commands.specs.WorldParts.{HasStepLeft, KeepsDomain, HasFaultsOfParts, Does};
ghost use Rattle.world_commands.specs.WorldBanks.{MeterGoesOn};
ghost use Rattle.world_commands.specs.OneCall.{HasFaultsAt};
ghost use Rattle.world_commands.specs.LeftBanks.{LeavesState, LeavesAt, IsSilent};
ghost use Rattle.world_commands.specs.Doings.{doing_update};

use crate::faults::WorldFault;
use crate::parts::{Parts, send};
use crate::states::state_reply;
use crash_laws::clone_core::{Done, MldClone, UpdateFault};
use jrql_ast::UpdatePlan;
use mld_io::{Banks, CrashBanks};
use mld_model::CloneState;
use mld_ops::{Entry, Message};
use rdf_terms::Triple;
use schedule_replies::Reply;
use std::alloc::{AllocError, Global};
use tree_clock::{Dot, Range};

/// Clone `number` inserts a triple.
pub fn add<B: CrashBanks>(
    alloc: Global,
    parts: &mut Parts<B>,
    number: u8,
    triple: &Triple,
) -> Result<Reply<'static>, WorldFault>
    requires left { HasStepLeft B.log parts.old }
    requires number { number < vec_len parts.old.clones }
    ensures keeps { KeepsDomain B.meter number parts.old parts.new }
    ensures done { IfOk result (Does B.log parts.old (commands.Add number triple.now) parts.new) }
    ensures faults { HasFaultsOfParts B.meter number parts.old parts.new result }
    ensures left { LeavesAt B.log B.meter (doing_update (insertion_of triple.now)) (result_err result)
        number parts.old.clones.items parts.new.clones.items }
    ensures unsent { IsSilent result parts.old.messages.items parts.new.messages.items }
{
    let plan = UpdatePlan::insertion(alloc, triple.share()?)?;
    update(alloc, parts, number, &plan)
}

/// Clone `number` deletes the pairs of a triple.
pub fn remove<B: CrashBanks>(
    alloc: Global,
    parts: &mut Parts<B>,
    number: u8,
    triple: &Triple,
) -> Result<Reply<'static>, WorldFault>
    requires left { HasStepLeft B.log parts.old }
    requires number { number < vec_len parts.old.clones }
    ensures keeps { KeepsDomain B.meter number parts.old parts.new }
    ensures done { IfOk result (Does B.log parts.old (commands.Remove number triple.now) parts.new) }
    ensures faults { HasFaultsOfParts B.meter number parts.old parts.new result }
    ensures left { LeavesAt B.log B.meter (doing_update (deletion_of triple.now)) (result_err result)
        number parts.old.clones.items parts.new.clones.items }
    ensures unsent { IsSilent result parts.old.messages.items parts.new.messages.items }
{
    let plan = UpdatePlan::deletion(alloc, triple.share()?)?;
    update(alloc, parts, number, &plan)
}

/// Clone `number` deletes and inserts what a plan says.
pub fn update<B: CrashBanks>(
    alloc: Global,
    parts: &mut Parts<B>,
    number: u8,
    plan: &UpdatePlan,
) -> Result<Reply<'static>, WorldFault>
    requires left { HasStepLeft B.log parts.old }
    requires number { number < vec_len parts.old.clones }
    requires form { IsPlanInForm plan.now }
    ensures keeps { KeepsDomain B.meter number parts.old parts.new }
    ensures done { IfOk result (Does B.log parts.old (commands.Update number plan.now) parts.new) }
    ensures faults { HasFaultsOfParts B.meter number parts.old parts.new result }
    ensures left { LeavesAt B.log B.meter (doing_update plan.now) (result_err result)
        number parts.old.clones.items parts.new.clones.items }
    ensures unsent { IsSilent result parts.old.messages.items parts.new.messages.items }
{
    match &mut parts.clones[usize::from(number)] {
        CloneState::Live(clone) => update_live(alloc, number, clone, &mut parts.messages, plan),
        missing => Ok(state_reply(missing)),
    }
}

/// A live clone makes the update of a plan, and the entry of the operation that was made is sent.
fn update_live<B: CrashBanks>(
    alloc: Global,
    number: u8,
    clone: &mut MldClone<B>,
    messages: &mut Vec<Message>,
    plan: &UpdatePlan,
) -> Result<Reply<'static>, WorldFault>
    requires opened { clone.old.closed ≡ None }
    requires ticks { ticks_of clone.old.local.ticks clone.old.local.path < tick_limit }
    requires form { IsPlanInForm plan.now }
    ensures opened { OnOk result (StaysOpen clone.old clone.new) }
    ensures meter { MeterGoesOn (B.meter clone.old.banks) (B.meter clone.new.banks) }
    ensures faults { HasFaultsAt number (B.meter clone.old.banks) (B.meter clone.new.banks) result }
    ensures left { LeavesState B.log B.meter (doing_update plan.now) (result_err result)
        (kinds.Live clone.old) (kinds.Live clone.new) }
    ensures unsent { IsSilent result messages.old.items messages.new.items }
    ensures done { IfOk result (UpdatesAsReplied clone.old.local (map message_value messages.old.items)
        plan.now clone.new.local (map message_value messages.new.items)) }
{
    match clone.update(alloc, plan) {
        Ok(Done::Nothing) => Ok(Reply::NoOperation),
        Ok(Done::Made(entry)) => Ok(send_entry(messages, entry)?),
        Err(UpdateFault::TooMany) => Ok(Reply::TooMany),
        Err(UpdateFault::Single { s, p }) => Ok(Reply::Single(s, p)),
        Err(UpdateFault::NoMemory) => Err(WorldFault::NoMemory),
        Err(UpdateFault::Device) => Err(WorldFault::Device { clone: number }),
        Err(UpdateFault::Closed { .. }) => unreachable!(),
        Err(UpdateFault::TicksSpent) => unreachable!(),
    }
}

/// Sends the entry of an operation that was made.
fn send_entry(messages: &mut Vec<Message>, entry: Entry) -> Result<Reply<'static>, AllocError>
    ensures { IfOk result
        (SendsEntry (map message_value messages.old.items) entry (map message_value messages.new.items)) }
{
    let Range { path, last, .. } = entry.range();
    let dot = Dot { path, tick: last };
    let message = send(messages, Message::Range(entry))?;
    Ok(Reply::Did { dot, message })
}
