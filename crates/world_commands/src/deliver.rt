//! The command `deliver`.
ghost use Rattle.std.specs.Prelude.{◌≡◌, ◌≢◌, ◌<◌, ◌^◌, ◌-◌, None, vec_len, map, option_copied, IfOk, IfErr, OnOk};
ghost use Rattle.std.specs.Result.{result_err};
ghost use Rattle.mld_ops.specs.Messages.{message_value, IsGoodMessage};
ghost use Rattle.mld_model.specs.declared.CloneState.TheVariants as kinds;
ghost use Rattle.crash_laws.specs.schedule_model.declared.Command.TheVariants as commands;
ghost use Rattle.crash_laws.specs.clone_core.Banked.{BankedAsker};
ghost use Rattle.mld_model.specs.LocalStep.{IsForeignTo};
ghost use Rattle.world_commands.specs.Delivering.{IsFitFor, ReceivesAt, ReceivesLive, IsToldOf, SendsAnswers};
ghost use Rattle.world_commands.specs.States.{HasState};
ghost use Rattle.world_commands.specs.WorldBanks.{in_memory, banks_of_state, MeterGoesOn, HasFaultsFor};
ghost use Rattle.world_commands.specs.OneCall.{UsesBanksOf, HasFaultsAt, StaysOpenNext, IsCarriedAt};
ghost use Rattle.mld_model.specs.World.{numbered};
ghost use Rattle.world_commands.specs.declared.faults.WorldFault.TheVariants.{NoMemory};
ghost use Rattle.world_commands.specs.WorldParts.{HasStepLeft, KeepsDomain, HasFaultsOfParts, Does};
ghost use Rattle.world_commands.specs.LeftBanks.{LeavesState, LeavesAt, IsSilent};
ghost use Rattle.world_commands.specs.Doings.{doing_receive, doing_deliver};

use crate::faults::{WorldFault, made_fault};
use crate::parts::Parts;
use crate::states::{RunningClone, put_state, state_reply, take_state};
use crash_laws::clone_core::{Adopted, Got, MldClone, ReceiveFault};
use mld_io::{Banks, CrashBanks};
use mld_model::CloneState;
use mld_ops::{Message, Messages};
use schedule_replies::Reply;
use std::alloc::Global;
use std::thread::Threads;

/// What a clone does with a message.
#[derive(Drop)]
enum Received {
    /// It answers at once.
    Told(Reply<'static>),
    /// It sends messages.
    Sends(Messages),
}

/// Message `message` comes to clone `number`.
pub fn deliver<R: Threads + Sync, B: CrashBanks>(
    rt: &R,
    alloc: Global,
    parts: &mut Parts<B>,
    message: u64,
    number: u8,
) -> Result<Reply<'static>, WorldFault>
    requires left { HasStepLeft B.log parts.old }
    requires number { number < vec_len parts.old.clones }
    ensures keeps { KeepsDomain B.meter number parts.old parts.new }
    ensures done { IfOk result (Does B.log parts.old (commands.Deliver message number) parts.new) }
    ensures faults { HasFaultsOfParts B.meter number parts.old parts.new result }
    ensures left { LeavesAt B.log B.meter (doing_deliver parts.old.messages.items message) (result_err result)
        number parts.old.clones.items parts.new.clones.items }
    ensures unsent { IsSilent result parts.old.messages.items parts.new.messages.items }
{
    let Some(message) = message_at(parts.messages.as_slice(), message) else {
        return Ok(Reply::NoMessage);
    };
    match receive_at(rt, alloc, &mut parts.clones, number, message) {
        Ok(Received::Told(reply)) => Ok(reply),
        Ok(Received::Sends(answers)) => send_answers(&mut parts.messages, answers),
        Err(error) => Err(error),
    }
}

/// The message of a number; the first has number 1.
fn message_at(messages: &[Message], number: u64) -> Option<&Message>
    ensures { option_copied result ≡ numbered messages.now number }
{
    let before = number.checked_sub(1)?;
    messages.get(usize::try_from(before).ok()?)
}

/// Clone `number` receives a message.
fn receive_at<R: Threads + Sync, B: CrashBanks>(
    rt: &R,
    alloc: Global,
    clones: &mut Vec<RunningClone<B>>,
    number: u8,
    message: &Message,
) -> Result<Received, WorldFault>
    requires number { number < vec_len clones.old }
    requires fit { IsFitFor clones.old.items number (message_value message.now) }
    ensures ok { IfOk result
        (ReceivesAt (map in_memory clones.old.items) (map in_memory clones.new.items) number message.now) }
    ensures carried { OnOk result (IsCarriedAt clones.old.items clones.new.items number) }
    ensures banks { UsesBanksOf B.meter number
        (map banks_of_state clones.old.items) (map banks_of_state clones.new.items) }
    ensures faults { HasFaultsFor number B.meter
        (map banks_of_state clones.old.items) (map banks_of_state clones.new.items) result }
    ensures left { LeavesAt B.log B.meter (doing_receive message.now) (result_err result)
        number clones.old.items clones.new.items }
{
    match &mut clones[usize::from(number)] {
        CloneState::Live(clone) => receive_live(rt, alloc, number, clone, message),
        CloneState::Asking(_) => receive_asking(rt, alloc, clones, number, message),
        away => Ok(Received::Told(state_reply(away))),
    }
}

/// A live clone, which has a generation left, receives a message.
fn receive_live<R: Threads + Sync, B: CrashBanks>(
    rt: &R,
    alloc: Global,
    number: u8,
    clone: &mut MldClone<B>,
    message: &Message,
) -> Result<Received, WorldFault>
    requires own { ¬ IsForeignTo clone.old.local (message_value message.now) }
    requires opened { clone.old.closed ≡ None }
    requires left { clone.old.generation ≢ 2 ^ 64 - 1 }
    requires good { IsGoodMessage (message_value message.now) }
    ensures ok { IfOk result (ReceivesLive clone.old.local message.now clone.new.local) }
    ensures opened { OnOk result (StaysOpenNext clone.old clone.new) }
    ensures meter { MeterGoesOn (B.meter clone.old.banks) (B.meter clone.new.banks) }
    ensures faults { HasFaultsAt number (B.meter clone.old.banks) (B.meter clone.new.banks) result }
    ensures left { LeavesState B.log B.meter (doing_receive message.now) (result_err result)
        (kinds.Live clone.old) (kinds.Live clone.new) }
{
    match clone.receive(rt, alloc, message) {
        Ok(Got::Took(ranges)) => Ok(Received::Told(Reply::Took(ranges))),
        Ok(Got::Merged(ranges)) => Ok(Received::Told(Reply::Merged(ranges))),
        Ok(Got::Held) => Ok(Received::Told(Reply::Held)),
        Ok(Got::Known) => Ok(Received::Told(Reply::Known)),
        Ok(Got::Nothing) => Ok(Received::Told(Reply::Nothing)),
        Ok(Got::Ignored) => Ok(Received::Told(Reply::Ignored)),
        Ok(Got::Answer(answers)) => Ok(Received::Sends(answers)),
        Err(ReceiveFault::HeldFull) => Ok(Received::Told(Reply::HeldFull)),
        Err(ReceiveFault::Deep) => Ok(Received::Told(Reply::Deep)),
        Err(ReceiveFault::NoMemory) => Err(WorldFault::NoMemory),
        Err(ReceiveFault::Device) => Err(WorldFault::Device { clone: number }),
        Err(ReceiveFault::Closed { .. }) => unreachable!(),
        Err(ReceiveFault::ForeignTick { .. }) => unreachable!(),
        Err(ReceiveFault::GenerationsSpent) => unreachable!(),
    }
}

/// Clone `number`, which asks for a leaf, receives a message.
fn receive_asking<R: Threads + Sync, B: CrashBanks>(
    rt: &R,
    alloc: Global,
    clones: &mut Vec<RunningClone<B>>,
    number: u8,
    message: &Message,
) -> Result<Received, WorldFault>
    requires asks { (asking : BankedAsker B) × HasState clones.old.items number (kinds.Asking asking) }
    requires good { IsGoodMessage (message_value message.now) }
    ensures ok { IfOk result
        (ReceivesAt (map in_memory clones.old.items) (map in_memory clones.new.items) number message.now) }
    ensures carried { OnOk result (IsCarriedAt clones.old.items clones.new.items number) }
    ensures banks { UsesBanksOf B.meter number
        (map banks_of_state clones.old.items) (map banks_of_state clones.new.items) }
    ensures faults { HasFaultsFor number B.meter
        (map banks_of_state clones.old.items) (map banks_of_state clones.new.items) result }
    ensures left { LeavesAt B.log B.meter (doing_receive message.now) (result_err result)
        number clones.old.items clones.new.items }
{
    let CloneState::Asking(asker) = take_state(clones, number) else {
        unreachable!()
    };
    let (state, received) = told_of(number, asker.receive(rt, alloc, message));
    put_state(clones, number, state);
    received
}

/// What one who asked is now, and its answer.
fn told_of<B: CrashBanks>(
    number: u8,
    adopted: Adopted<B>,
) -> (RunningClone<B>, Result<Received, WorldFault>)
    ensures { IsToldOf number adopted result }
{
    match adopted {
        Adopted::Joined(clone) => {
            let path = clone.path();
            (
                CloneState::Live(clone),
                Ok(Received::Told(Reply::Joined(path))),
            )
        }
        Adopted::Ignored(asker) => (
            CloneState::Asking(asker),
            Ok(Received::Told(Reply::Ignored)),
        ),
        Adopted::Refused(fault, banks) => {
            (CloneState::Down(banks), Err(made_fault(number, fault)))
        }
    }
}

/// Sends the messages that answer another.
fn send_answers(
    messages: &mut Vec<Message>,
    answers: Messages,
) -> Result<Reply<'static>, WorldFault>
    ensures sent { IfOk result
        (SendsAnswers (map message_value messages.old.items) answers (map message_value messages.new.items)) }
    ensures memory { IfErr result (λ fault. fault ≡ NoMemory) }
{
    let first = messages.len() + 1;
    let end = first + answers.len();
    messages.append(&mut answers.into_vec())?;
    Ok(Reply::Answer { first, end })
}
