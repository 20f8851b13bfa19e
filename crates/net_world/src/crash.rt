//! The line `crash`: the device of a clone is armed to crash at a call, a command is done, and then the clone is down with what the crash
//! leaves.
ghost use Rattle.std.specs.Prelude.{◌≡◌, ◌↔◌, ◌<◌, vec_len, map, IsTrue, IfOk};
ghost use Rattle.std.specs.Result.{result_err};
ghost use Rattle.mld_model.specs.Local.{IsNamed};
ghost use Rattle.schedule_text.specs.schedule_model.Step.{IsTaskInForm};
ghost use Rattle.schedule_text.specs.schedule_model.declared.Command.TheVariants as commands;
ghost use Rattle.schedule_text.specs.schedule_model.Tasks.{command_of, number_of_task, IsToOpen};
ghost use Rattle.world_commands.specs.LeftBanks.{LeavesAt, IsSilent};
ghost use Rattle.world_commands.specs.WorldBanks.{banks_of_state};
ghost use Rattle.world_commands.specs.WorldParts.{HasStepLeft, KeepsDomain, HasFaultsOfParts, Does};
ghost use Rattle.net_world.specs.LeftBehind.{LeavesBanksOf};
ghost use Rattle.net_world.specs.DeviceUses.{UsesDeviceAfter};
ghost use Rattle.net_world.specs.CrashedWorlds.{AreUnarmed, IsArmedIn, IsArmedAs, ArmsAt, CutsPower, doing_task, IsEndedAs, IsUnarmedAs, CrashesAs};

use mld_io::{Banks, CrashBanks, Leave};
use mld_model::CloneState;
use schedule_text::schedule_model::CrashTask;
use std::alloc::Global;
use std::thread::Threads;
use world_commands::changes::{add, remove, update};
use world_commands::deliver::deliver;
use world_commands::keeping::{Keeping, keep};
use world_commands::opening::open;
use world_commands::schedule_replies::Reply;
use world_commands::stopping::banks_of_state;
use world_commands::{Parts, RunningClone, WorldFault, put_state, take_state};

/// How a crash line ended.
#[derive(Drop)]
pub enum Crashed {
    /// The device isn't armed, since the clone is absent, or down and not told to open: this is the reply of the command.
    Unarmed(Reply<'static>),
    /// A call of the device was caught.
    Caught,
    /// None was: this is the reply of the command, and then the clone crashed.
    Behind(Reply<'static>),
}

/// Does a crash line: the call of this number, the first of which is 0, is caught. Its device, where it was armed, is revived however the
/// command ended, and leaves so much of what wasn't synced; the clone is down then. One that isn't armed isn't called.
///
/// # Errors
///
/// `Device` where the device failed and no call was caught, and `NoMemory`.
pub fn crash<R: Threads + Sync, B: CrashBanks>(
    rt: &R,
    alloc: Global,
    parts: &mut Parts<B>,
    call: u32,
    leave: Leave,
    task: &CrashTask,
) -> Result<Crashed, WorldFault>
    requires left { HasStepLeft B.log parts.old }
    requires named { IsNamed parts.old.domain parts.old.properties.items }
    requires number { number_of_task task.now < vec_len parts.old.clones }
    requires form { IsTaskInForm task.now }
    requires unarmed { AreUnarmed B.meter (map banks_of_state parts.old.clones.items) }
    ensures keeps { KeepsDomain B.meter (number_of_task task.now) parts.old parts.new }
    ensures done { IfOk result (CrashesAs B.log parts.old call leave task.now parts.new) }
    ensures left { LeavesBanksOf B.log parts.old (command_of task.now) (number_of_task task.now) parts.new }
    ensures faults { HasFaultsOfParts B.meter (number_of_task task.now) parts.old parts.new result }
    ensures device { UsesDeviceAfter B.log B.meter parts.old (commands.Crash call leave task.now) parts.new
        (result_err result) }
{
    let number = number_of(task);
    if !is_armed(&parts.clones[usize::from(number)], task) {
        return unarmed(do_task(rt, alloc, parts, task));
    }
    arm_at(&mut parts.clones, number, call, leave);
    let done = do_task(rt, alloc, parts, task);
    let is_caught = cut_power(&mut parts.clones, number);
    ended(done, is_caught)
}

/// How a crash line ended whose device isn't armed.
fn unarmed(done: Result<Reply<'static>, WorldFault>) -> Result<Crashed, WorldFault>
    ensures { IsUnarmedAs done.entry result }
{
    match done {
        Ok(reply) => Ok(Crashed::Unarmed(reply)),
        Err(fault) => Err(fault),
    }
}

/// How a crash line ended whose command ended so, where a call was caught or wasn't.
fn ended(done: Result<Reply<'static>, WorldFault>, is_caught: bool) -> Result<Crashed, WorldFault>
    ensures { IsEndedAs done.entry (IsTrue is_caught) result }
{
    match done {
        Ok(reply) => Ok(Crashed::Behind(reply)),
        Err(WorldFault::NoMemory) => Err(WorldFault::NoMemory),
        Err(WorldFault::Device { clone }) => {
            if is_caught {
                Ok(Crashed::Caught)
            } else {
                Err(WorldFault::Device { clone })
            }
        }
    }
}

/// The number of the clone of a crash line.
pub fn number_of(task: &CrashTask) -> u8
    ensures { result ≡ number_of_task task.now }
{
    match task {
        CrashTask::Add(number, _) => *number,
        CrashTask::Remove(number, _) => *number,
        CrashTask::Update(number, _) => *number,
        CrashTask::Deliver(_, number) => *number,
        CrashTask::Compact(number) => *number,
        CrashTask::Truncate(number, _) => *number,
        CrashTask::Open(number) => *number,
    }
}

/// Whether the device of a clone in this state is armed: it is live or asks, or it is down and told to open.
fn is_armed<B: CrashBanks>(state: &RunningClone<B>, task: &CrashTask) -> bool
    ensures { IsTrue result ↔ IsArmedIn state.now task.now }
{
    match state {
        CloneState::Absent(_) => false,
        CloneState::Asking(_) => true,
        CloneState::Live(_) => true,
        CloneState::Down(_) => is_opening(task),
    }
}

/// Whether the command is `open`.
fn is_opening(task: &CrashTask) -> bool
    ensures { IsTrue result ↔ IsToOpen task.now }
{
    matches!(task, CrashTask::Open(_))
}

/// Arms the device of clone `number`.
fn arm_at<B: CrashBanks>(clones: &mut Vec<RunningClone<B>>, number: u8, call: u32, leave: Leave)
    requires { number < vec_len clones.old }
    ensures { ArmsAt B.log B.meter call leave number clones.old.items clones.new.items }
{
    arm(&mut clones[usize::from(number)], call, leave);
}

/// Arms the device of a clone.
fn arm<B: CrashBanks>(state: &mut RunningClone<B>, call: u32, leave: Leave)
    ensures { IsArmedAs B.log B.meter call leave state.old state.new }
{
    match state {
        CloneState::Live(clone) => clone.arm(call, leave),
        CloneState::Asking(asker) => asker.arm(call, leave),
        CloneState::Down(banks) => banks.arm(call, leave),
        CloneState::Absent(blank) => blank.arm(call, leave),
    }
}

/// Does the command of a crash line.
fn do_task<R: Threads + Sync, B: CrashBanks>(
    rt: &R,
    alloc: Global,
    parts: &mut Parts<B>,
    task: &CrashTask,
) -> Result<Reply<'static>, WorldFault>
    requires left { HasStepLeft B.log parts.old }
    requires named { IsNamed parts.old.domain parts.old.properties.items }
    requires number { number_of_task task.now < vec_len parts.old.clones }
    requires form { IsTaskInForm task.now }
    ensures keeps { KeepsDomain B.meter (number_of_task task.now) parts.old parts.new }
    ensures done { IfOk result (Does B.log parts.old (command_of task.now) parts.new) }
    ensures left { LeavesAt B.log B.meter (doing_task parts.old.messages.items task.now) (result_err result)
        (number_of_task task.now) parts.old.clones.items parts.new.clones.items }
    ensures unsent { IsSilent result parts.old.messages.items parts.new.messages.items }
    ensures faults { HasFaultsOfParts B.meter (number_of_task task.now) parts.old parts.new result }
{
    match task {
        CrashTask::Add(number, triple) => add(alloc, parts, *number, triple),
        CrashTask::Remove(number, triple) => remove(alloc, parts, *number, triple),
        CrashTask::Update(number, plan) => update(alloc, parts, *number, plan),
        CrashTask::Deliver(message, number) => deliver(rt, alloc, parts, *message, *number),
        CrashTask::Compact(number) => keep(alloc, parts, *number, Keeping::Compacted),
        CrashTask::Truncate(number, count) => keep(alloc, parts, *number, Keeping::Last(*count)),
        CrashTask::Open(number) => open(rt, alloc, parts, *number),
    }
}

/// Cuts the power of the device of clone `number`, which is down from then on; whether a call of it was caught before. It takes no memory.
fn cut_power<B: CrashBanks>(clones: &mut Vec<RunningClone<B>>, number: u8) -> bool
    requires { number < vec_len clones.old }
    ensures { CutsPower B.log B.meter number clones.old.items clones.new.items (IsTrue result) }
{
    let mut banks = banks_of_state(take_state(clones, number));
    let is_caught = banks.stopped();
    banks.revive();
    put_state(clones, number, CloneState::Down(banks));
    is_caught
}
