//! How far a schedule has come, and what a line makes of that.
ghost use Rattle.std.specs.Prelude.{◌≡◌, ◌<◌, ◌≤◌, ◌+◌, ◌∷◌, [], ℕ, List, IsTrue, IfOk, IfErr, OnOk, OnErr, IsErrOf};
ghost use Rattle.mld_model.specs.World.{World as ModelWorld};
ghost use Rattle.net_world.specs.world_commands.WorldBanks.{StandsOnBanks, banks_of};
ghost use Rattle.net_world.specs.CrashedWorlds.{AreUnarmed};
ghost use Rattle.schedule_text.specs.schedule_model.Runs.{Stage as ModelStage, Waiting, Running, IsBad};
ghost use Rattle.schedule_text.specs.schedule_model.Step.{HasCloneNumbers, IsCommandInForm};
ghost use Rattle.net_world.specs.world_commands.Worlds.{IsStanding, Stepped};
ghost use Rattle.schedule_text.specs.schedule_model.WorldStep.{step_limit};
ghost use Rattle.mld_replay.specs.BankFaults.{ComeBackWell};
ghost use Rattle.mld_replay.specs.BanksLeft.{IsFoundingDueAt};
ghost use Rattle.mld_replay.specs.Stops.{StopBringsBack, StopLeaves, StopLeavesAtLine, LeavesAtStop};
ghost use Rattle.net_world.specs.SettledWorlds.{SettlesWorld};
ghost use Rattle.mld_replay.specs.Stages.{StageStands, SpellsAt, IsStandingStage, IsSetUpState, GetsProperty, GetsNone, IsWorldStop, LeavesRefusedCommand, steps_of_stage, banks_of_stage, ActsWell, ActsFrom, EndsFrom, IsBadFrom, OnlyWaits};
ghost use Rattle.mld_replay.specs.declared.stages.Stage.TheVariants as stages;

use crate::stops::LineStop;
use clone_core::journal_store::Blank;
use mld_io::{Banks, CrashBanks};
use net_world::World;
use net_world::schedule_replies::{push_property_set, push_ready};
use schedule_text::{Command, Setup, SetupLine, read_command, read_setup};
use std::alloc::Global;
use std::mem;
use std::thread::Threads;

/// How far a schedule has come, with the banks of its clones.
#[derive(Drop)]
pub enum Stage<B: CrashBanks> {
    /// No domain line has come.
    Waiting(Vec<Blank<B>>),
    /// The domain is set up, and no clone is founded.
    SetUp(Setup, Vec<Blank<B>>),
    /// The clones are founded.
    Running(World<B>),
    /// The clones could not be founded: these banks are left.
    Over(Vec<B>),
}

/// Does a line, and makes the text of its reply in place of what `reply` had. The first command founds the clones.
pub fn act<R: Threads + Sync, B: CrashBanks>(
    rt: &R,
    alloc: Global,
    stage: &mut Stage<B>,
    line: &[u8],
    reply: &mut Vec<u8>,
) -> Result<(), LineStop>
    requires few { steps_of_stage stage.old < step_limit }
    requires standing { IsStandingStage B.log stage.old }
    requires unarmed { AreUnarmed B.meter (banks_of_stage stage.old) }
    ensures ok { OnOk result (ActsFrom B.log stage.old line.now reply.new.items stage.new) }
    ensures steps { OnOk result (steps_of_stage stage.new ≤ steps_of_stage stage.old + 1) }
    ensures bad { IsErrOf result LineStop.BadLine → IsBadFrom B.log stage.old line.now }
    ensures kept { IsErrOf result LineStop.BadLine → stage.new ≡ stage.old }
    ensures well { OnOk result (ComeBackWell B.meter (banks_of_stage stage.old) (banks_of_stage stage.new)) }
    ensures back { IfErr result (StopBringsBack B.meter (banks_of_stage stage.old) (banks_of_stage stage.new)) }
    ensures left { IfErr result (StopLeavesAtLine B.log stage.old (banks_of_stage stage.new) line.now) }
{
    reply.clear();
    match stage {
        Stage::Waiting(_) => set_up(alloc, stage, line, reply),
        Stage::SetUp(_, _) => set_or_start(rt, alloc, stage, line, reply),
        Stage::Running(world) => command(rt, alloc, world, line, reply),
        Stage::Over(_) => unreachable!(),
    }
}

/// Does a line while no domain line has come, and makes the text of its reply.
fn set_up<B: CrashBanks>(
    alloc: Global,
    stage: &mut Stage<B>,
    line: &[u8],
    reply: &mut Vec<u8>,
) -> Result<(), LineStop>
    requires stands { StageStands B.log stage.old Waiting }
    requires empty { reply.old.items ≡ [] }
    ensures ok { OnOk result (ActsWell B.log Waiting line.now reply.new.items stage.new) }
    ensures steps { OnOk result (steps_of_stage stage.new ≡ 0) }
    ensures bad { IsErrOf result LineStop.BadLine → IsBad Waiting line.now }
    ensures kept { OnErr result (stage.new ≡ stage.old) }
    ensures banks { banks_of_stage stage.new ≡ banks_of_stage stage.old }
    ensures device { (clone : ℕ) → ¬ IsErrOf result (LineStop.Device clone) }
{
    match read_setup(alloc, line, None)? {
        SetupLine::Setup(setup) => {
            push_ready(reply, setup.clones)?;
            let blanks = take_waiting(alloc, stage);
            *stage = Stage::SetUp(setup, blanks);
            Ok(())
        }
        SetupLine::Other(_) => Ok(()),
    }
}

/// Takes the banks out of a stage in which no domain line has come.
fn take_waiting<B: CrashBanks>(alloc: Global, stage: &mut Stage<B>) -> Vec<Blank<B>>
    requires { StageStands B.log stage.old Waiting }
    ensures { stage.old ≡ stages.Waiting result }
{
    match mem::replace(stage, Stage::Over(Vec::new(alloc))) {
        Stage::Waiting(blanks) => blanks,
        _ => unreachable!(),
    }
}

/// Does a line once the domain is set up, while no clone is founded, and makes the text of its reply: it sets one more single-valued
/// property, or it may be the first command.
fn set_or_start<R: Threads + Sync, B: CrashBanks>(
    rt: &R,
    alloc: Global,
    stage: &mut Stage<B>,
    line: &[u8],
    reply: &mut Vec<u8>,
) -> Result<(), LineStop>
    requires standing { IsStandingStage B.log stage.old }
    requires unarmed { AreUnarmed B.meter (banks_of_stage stage.old) }
    requires set_up { IsSetUpState stage.old }
    requires empty { reply.old.items ≡ [] }
    ensures ok { OnOk result (ActsFrom B.log stage.old line.now reply.new.items stage.new) }
    ensures steps { OnOk result (steps_of_stage stage.new ≤ 1) }
    ensures bad { IsErrOf result LineStop.BadLine → IsBadFrom B.log stage.old line.now }
    ensures kept { IsErrOf result LineStop.BadLine → stage.new ≡ stage.old }
    ensures well { OnOk result (ComeBackWell B.meter (banks_of_stage stage.old) (banks_of_stage stage.new)) }
    ensures back { IfErr result (StopBringsBack B.meter (banks_of_stage stage.old) (banks_of_stage stage.new)) }
    ensures left { IfErr result (StopLeavesAtLine B.log stage.old (banks_of_stage stage.new) line.now) }
{
    let is_set = set_property(alloc, stage, line)?;
    if is_set {
        push_property_set(reply)?;
        return Ok(());
    }
    first(rt, alloc, stage, line, reply)
}

/// Sets a single-valued property, where the line says one and no more lines did than may; whether it did. Else the stage is as it was, but
/// for want of memory, which leaves the banks alone.
fn set_property<B: CrashBanks>(
    alloc: Global,
    stage: &mut Stage<B>,
    line: &[u8],
) -> Result<bool, LineStop>
    requires { IsSetUpState stage.old }
    ensures set { IfOk result (λ set. IsTrue set → GetsProperty line.now stage.old stage.new) }
    ensures none { IfOk result (λ set. ¬ IsTrue set → GetsNone line.now stage.old) }
    ensures kept { IfOk result (λ set. ¬ IsTrue set → stage.new ≡ stage.old) }
    ensures banks { banks_of_stage stage.new ≡ banks_of_stage stage.old }
    ensures err { IfErr result (λ stop. stop ≡ LineStop.NoMemory) }
{
    let (setup, blanks) = take_set_up(alloc, stage);
    match read_setup(alloc, line, Some(setup)) {
        Ok(SetupLine::Setup(next)) => {
            *stage = Stage::SetUp(next, blanks);
            Ok(true)
        }
        Ok(SetupLine::Other(Some(setup))) => {
            *stage = Stage::SetUp(setup, blanks);
            Ok(false)
        }
        Ok(SetupLine::Other(None)) => unreachable!(),
        Err(refusal) => {
            *stage = Stage::Waiting(blanks);
            Err(LineStop::from(refusal))
        }
    }
}

/// Does a line that sets no property while no clone is founded, and makes the text of its reply. A command founds the clones.
fn first<R: Threads + Sync, B: CrashBanks>(
    rt: &R,
    alloc: Global,
    stage: &mut Stage<B>,
    line: &[u8],
    reply: &mut Vec<u8>,
) -> Result<(), LineStop>
    requires standing { IsStandingStage B.log stage.old }
    requires unarmed { AreUnarmed B.meter (banks_of_stage stage.old) }
    requires none { GetsNone line.now stage.old }
    requires empty { reply.old.items ≡ [] }
    ensures ok { OnOk result (ActsFrom B.log stage.old line.now reply.new.items stage.new) }
    ensures steps { OnOk result (steps_of_stage stage.new ≤ 1) }
    ensures bad { IsErrOf result LineStop.BadLine → IsBadFrom B.log stage.old line.now }
    ensures kept { IsErrOf result LineStop.BadLine → stage.new ≡ stage.old }
    ensures well { OnOk result (ComeBackWell B.meter (banks_of_stage stage.old) (banks_of_stage stage.new)) }
    ensures back { IfErr result (StopBringsBack B.meter (banks_of_stage stage.old) (banks_of_stage stage.new)) }
    ensures left { IfErr result (StopLeavesAtLine B.log stage.old (banks_of_stage stage.new) line.now) }
{
    match stage {
        Stage::SetUp(setup, _) => match read_command(alloc, line, setup.domain.as_str())? {
            None => Ok(()),
            Some(command) => start(rt, alloc, stage, &command, reply),
        },
        _ => unreachable!(),
    }
}

/// Founds the clones of a domain that is set up by its first command, and makes the text of the command's reply.
fn start<R: Threads + Sync, B: CrashBanks>(
    rt: &R,
    alloc: Global,
    stage: &mut Stage<B>,
    command: &Command,
    reply: &mut Vec<u8>,
) -> Result<(), LineStop>
    requires standing { IsStandingStage B.log stage.old }
    requires unarmed { AreUnarmed B.meter (banks_of_stage stage.old) }
    requires set_up { IsSetUpState stage.old }
    requires numbers { HasCloneNumbers command.now }
    requires form { IsCommandInForm command.now }
    requires empty { reply.old.items ≡ [] }
    ensures ok { OnOk result ((model : ModelStage) (line : List ℕ) → StageStands B.log stage.old model
        → SpellsAt model line command.now → ActsWell B.log model line reply.new.items stage.new) }
    ensures steps { OnOk result (steps_of_stage stage.new ≡ 1) }
    ensures well { OnOk result (ComeBackWell B.meter (banks_of_stage stage.old) (banks_of_stage stage.new)) }
    ensures back { IfErr result (StopBringsBack B.meter (banks_of_stage stage.old) (banks_of_stage stage.new)) }
    ensures left { IfErr result (λ stop. (line : List ℕ) (rest : List (List ℕ)) (model : ModelStage)
        → StageStands B.log stage.old model → SpellsAt model line command.now
        → LeavesAtStop B.log (banks_of_stage stage.new) model (line ∷ rest) stop) }
    ensures other { IfErr result IsWorldStop }
{
    let mut world = found(rt, alloc, stage)?;
    let done = step(rt, alloc, &mut world, command, reply);
    *stage = Stage::Running(world);
    done
}

/// Takes what is set up out of a stage, and founds its clones. Where that was refused, the stage is over, and has the banks that are left.
fn found<R: Threads + Sync, B: CrashBanks>(
    rt: &R,
    alloc: Global,
    stage: &mut Stage<B>,
) -> Result<World<B>, LineStop>
    requires standing { IsStandingStage B.log stage.old }
    requires set_up { IsSetUpState stage.old }
    ensures ok { IfOk result (λ world. EndsFrom B.log stage.old (stages.Running world)) }
    ensures standing { IfOk result (IsStanding B.log) }
    ensures steps { IfOk result (λ world. world.steps ≡ 0) }
    ensures well { IfOk result (λ world. ComeBackWell B.meter (banks_of_stage stage.old) (banks_of world)) }
    ensures back { IfErr result (StopBringsBack B.meter (banks_of_stage stage.old) (banks_of_stage stage.new)) }
    ensures left { IfErr result (λ stop. (lines : List (List ℕ)) (model : ModelStage)
        → StageStands B.log stage.old model → IsFoundingDueAt model lines
        → LeavesAtStop B.log (banks_of_stage stage.new) model lines stop) }
    ensures other { IfErr result IsWorldStop }
{
    let (setup, blanks) = take_set_up(alloc, stage);
    match World::found(rt, alloc, &setup, blanks) {
        Ok(world) => Ok(world),
        Err((fault, banks)) => {
            *stage = Stage::Over(banks);
            Err(LineStop::from(fault))
        }
    }
}

/// Takes out of a stage what is set up, with the banks.
fn take_set_up<B: CrashBanks>(alloc: Global, stage: &mut Stage<B>) -> (Setup, Vec<Blank<B>>)
    requires { IsSetUpState stage.old }
    ensures { stage.old ≡ stages.SetUp result.0 result.1 }
{
    match mem::replace(stage, Stage::Over(Vec::new(alloc))) {
        Stage::SetUp(setup, blanks) => (setup, blanks),
        _ => unreachable!(),
    }
}

/// Does a line of a world that runs, and makes the text of its reply.
fn command<R: Threads + Sync, B: CrashBanks>(
    rt: &R,
    alloc: Global,
    world: &mut World<B>,
    line: &[u8],
    reply: &mut Vec<u8>,
) -> Result<(), LineStop>
    requires few { world.old.steps < step_limit }
    requires standing { IsStanding B.log world.old }
    requires unarmed { AreUnarmed B.meter (banks_of world.old) }
    requires empty { reply.old.items ≡ [] }
    ensures ok { OnOk result ((model : ModelWorld) → StageStands B.log (stages.Running world.old) (Running model)
        → ActsWell B.log (Running model) line.now reply.new.items (stages.Running world.new)) }
    ensures steps { OnOk result (world.new.steps ≤ world.old.steps + 1) }
    ensures bad { IsErrOf result LineStop.BadLine → (model : ModelWorld) → StandsOnBanks B.log world.old model
        → IsBad (Running model) line.now }
    ensures kept { IsErrOf result LineStop.BadLine → world.new ≡ world.old }
    ensures well { OnOk result (ComeBackWell B.meter (banks_of world.old) (banks_of world.new)) }
    ensures back { IfErr result (StopBringsBack B.meter (banks_of world.old) (banks_of world.new)) }
    ensures left { IfErr result (StopLeavesAtLine B.log (stages.Running world.old) (banks_of world.new) line.now) }
{
    match read_command(alloc, line, world.domain())? {
        None => Ok(()),
        Some(command) => step(rt, alloc, world, &command, reply),
    }
}

/// Does a command of a world that runs, and makes the text of its reply.
fn step<R: Threads + Sync, B: CrashBanks>(
    rt: &R,
    alloc: Global,
    world: &mut World<B>,
    command: &Command,
    reply: &mut Vec<u8>,
) -> Result<(), LineStop>
    requires few { world.old.steps < step_limit }
    requires standing { IsStanding B.log world.old }
    requires unarmed { AreUnarmed B.meter (banks_of world.old) }
    requires numbers { HasCloneNumbers command.now }
    requires form { IsCommandInForm command.now }
    requires empty { reply.old.items ≡ [] }
    ensures ok { OnOk result (Stepped B.log world.old command.now world.new [] reply.new.items) }
    ensures steps { OnOk result (world.new.steps ≡ world.old.steps + 1) }
    ensures well { OnOk result (ComeBackWell B.meter (banks_of world.old) (banks_of world.new)) }
    ensures back { IfErr result (StopBringsBack B.meter (banks_of world.old) (banks_of world.new)) }
    ensures settled { OnOk result (SettlesWorld B.log world.old command.now world.new) }
    ensures left { IfErr result (LeavesRefusedCommand B.log world.old command.now (banks_of world.new)) }
    ensures other { IfErr result IsWorldStop }
{
    world.step(rt, alloc, command, reply)?;
    Ok(())
}

/// Ends the lines: this founds the clones where no command did. Where no domain line came, the end is a bad line.
pub fn finish<R: Threads + Sync, B: CrashBanks>(
    rt: &R,
    alloc: Global,
    stage: &mut Stage<B>,
) -> Result<(), LineStop>
    requires { IsStandingStage B.log stage.old }
    ensures ok { OnOk result (EndsFrom B.log stage.old stage.new) }
    ensures bad { IsErrOf result LineStop.BadLine → OnlyWaits B.log stage.old }
    ensures kept { IsErrOf result LineStop.BadLine → stage.new ≡ stage.old }
    ensures well { OnOk result (ComeBackWell B.meter (banks_of_stage stage.old) (banks_of_stage stage.new)) }
    ensures back { IfErr result (StopBringsBack B.meter (banks_of_stage stage.old) (banks_of_stage stage.new)) }
    ensures left { IfErr result (StopLeaves B.log stage.old (banks_of_stage stage.new) []) }
{
    match stage {
        Stage::Waiting(_) => Err(LineStop::BadLine),
        Stage::SetUp(_, _) => {
            let world = found(rt, alloc, stage)?;
            *stage = Stage::Running(world);
            Ok(())
        }
        Stage::Running(_) => Ok(()),
        Stage::Over(_) => unreachable!(),
    }
}
