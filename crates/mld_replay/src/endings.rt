//! How a run ends: what it tells of its world, and the banks that it gives back.
ghost use Rattle.std.specs.Prelude.{◌≡◌, ◌+◌, ◌≤◌, ◌++◌, None, IsTrue, IfOk, vec_len, vec_capacity};
ghost use Rattle.mld_model.specs.World.{World as ModelWorld};
ghost use Rattle.mld_model.specs.Sound.{IsSound};
ghost use Rattle.schedule_text.specs.schedule_model.Runs.{Stage as ModelStage, Running};
ghost use Rattle.net_world.specs.world_commands.WorldBanks.{StandsOnBanks, AllBanksStandFor, banks_of};
ghost use Rattle.mld_replay.specs.RunSummaries.{TellsOf};
ghost use Rattle.mld_replay.specs.Stages.{StageStands, banks_of_stage};
ghost use Rattle.mld_replay.specs.KeptBanks.{AllKeepNone, BanksKeep};

use crate::stages::Stage;
use clone_core::journal_store::Blank;
use mld_io::{Banks, CrashBanks};
use net_world::{Summary, World};
use std::alloc::{AllocError, Global};

/// What is left of a schedule that ended.
#[derive(Drop)]
pub struct End<B> {
    /// What there is to tell of its world, where the clones are founded and it is asked for.
    pub world: Option<Summary>,
    /// The banks, in their order.
    pub banks: Vec<B>,
}

/// What is left of a stage, with what there is to tell of its world where it has to be told.
pub fn end_of<B: CrashBanks>(
    alloc: Global,
    told: bool,
    stage: Stage<B>,
) -> Result<End<B>, AllocError>
    ensures tells { IsTrue told → (model : ModelStage) → StageStands B.log stage model
        → IfOk result (λ end. TellsOf end.world model) }
    ensures silent { ¬ IsTrue told → IfOk result (λ end. end.world ≡ None) }
    ensures banks { IfOk result (λ end. end.banks.items ≡ banks_of_stage stage) }
    ensures kept { (model : ModelStage) → StageStands B.log stage model
        → IfOk result (λ end. BanksKeep B.log end.banks.items model) }
{
    match stage {
        Stage::Waiting(blanks) => end_of_blanks(alloc, blanks),
        Stage::SetUp(_setup, blanks) => end_of_blanks(alloc, blanks),
        Stage::Running(world) => end_of_world(alloc, told, world),
        Stage::Over(banks) => Ok(End { world: None, banks }),
    }
}

/// What is left where no clone was founded.
fn end_of_blanks<B: CrashBanks>(alloc: Global, blanks: Vec<Blank<B>>) -> Result<End<B>, AllocError>
    ensures silent { IfOk result (λ end. end.world ≡ None) }
    ensures banks { IfOk result (λ end. end.banks.items ≡ blanks.items) }
    ensures none { IfOk result (λ end. AllKeepNone B.log end.banks.items) }
{
    let mut banks = Vec::with_capacity(alloc, blanks.len())?;
    give_back(blanks, &mut banks);
    Ok(End { world: None, banks })
}

/// Adds the banks of blanks, in their order, to a list that has room for them. It takes no memory.
pub fn give_back<B: CrashBanks>(blanks: Vec<Blank<B>>, banks: &mut Vec<B>)
    requires { vec_len banks.old + vec_len blanks ≤ vec_capacity banks.old }
    ensures banks { banks.new.items ≡ banks.old.items ++ blanks.items }
    ensures none { AllKeepNone B.log banks.old.items → AllKeepNone B.log banks.new.items }
{
    for blank in blanks {
        banks.push_reserved(blank.into_banks());
    }
}

/// What is left of a world, with what there is to tell of it where that has to be told.
fn end_of_world<B: CrashBanks>(
    alloc: Global,
    told: bool,
    world: World<B>,
) -> Result<End<B>, AllocError>
    ensures tells { IsTrue told → (model : ModelWorld) → StandsOnBanks B.log world model → IsSound model
        → IfOk result (λ end. TellsOf end.world (Running model)) }
    ensures silent { ¬ IsTrue told → IfOk result (λ end. end.world ≡ None) }
    ensures banks { IfOk result (λ end. end.banks.items ≡ banks_of world) }
    ensures kept { (model : ModelWorld) → StandsOnBanks B.log world model
        → IfOk result (λ end. AllBanksStandFor B.log model end.banks.items) }
{
    if told {
        let (summary, banks) = world.into_summary(alloc)?;
        Ok(End {
            world: Some(summary),
            banks,
        })
    } else {
        let banks = world.into_banks(alloc)?;
        Ok(End { world: None, banks })
    }
}
