//! What a run tells of the world that it ends with: of each clone, by its state, out of which its pairs are moved.
ghost use Rattle.std.specs.Prelude.{◌≡◌, ◌++◌, ◌∷◌, [], map, IfOk, OnOk};
ghost use Rattle.world_commands.specs.WorldBanks.{in_memory, banks_of_state};
ghost use Rattle.world_commands.specs.WorldEnds.{KeepsState, KeepAll};
ghost use Rattle.net_world.specs.WorldSummary.{Summarizes, SummarizesAll, TellsNext};

use crate::summaries::{CloneSummary, State, Summary, summary_of_live, summary_of_state};
use mld_io::{Banks, CrashBanks};
use mld_model::CloneState;
use std::alloc::{AllocError, Global};
use world_commands::{Parts, RunningClone};

/// The clones of a world. All else that it has is let go, its messages with it.
pub fn clones_of<B: Banks>(parts: Parts<B>) -> Vec<RunningClone<B>>
    ensures { result.items ≡ parts.clones.items }
{
    parts.clones
}

/// What there is to tell of clones, one after another, and their banks: live ones stop.
pub fn summarize<B: CrashBanks>(
    alloc: Global,
    clones: Vec<RunningClone<B>>,
) -> Result<(Summary, Vec<B>), AllocError>
    ensures tells { IfOk result (λ told. SummarizesAll (map in_memory clones.items) told.0.clones.items) }
    ensures banks { IfOk result (λ told. told.1.items ≡ map banks_of_state clones.items) }
    ensures kept { OnOk result (KeepAll B.log clones.items) }
{
    let mut summaries = Vec::with_capacity(alloc, clones.len())?;
    let mut banks = Vec::with_capacity(alloc, clones.len())?;
    for clone in clones {
        add_told(alloc, clone, &mut summaries, &mut banks)?;
    }
    Ok((Summary { clones: summaries }, banks))
}

/// Adds what there is to tell of a clone, and its banks.
fn add_told<B: CrashBanks>(
    alloc: Global,
    clone: RunningClone<B>,
    summaries: &mut Vec<CloneSummary>,
    banks: &mut Vec<B>,
) -> Result<(), AllocError>
    ensures tells { OnOk result (TellsNext (in_memory clone) summaries.old.items summaries.new.items) }
    ensures banks { OnOk result (banks.new.items ≡ banks.old.items ++ banks_of_state clone ∷ []) }
    ensures kept { OnOk result (KeepsState B.log clone) }
{
    let (summary, own) = summary_of(alloc, clone)?;
    summaries.push(summary)?;
    banks.push(own)?;
    Ok(())
}

/// What there is to tell of a clone, and its banks.
fn summary_of<B: CrashBanks>(
    alloc: Global,
    clone: RunningClone<B>,
) -> Result<(CloneSummary, B), AllocError>
    ensures tells { IfOk result (λ told. Summarizes (in_memory clone) told.0) }
    ensures banks { IfOk result (λ told. told.1 ≡ banks_of_state clone) }
    ensures kept { OnOk result (KeepsState B.log clone) }
{
    match clone {
        CloneState::Absent(blank) => Ok((
            summary_of_state(alloc, State::Absent),
            blank.into_banks(),
        )),
        CloneState::Asking(asker) => Ok((summary_of_state(alloc, State::Asking), asker.stop())),
        CloneState::Down(banks) => Ok((summary_of_state(alloc, State::Down), banks)),
        CloneState::Live(live) => summary_of_live(alloc, live),
    }
}
