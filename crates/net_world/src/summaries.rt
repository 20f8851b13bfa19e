//! What a run tells of the clones of its world.
ghost use Rattle.std.specs.Prelude.{◌≡◌, None, Some, IfOk};
ghost use Rattle.mld_io.specs.Disk.{Log};
ghost use Rattle.mld_ops.specs.Held.{ranges_of};
ghost use Rattle.clone_core.specs.Banked.{KeepsClone};
ghost use Rattle.net_world.specs.WorldSummary.{IsBlank, TellsBesidePairs, IsSummaryOf};
ghost use Rattle.net_world.specs.declared.summaries.State.{State};

use clone_core::MldClone;
use mld_io::Banks;
use mld_ops::{Entry, Tagged};
use std::alloc::{AllocError, Global};
use tree_clock::{Path, Range};

/// The state of a clone.
#[derive(Clone, Copy, Debug, PartialEq, Eq)]
pub enum State {
    /// It was never founded and never asked to join.
    Absent,
    /// It asked to join and waits for a leaf.
    Asking,
    /// It is stopped.
    Down,
    /// It runs.
    Live,
}

/// What a run tells of one clone. For a clone that isn't live the path is `None` and the lists are empty.
#[derive(Drop)]
pub struct CloneSummary {
    /// Its state.
    pub state: State,
    /// Its path.
    pub path: Option<Path>,
    /// The dots that it knows: the ticks of each path, by path.
    pub known: Vec<(Path, u32)>,
    /// The dots of its base: the ticks of each path, by path.
    pub base: Vec<(Path, u32)>,
    /// The ranges of its journal, in order.
    pub journal: Vec<Range>,
    /// Its pairs, ascending.
    pub tagged: Vec<Tagged>,
}

/// What a run tells of its world: its clones, absent ones with them, by number.
#[derive(Drop)]
pub struct Summary {
    /// The clones.
    pub clones: Vec<CloneSummary>,
}

/// What there is to tell of a live clone, out of which its pairs are moved; and its banks, as `MldClone::stop` gives them.
///
/// # Errors
///
/// `AllocError` where memory is wanting; the clone and its banks are let go then.
pub fn summary_of_live<B: Banks>(
    alloc: Global,
    clone: MldClone<B>,
) -> Result<(CloneSummary, B), AllocError>
    ensures tells { IfOk result (λ told. IsSummaryOf clone.local told.0) }
    ensures banks { IfOk result (λ told. told.1 ≡ clone.banks) }
    ensures kept { clone.closed ≡ None → IfOk result (λ told. (log : Log) → B.log told.1 ≡ Some log
        → KeepsClone clone.local clone.generation log) }
{
    let mut summary = without_pairs(alloc, &clone)?;
    let (tagged, banks) = clone.into_tagged(alloc)?;
    summary.tagged = tagged;
    Ok((summary, banks))
}

/// What there is to tell of a live clone but for its pairs.
fn without_pairs<B: Banks>(alloc: Global, clone: &MldClone<B>) -> Result<CloneSummary, AllocError>
    ensures { IfOk result (TellsBesidePairs clone.now.local) }
{
    let known = clone.known().to_list(alloc)?;
    let base = clone.base().to_list(alloc)?;
    let journal = ranges_of(alloc, clone.journal())?;
    Ok(CloneSummary {
        state: State::Live,
        path: Some(clone.path()),
        known,
        base,
        journal,
        tagged: Vec::new(alloc),
    })
}

/// What there is to tell of a clone that isn't live: its state alone.
pub fn summary_of_state(alloc: Global, state: State) -> CloneSummary
    ensures { IsBlank result state }
{
    CloneSummary {
        state,
        path: None,
        known: Vec::new(alloc),
        base: Vec::new(alloc),
        journal: Vec::new(alloc),
        tagged: Vec::new(alloc),
    }
}

/// The ranges of entries, in order.
fn ranges_of(alloc: Global, entries: &[Entry]) -> Result<Vec<Range>, AllocError>
    ensures { IfOk result (λ ranges. ranges.items ≡ ranges_of entries.now) }
{
    let mut ranges = Vec::with_capacity(alloc, entries.len())?;
    for entry in entries {
        ranges.push(entry.range())?;
    }
    Ok(ranges)
}
