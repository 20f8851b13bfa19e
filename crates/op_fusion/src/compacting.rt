//! Runs of entries, each fused to one.
ghost use Rattle.std.specs.Prelude.{◌≤◌, ◌↔◌, length, IfOk, IsTrue, OnOk};
ghost use Rattle.mld_ops.specs.Entry.{EntryValue, IsEntry};
ghost use Rattle.op_fusion.specs.Compacting.{AreFusedRuns, AreInRow, HasNeighbours, IsFusedRun, IsRunLength};
ghost use Rattle.tree_clock.specs.Lists.{Has};

use crate::fusing::{are_neighbours, fuse_neighbours};
use mld_ops::Entry;
use std::alloc::{AllocError, Global};

/// Whether some entry and the one right behind it have neighbouring ranges.
pub fn has_neighbours(entries: &[Entry]) -> bool
    ensures { IsTrue result ↔ HasNeighbours entries.now }
{
    for place in 1..entries.len() {
        if are_neighbours(&entries[place - 1].range(), &entries[place].range()) {
            return true;
        }
    }
    false
}

/// The entries with each run of neighbours fused to one. A run is as long as it can be, and is fused by halves: so a run of
/// n entries of a tick each takes in the order of n log n steps.
pub fn compact_entries(alloc: Global, entries: &[Entry]) -> Result<Vec<Entry>, AllocError>
    ensures fused { IfOk result (λ runs. AreFusedRuns entries.now runs.items) }
    ensures entries { OnOk result ((entry : EntryValue) → Has entries.now entry → IsEntry entry) }
{
    let mut runs = Vec::new(alloc);
    let mut rest = entries;
    while !rest.is_empty() {
        let (run, behind) = rest.split_at(run_length(rest));
        runs.push(fuse_run(alloc, run)?)?;
        rest = behind;
    }
    Ok(runs)
}

// How many entries from the first on make one run.
fn run_length(entries: &[Entry]) -> usize
    requires { 1 ≤ length entries.now }
    ensures { IsRunLength entries.now result }
{
    for place in 1..entries.len() {
        if !are_neighbours(&entries[place - 1].range(), &entries[place].range()) {
            return place;
        }
    }
    entries.len()
}

// The entry fused of the entries of one run, by halves.
fn fuse_run(alloc: Global, entries: &[Entry]) -> Result<Entry, AllocError>
    requires some { 1 ≤ length entries.now }
    requires row { AreInRow entries.now }
    ensures fused { IfOk result (λ whole. IsFusedRun entries.now whole) }
    ensures entries { OnOk result ((entry : EntryValue) → Has entries.now entry → IsEntry entry) }
{
    if entries.len() == 1 {
        return entries[0].copy_in(alloc);
    }
    let (left, right) = entries.split_at(entries.len() / 2);
    let first = fuse_run(alloc, left)?;
    let second = fuse_run(alloc, right)?;
    fuse_neighbours(alloc, &first, &second)
}
