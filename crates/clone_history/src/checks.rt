//! Whether the state of a clone at a clock can be told.
ghost use Rattle.std.specs.Prelude.{◌≡◌, ◌↔◌, IfOk, IfErr, OnOk, IsErrOf, IsTrue};
ghost use Rattle.clone_core.specs.journal_store.declared.faults.Why.{Why};
ghost use Rattle.clone_history.specs.KeptMembers.{FindsFirst};
ghost use Rattle.clone_history.specs.PastParts.{FindsOpen, ReachesWithin};
ghost use Rattle.clone_history.specs.PastStates.{HasStateAt, IsOpenIn, IsPartOf, IsSplitAt, RefusesPast, last_dots};
ghost use Rattle.mld_ops.specs.Ready.{last_dot};
ghost use Rattle.tree_clock.specs.Clock.{Covers, IsClock};

use crate::faults::PastFault;
use clone_core::MldClone;
use mld_io::Banks;
use mld_ops::Entry;
use std::alloc::{AllocError, Global};
use tree_clock::{Clock, Dot, Path, Range};

/// Finds out whether the state of a clone at a clock can be told.
pub(crate) fn can_tell<B: Banks>(
    alloc: Global,
    clone: &MldClone<B>,
    clock: &Clock,
) -> Result<(), PastFault>
    ensures ok { OnOk result (HasStateAt clone.now.local clock.now.ticks) }
    ensures err { IfErr result (RefusesPast clone.now.local clock.now.ticks) }
    ensures opened { (why : Why) → ¬ IsErrOf result (PastFault.Closed why) }
    ensures clock { OnOk result (IsClock clock.now.ticks) }
{
    let ends = clock.to_list(alloc)?;
    if let Some(dot) = first_lacking(clone.known(), &ends) {
        return Err(PastFault::Unknown { dot });
    }
    if !clone.base().leq(clock) {
        return Err(PastFault::BehindBase);
    }
    if let Some(dot) = first_split(alloc, clone.base(), clone.journal(), clock, &ends)? {
        return Err(PastFault::Split { dot });
    }
    if let Some(range) = first_open(clone.journal(), clock) {
        return Err(PastFault::NotClosed { range });
    }
    Ok(())
}

// The first of the last dots of a clock that isn't one of another clock's.
fn first_lacking(clock: &Clock, ends: &[(Path, u32)]) -> Option<Dot>
    ensures { FindsFirst (λ dot. ¬ Covers clock.now.ticks dot) (last_dots ends.now) result }
{
    for (path, tick) in ends {
        let dot = Dot {
            path: *path,
            tick: *tick,
        };
        if !clock.covers(&dot) {
            return Some(dot);
        }
    }
    None
}

// The first of the last dots of a clock at which neither a base nor an entry ends.
fn first_split(
    alloc: Global,
    base: &Clock,
    entries: &[Entry],
    clock: &Clock,
    ends: &[(Path, u32)],
) -> Result<Option<Dot>, AllocError>
    requires clock { IsClock clock.now.ticks }
    requires part { IsPartOf base.now.ticks clock.now.ticks }
    requires ends { ends.now ≡ clock.now.ticks }
    ensures { IfOk result (FindsFirst (IsSplitAt base.now.ticks entries.now) (last_dots clock.now.ticks)) }
{
    let reached = reached(alloc, base, entries, clock)?;
    Ok(first_lacking(&reached, ends))
}

// How far a base and the entries that a clock knows reach.
fn reached(
    alloc: Global,
    base: &Clock,
    entries: &[Entry],
    clock: &Clock,
) -> Result<Clock, AllocError>
    ensures { IfOk result (λ reached. ReachesWithin clock.now.ticks base.now.ticks entries.now reached.ticks) }
{
    let mut reached = base.copy_in(alloc)?;
    for entry in entries {
        let last = last_dot(entry);
        if clock.covers(&last) {
            reached.reserve(&last.path)?;
            reached.raise(&last);
        }
    }
    Ok(reached)
}

// The range of the first entry that a clock knows, and whose time isn't a part of it.
fn first_open(entries: &[Entry], clock: &Clock) -> Option<Range>
    ensures { FindsOpen clock.now.ticks entries.now result }
{
    for entry in entries {
        if is_open(entry, clock) {
            return Some(entry.range());
        }
    }
    None
}

// Whether a clock knows an entry, and not its whole time.
fn is_open(entry: &Entry, clock: &Clock) -> bool
    ensures { IsTrue result ↔ IsOpenIn clock.now.ticks entry.now }
{
    clock.covers(&last_dot(entry)) && !entry.time().leq(clock)
}

/// The last dot of an entry.
pub(crate) fn last_dot(entry: &Entry) -> Dot
    ensures { result ≡ last_dot entry.now.range }
{
    let range = entry.range();
    Dot {
        path: range.path,
        tick: range.last,
    }
}
