//! The plan of an update and of a delivery: the cut of the pairs, which entries are taken, and all room.
ghost use Rattle.std.specs.Prelude.{◌≡◌, ◌+◌, ◌<◌, ◌≤◌, List, IfOk, OnOk, vec_len, vec_capacity};
ghost use Rattle.clone_parts.specs.Plans.{left_of, IsPlanOf, TakesNothing, PlansEntry, PlansReleases};
ghost use Rattle.graph_index.specs.Graphs.{Fits};
ghost use Rattle.mld_ops.specs.Entry.{EntryValue, IsEntry};
ghost use Rattle.mld_ops.specs.Picking.{HasNone};
ghost use Rattle.mld_ops.specs.Ready.{IsKnownEntry, IsReadyEntry, last_dot};
ghost use Rattle.mld_ops.specs.Tagged.{tagged_cmp};
ghost use Rattle.op_fusion.specs.Cutting.{AreCuts, AreCutsBehind};
ghost use Rattle.tree_clock.specs.Clock.{HasRoom, IsClock, RaisesTo, ticks_of};
ghost use Rattle.tree_clock.specs.Lists.{IsAscending};

use causal_buffer::Held;
use graph_index::{Graph, PairSet};
use mld_ops::{Cut, Entry};
use op_fusion::cut;
use std::alloc::{AllocError, Global};
use tree_clock::{Clock, Dot, Ranges};

/// What a clone has after a delivery, and which entries it takes.
#[derive(Drop)]
pub struct Plan {
    /// The clock then.
    pub clock: Clock,
    /// What is held back then, where that changes.
    pub left: Option<Held>,
    /// The entries that are taken, in order.
    pub entries: Vec<Entry>,
    /// What taking all of them does to the pairs.
    pub cut: Cut,
    /// Their ranges.
    pub ranges: Ranges,
}

/// A plan that grows by one entry after another: the clock, the entries and their ranges so far, and what taking them drops of the pairs
/// and adds to them.
#[derive(Drop)]
pub(crate) struct Growing {
    pub(crate) clock: Clock,
    pub(crate) entries: Vec<Entry>,
    pub(crate) ranges: Ranges,
    pub(crate) drops: PairSet,
    pub(crate) adds: PairSet,
}

/// The cut of an entry of the clone's own, once there is room for it and for the last dot of its range.
pub fn prepare_own(
    alloc: Global,
    clock: &mut Clock,
    entries: &mut Vec<Entry>,
    pairs: &mut Graph,
    entry: &Entry,
) -> Result<Cut, AllocError>
    ensures entry { IsEntry entry.now }
    ensures cut { IfOk result (λ cut.
        AreCuts entry.now
        (ticks_of clock.old.ticks entry.now.range.path) pairs.old.pairs cut.drops.items cut.adds.items) }
    ensures ticks { clock.new.ticks ≡ clock.old.ticks }
    ensures entries { entries.new.items ≡ entries.old.items }
    ensures pairs { pairs.new.pairs ≡ pairs.old.pairs }
    ensures clock_room { OnOk result (HasRoom clock.new entry.now.range.path) }
    ensures entries_room { OnOk result (vec_len entries.new < vec_capacity entries.new) }
    ensures pairs_room { IfOk result (λ cut. Fits cut pairs.new) }
{
    let range = entry.range();
    let cut = cut(alloc, entry, clock, pairs)?;
    pairs.prepare(alloc, &cut)?;
    entries.reserve(1)?;
    clock.reserve(&range.path)?;
    Ok(cut)
}

/// The plan of an entry that is ready and of those held back that it releases, once there is room for them.
pub fn prepare_plan(
    alloc: Global,
    clock: &Clock,
    held: &Held,
    entries: &mut Vec<Entry>,
    pairs: &mut Graph,
    entry: &Entry,
) -> Result<Plan, AllocError>
    requires pairs { IsAscending tagged_cmp pairs.old.pairs }
    requires ready { IsReadyEntry clock.now.ticks entry.now }
    ensures plan { IfOk result (λ plan. IsPlanOf clock.now.ticks pairs.old.pairs held.now entry.now plan) }
    ensures entries { entries.new.items ≡ entries.old.items }
    ensures pairs { pairs.new.pairs ≡ pairs.old.pairs }
    ensures entries_room { IfOk result (λ plan.
        vec_len entries.new + vec_len plan.entries ≤ vec_capacity entries.new) }
    ensures pairs_room { IfOk result (λ plan. Fits plan.cut pairs.new) }
{
    let plan = plan_of(alloc, clock, held, pairs, entry)?;
    entries.reserve(plan.entries.len())?;
    pairs.prepare(alloc, &plan.cut)?;
    Ok(plan)
}

// The plan of an entry that is ready and of those held back that it releases.
fn plan_of(
    alloc: Global,
    clock: &Clock,
    held: &Held,
    pairs: &Graph,
    entry: &Entry,
) -> Result<Plan, AllocError>
    requires pairs { IsAscending tagged_cmp pairs.now.pairs }
    requires ready { IsReadyEntry clock.now.ticks entry.now }
    ensures { IfOk result (IsPlanOf clock.now.ticks pairs.now.pairs held.now entry.now) }
{
    let after = clock_after(alloc, clock, entry)?;
    if held.is_settled(&after) {
        return plan_alone(alloc, clock, after, pairs, entry);
    }
    plan_released(alloc, clock, held, pairs, entry)
}

// The clock of one who has taken an entry.
fn clock_after(alloc: Global, clock: &Clock, entry: &Entry) -> Result<Clock, AllocError>
    ensures { IfOk result (λ after. RaisesTo clock.now.ticks after.ticks (last_dot entry.now.range)) }
{
    let range = entry.range();
    let mut after = clock.copy_in(alloc)?;
    after.reserve(&range.path)?;
    after.raise(&Dot {
        path: range.path,
        tick: range.last,
    });
    Ok(after)
}

// The plan of an entry that is ready, by the clock behind it, where it releases none of those held back.
fn plan_alone(
    alloc: Global,
    clock: &Clock,
    after: Clock,
    pairs: &Graph,
    entry: &Entry,
) -> Result<Plan, AllocError>
    requires pairs { IsAscending tagged_cmp pairs.now.pairs }
    requires ready { IsReadyEntry clock.now.ticks entry.now }
    requires raised { RaisesTo clock.now.ticks after.ticks (last_dot entry.now.range) }
    ensures { IfOk result (λ plan. (held : List EntryValue) → HasNone (IsKnownEntry after.ticks) held
        → HasNone (IsReadyEntry after.ticks) held → IsPlanOf clock.now.ticks pairs.now.pairs held entry.now plan) }
{
    let cut = cut(alloc, entry, clock, pairs)?;
    let mut ranges = Ranges::new(alloc);
    ranges.push(entry.range())?;
    let mut entries = Vec::with_capacity(alloc, 1)?;
    entries.push_reserved(entry.copy_in(alloc)?);
    Ok(Plan {
        clock: after,
        left: None,
        entries,
        cut,
        ranges,
    })
}

// The plan of an entry that is ready and of those held back, one after another, that its clock releases.
fn plan_released(
    alloc: Global,
    clock: &Clock,
    held: &Held,
    pairs: &Graph,
    entry: &Entry,
) -> Result<Plan, AllocError>
    requires pairs { IsAscending tagged_cmp pairs.now.pairs }
    requires ready { IsReadyEntry clock.now.ticks entry.now }
    ensures { IfOk result (IsPlanOf clock.now.ticks pairs.now.pairs held.now entry.now) }
{
    let mut plan = begin(alloc, clock)?;
    take(alloc, &mut plan, pairs, entry.copy_in(alloc)?)?;
    let left = release_held(alloc, &mut plan, pairs, held)?;
    let cut = cut_of(alloc, &plan.drops, &plan.adds)?;
    Ok(Plan {
        clock: plan.clock,
        left,
        entries: plan.entries,
        cut,
        ranges: plan.ranges,
    })
}

// The plan that takes nothing yet.
pub(crate) fn begin(alloc: Global, clock: &Clock) -> Result<Growing, AllocError>
    ensures nothing { IfOk result (TakesNothing clock.now.ticks) }
    ensures clock { IfOk result (λ _. IsClock clock.now.ticks) }
{
    Ok(Growing {
        clock: clock.copy_in(alloc)?,
        entries: Vec::new(alloc),
        ranges: Ranges::new(alloc),
        drops: PairSet::empty(alloc),
        adds: PairSet::empty(alloc),
    })
}

// The cut of what is dropped and what is added.
pub(crate) fn cut_of(alloc: Global, drops: &PairSet, adds: &PairSet) -> Result<Cut, AllocError>
    ensures drops { IfOk result (λ cut. cut.drops.items ≡ drops.now) }
    ensures adds { IfOk result (λ cut. cut.adds.items ≡ adds.now) }
{
    Ok(Cut {
        drops: drops.to_list(alloc)?,
        adds: adds.to_list(alloc)?,
    })
}

// Adds an entry that is ready then.
fn take(alloc: Global, plan: &mut Growing, pairs: &Graph, entry: Entry) -> Result<(), AllocError>
    requires { IsReadyEntry plan.old.clock.ticks entry }
    ensures { OnOk result (PlansEntry pairs.now.pairs plan.old entry plan.new) }
{
    let range = entry.range();
    put_behind(
        alloc,
        &plan.clock,
        &mut plan.drops,
        &mut plan.adds,
        pairs,
        &entry,
    )?;
    plan.ranges.push(range)?;
    plan.entries.push(entry)?;
    plan.clock.reserve(&range.path)?;
    plan.clock.raise(&Dot {
        path: range.path,
        tick: range.last,
    });
    Ok(())
}

// Puts the cut of an entry behind what is dropped and added so far: of the pairs it drops those that it makes go; of the adds those, and
// its own come.
fn put_behind(
    alloc: Global,
    clock: &Clock,
    drops: &mut PairSet,
    adds: &mut PairSet,
    pairs: &Graph,
    entry: &Entry,
) -> Result<(), AllocError>
    ensures { OnOk result
        (AreCutsBehind entry.now (ticks_of clock.now.ticks entry.now.range.path) pairs.now.pairs drops.old adds.old
        drops.new adds.new) }
{
    let base = cut(alloc, entry, clock, pairs)?;
    let own = cut(alloc, entry, clock, adds)?;
    let more = Cut {
        drops: Vec::new(alloc),
        adds: base.drops,
    };
    drops.change(alloc, more)?;
    adds.change(alloc, own)
}

// Adds the entries that its clock releases of those held back, and gives which are left, where any is released or dropped.
pub(crate) fn release_held(
    alloc: Global,
    plan: &mut Growing,
    pairs: &Graph,
    held: &Held,
) -> Result<Option<Held>, AllocError>
    ensures { IfOk result (λ left. PlansReleases pairs.now.pairs plan.old held.now plan.new (left_of left held.now)) }
{
    if held.is_settled(&plan.clock) {
        return Ok(None);
    }
    let mut left = held.copy_in(alloc)?;
    release(alloc, plan, pairs, &mut left)?;
    Ok(Some(left))
}

// Adds the entries that its clock releases, one after another, and takes them out.
fn release(
    alloc: Global,
    plan: &mut Growing,
    pairs: &Graph,
    held: &mut Held,
) -> Result<(), AllocError>
    ensures { OnOk result (PlansReleases pairs.now.pairs plan.old held.old plan.new held.new) }
{
    loop {
        held.drop_known(&plan.clock);
        let Some(entry) = held.take_ready(&plan.clock) else {
            return Ok(());
        };
        take(alloc, plan, pairs, entry)?;
    }
}
