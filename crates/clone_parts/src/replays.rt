//! What the entries of a journal lead to, taken one after another.
ghost use Rattle.std.specs.Prelude.{◌≡◌, IfOk, OnOk};
ghost use Rattle.clone_parts.specs.Replays.{AreReadyEntries};
ghost use Rattle.journal_store.specs.journal_sides.Heads.{head_value};
ghost use Rattle.journal_store.specs.journal_sides.StoredVolumes.{IsGoodHead, AreGoodEntries};
ghost use Rattle.mld_model.specs.Local.{LeadsTo};
ghost use Rattle.mld_ops.specs.Tagged.{tagged_cmp};
ghost use Rattle.suset.specs.SnapshotJoin.{CoversAll};
ghost use Rattle.tree_clock.specs.Clock.{IsClock};
ghost use Rattle.tree_clock.specs.Lists.{IsAscending};

use graph_index::Graph;
use journal_store::journal_sides::Head;
use mld_ops::{Entry, PairList};
use op_fusion::cut;
use std::alloc::{AllocError, Global};
use tree_clock::{Clock, Dot, Path};

/// What a clone has in memory whose journal has entries.
#[derive(Drop)]
pub struct Replayed {
    /// Its clock.
    pub clock: Clock,
    /// The entries.
    pub entries: Vec<Entry>,
    /// Its pairs.
    pub pairs: Graph,
}

/// Takes the entries of a journal one after another, from what its head has on.
pub fn replay(alloc: Global, head: &Head, entries: Vec<Entry>) -> Result<Replayed, AllocError>
    requires head { IsGoodHead (head_value head.now) }
    requires entries { AreGoodEntries head.now.base.ticks entries.items }
    ensures clock { IfOk result (λ _. IsClock head.now.base.ticks) }
    ensures entries { IfOk result (λ replayed. replayed.entries.items ≡ entries.items) }
    ensures leads { IfOk result (λ replayed.
        LeadsTo head.now.base.ticks head.now.tagged entries.items replayed.clock.ticks replayed.pairs.pairs) }
    ensures covered { IfOk result (λ replayed. CoversAll replayed.clock.ticks replayed.pairs.pairs) }
{
    let mut clock = head.base.copy_in(alloc)?;
    let mut pairs = Graph::from_pairs(alloc, &head.tagged)?;
    take_all(alloc, &mut clock, &mut pairs, entries.as_slice())?;
    Ok(Replayed {
        clock,
        entries,
        pairs,
    })
}

/// What entries lead to from a clock and ascending pairs on, each of which is ready once those before it are taken.
pub fn led_to(
    alloc: Global,
    base: &Clock,
    pairs: &PairList,
    entries: &[Entry],
) -> Result<(Clock, PairList), AllocError>
    requires ascending { IsAscending tagged_cmp pairs.now }
    requires covered { CoversAll base.now.ticks pairs.now }
    requires ready { AreReadyEntries base.now.ticks entries.now }
    ensures leads { IfOk result (λ led. LeadsTo base.now.ticks pairs.now entries.now led.0.ticks led.1) }
    ensures covered { IfOk result (λ led. CoversAll led.0.ticks led.1) }
    ensures ascending { IfOk result (λ led. IsAscending tagged_cmp led.1) }
    ensures clock { IfOk result (λ led. IsClock led.0.ticks) }
{
    let mut clock = base.copy_in(alloc)?;
    let mut graph = Graph::from_pairs(alloc, pairs)?;
    take_all(alloc, &mut clock, &mut graph, entries)?;
    let led = graph.to_pairs(alloc)?;
    tell_clock(&clock);
    Ok((clock, led))
}

/// Tells that the ticks of a clock are a clock's: its clause is what it is for. It takes no memory.
pub fn tell_clock(clock: &Clock)
    ensures { IsClock clock.now.ticks }
{
    clock.ticks(&Path::root());
}

// Takes entries one after another, each of which is ready once those before it are taken.
fn take_all(
    alloc: Global,
    clock: &mut Clock,
    pairs: &mut Graph,
    entries: &[Entry],
) -> Result<(), AllocError>
    requires ready { AreReadyEntries clock.old.ticks entries.now }
    requires covered { CoversAll clock.old.ticks pairs.old.pairs }
    ensures leads { OnOk result
        (LeadsTo clock.old.ticks pairs.old.pairs entries.now clock.new.ticks pairs.new.pairs) }
    ensures covered { OnOk result (CoversAll clock.new.ticks pairs.new.pairs) }
{
    for entry in entries {
        let range = entry.range();
        let cut = cut(alloc, entry, clock, pairs)?;
        pairs.prepare(alloc, &cut)?;
        pairs.apply(cut);
        clock.reserve(&range.path)?;
        clock.raise(&Dot {
            path: range.path,
            tick: range.last,
        });
    }
    Ok(())
}
