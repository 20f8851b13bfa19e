//! The entries of a clone's own operations.
ghost use Rattle.std.specs.Prelude.{◌≡◌, ◌+◌, map, IfOk};
ghost use Rattle.clone_parts.specs.Making.{IsEntryOf};
ghost use Rattle.mld_ops.specs.declared.tagged.Tagged.{Tagged};
ghost use Rattle.rdf_terms.specs.declared.terms.Triple.{Triple};
ghost use Rattle.tree_clock.specs.Clock.{ticks_of, Covers};
ghost use Rattle.tree_clock.specs.Lists.{Has};

use mld_ops::{Effect, Entry, copy_pairs};
use rdf_terms::Triple;
use std::alloc::{AllocError, Global};
use tree_clock::{Clock, Dot, Range};

/// The entry of the operation of an effect at a clock's next dot, where all of the clock's dots are its causes.
pub fn entry_of_effect(
    alloc: Global,
    clock: &Clock,
    dot: &Dot,
    effect: &Effect,
) -> Result<Entry, AllocError>
    requires tick { dot.now.tick ≡ ticks_of clock.now.ticks dot.now.path + 1 }
    requires deletes { (pair : Tagged) → Has effect.now.deletes pair → Covers clock.now.ticks pair.dot }
    ensures { IfOk result (λ entry. IsEntryOf clock.now.ticks dot.now effect.now entry) }
{
    let mut time = clock.copy_in(alloc)?;
    time.reserve(&dot.path)?;
    time.raise(dot);
    let deletes = copy_pairs(alloc, effect.deletes())?;
    let inserts = with_tick(alloc, effect.inserts(), dot.tick)?;
    Ok(Entry::new(range_of(dot), time, deletes, inserts).unwrap())
}

// Triples, each with the tick.
fn with_tick(alloc: Global, triples: &[Triple], tick: u32) -> Result<Vec<(Triple, u32)>, AllocError>
    ensures { IfOk result (λ ticked. ticked.items ≡ map (λ (triple : Triple). (triple, tick)) triples.now) }
{
    let mut ticked = Vec::with_capacity(alloc, triples.len())?;
    for triple in triples {
        ticked.push((triple.share()?, tick))?;
    }
    Ok(ticked)
}

// The range of one dot.
fn range_of(dot: &Dot) -> Range
    ensures { result ≡ record { path = dot.now.path; first = dot.now.tick; last = dot.now.tick } }
{
    Range {
        path: dot.path,
        first: dot.tick,
        last: dot.tick,
    }
}
