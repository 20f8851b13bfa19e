//! Entries: the net effect of a range of operations.
ghost use Rattle.std.specs.Prelude.{◌≡◌, ◌≤◌, ◌↔◌, ℕ, IsTrue, IfOk, IfSome, IsSome};
ghost use Rattle.std.specs.List.{AllByRecursion};
ghost use Rattle.mld_ops.specs.Entry.{IsEntry};
ghost use Rattle.mld_ops.specs.EntryParts.{HasOwnTicks, AreDeletes, AreInserts};
ghost use Rattle.mld_ops.specs.declared.tagged.Tagged.{Tagged};
ghost use Rattle.rdf_terms.specs.declared.terms.Triple.{Triple};
ghost use Rattle.tree_clock.specs.Clock.{Covers, HasRoom};
ghost use Rattle.tree_clock.specs.Dot.{IsIn};
ghost use Rattle.tree_clock.specs.Lists.{IsAscending};

use crate::pairs::copy_pairs;
use crate::tagged::Tagged;
use rdf_terms::Triple;
use std::alloc::{AllocError, Global};
use std::marker::Model;
use tree_clock::{Clock, Range};

/// The net effect of the operations of a range, as it is sent and kept. The range's path is the own one of the time, and its last tick the time's there.
#[derive(Drop)]
pub struct Entry {
    first: u32,
    time: Clock,
    deletes: Vec<Tagged>,
    inserts: Vec<(Triple, u32)>,
}

impl Model for Entry {
    ghost use Rattle.std.specs.Prelude.{IsSome};
    ghost use Rattle.mld_ops.specs.Entry.{EntryValue, IsEntry};
    ghost use Rattle.mld_ops.specs.EntryParts.{own_range};

    ghost Value = { EntryValue };

    ghost view = { λ e. record { range = own_range e.first e.time; time = e.time.ticks; deletes = e.deletes.items; inserts = e.inserts.items } };

    ghost invariant = { λ e. IsSome e.time.own × IsEntry (record { range = own_range e.first e.time; time = e.time.ticks; deletes = e.deletes.items; inserts = e.inserts.items }) };
}

impl Entry {
    /// The entry of these parts, or none where they are none of an entry. It takes no memory.
    pub fn new(
        range: Range,
        mut time: Clock,
        deletes: Vec<Tagged>,
        inserts: Vec<(Triple, u32)>,
    ) -> Option<Entry>
        ensures some { IsSome result
            ↔ IsEntry (record { range = range; time = time.ticks; deletes = deletes.items; inserts = inserts.items }) }
        ensures value { IfSome result
            (λ entry. entry ≡ record {
              range = range;
              time = time.ticks;
              deletes = deletes.items;
              inserts = inserts.items;
            }) }
    {
        if is_entry(&range, &time, &deletes, &inserts) {
            time.set_own(&range.path);
            Some(Entry {
                first: range.first,
                time,
                deletes,
                inserts,
            })
        } else {
            None
        }
    }

    /// The range of the operations.
    pub fn range(&self) -> Range
        ensures value { result ≡ self.now.range }
        ensures entry { IsEntry self.now }
    {
        let Some(own) = self.time.own() else {
            unreachable!()
        };
        Range {
            path: own.path,
            first: self.first,
            last: own.tick,
        }
    }

    /// The dots known after the last operation of the range.
    pub fn time(&self) -> &Clock
        ensures { result.now.ticks ≡ self.now.time }
    {
        &self.time
    }

    /// The pairs that the operations delete, ascending, none of them of the range.
    pub fn deletes(&self) -> &[Tagged]
        ensures { result.now ≡ self.now.deletes }
    {
        &self.deletes
    }

    /// The triples that the operations insert and none of them deletes, each with its tick, ascending.
    pub fn inserts(&self) -> &[(Triple, u32)]
        ensures { result.now ≡ self.now.inserts }
    {
        &self.inserts
    }

    /// A copy.
    pub fn copy_in(&self, alloc: Global) -> Result<Entry, AllocError>
        ensures { IfOk result (λ copy. copy ≡ self.now) }
    {
        let time = self.time.copy_in(alloc)?;
        let deletes = copy_pairs(alloc, &self.deletes)?;
        let inserts = copy_inserts(alloc, &self.inserts)?;
        Ok(Entry {
            first: self.first,
            time,
            deletes,
            inserts,
        })
    }
}

// A copy of a list of inserts.
fn copy_inserts(alloc: Global, inserts: &[(Triple, u32)]) -> Result<Vec<(Triple, u32)>, AllocError>
    ensures { IfOk result (λ copy. copy.items ≡ inserts.now) }
{
    let mut copy = Vec::with_capacity(alloc, inserts.len())?;
    for (triple, tick) in inserts {
        copy.push((triple.share()?, *tick))?;
    }
    Ok(copy)
}

// Whether these are the parts of an entry.
fn is_entry(range: &Range, time: &Clock, deletes: &[Tagged], inserts: &[(Triple, u32)]) -> bool
    ensures entry { IsTrue result
        ↔ IsEntry (record { range = range.now; time = time.now.ticks; deletes = deletes.now; inserts = inserts.now }) }
    ensures room { IsTrue result → HasRoom time.now range.now.path }
{
    has_own_ticks(range, time) && are_deletes(range, time, deletes) && are_inserts(range, inserts)
}

// Whether the range has a dot, no tick 0, and the time ends it.
fn has_own_ticks(range: &Range, time: &Clock) -> bool
    ensures own { IsTrue result ↔ HasOwnTicks range.now time.now.ticks }
    ensures room { IsTrue result → HasRoom time.now range.now.path }
{
    1 <= range.first && range.first <= range.last && time.ticks(&range.path) == range.last
}

// Whether the pairs ascend, and each is covered by the time and none of the range.
fn are_deletes(range: &Range, time: &Clock, deletes: &[Tagged]) -> bool
    ensures { IsTrue result ↔ AreDeletes range.now time.now.ticks deletes.now }
{
    is_ascending(deletes) && all_covered(time, deletes) && all_outside(range, deletes)
}

// Whether the inserts ascend, and each tick is one of the range.
fn are_inserts(range: &Range, inserts: &[(Triple, u32)]) -> bool
    ensures { IsTrue result ↔ AreInserts range.now inserts.now }
{
    is_ascending(inserts) && all_inside(range, inserts)
}

// Whether each item is below the next one.
fn is_ascending<T: Ord>(items: &[T]) -> bool
    ensures { IsTrue result ↔ IsAscending T.cmp items.now }
{
    items.is_sorted_by(|a, b| a.cmp(b).is_lt())
}

// Whether the time covers the dot of each pair.
fn all_covered(time: &Clock, pairs: &[Tagged]) -> bool
    ensures { IsTrue result ↔ AllByRecursion (λ (pair : Tagged). Covers time.now.ticks pair.dot) pairs.now }
{
    for pair in pairs {
        if !time.covers(&pair.dot) {
            return false;
        }
    }
    true
}

// Whether no pair has a dot of the range.
fn all_outside(range: &Range, pairs: &[Tagged]) -> bool
    ensures { IsTrue result ↔ AllByRecursion (λ (pair : Tagged). ¬ IsIn range.now pair.dot) pairs.now }
{
    for pair in pairs {
        if range.contains(&pair.dot) {
            return false;
        }
    }
    true
}

// Whether each tick is one of the range.
fn all_inside(range: &Range, inserts: &[(Triple, u32)]) -> bool
    ensures { IsTrue result
        ↔ AllByRecursion (λ (insert : Triple × ℕ). (range.now.first ≤ insert.1) × (insert.1 ≤ range.now.last))
        inserts.now }
{
    for (_, tick) in inserts {
        if *tick < range.first || range.last < *tick {
            return false;
        }
    }
    true
}
