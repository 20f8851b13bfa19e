//! Changes of numbered pairs.
ghost use Rattle.std.specs.Prelude.{◌≡◌, ◌<◌, ◌≤◌, ◌+◌, ◌⊎◌, ◌↔◌, IfOk, OnOk, map, vec_len};
ghost use Rattle.tree_clock.specs.Lists.{Has};
ghost use Rattle.mld_ops.specs.declared.tagged.Tagged.{Tagged};
ghost use Rattle.pair_orders.specs.PairEntries.{StandOnce};
ghost use Rattle.graph_index.specs.Graphs.{pairs_of};
ghost use Rattle.graph_index.specs.Matching.{HasNoRepeat};
ghost use Rattle.graph_index.specs.TermNumbers.{HaveOwnNumbers, IsNumbered};

use crate::tables::Tables;
use mld_ops::{PairRow, Tagged};
use pair_orders::{NumberedPairs, Numbers};
use std::alloc::{AllocError, Global};

/// Takes out those of the pairs that are there. It takes no memory.
pub(crate) fn lose_all(tables: &Tables, numbered: &mut NumberedPairs, drops: &[Tagged])
    requires { HaveOwnNumbers tables.now numbered.old.pairs }
    ensures numbered { HaveOwnNumbers tables.now numbered.new.pairs }
    ensures members { (pair : Tagged) → Has (pairs_of tables.now.paths numbered.new.pairs) pair
        ↔ (Has (pairs_of tables.now.paths numbered.old.pairs) pair × ¬ Has drops.now pair) }
    ensures room { numbered.old.room ≤ numbered.new.room }
{
    for drop in drops {
        lose(tables, numbered, drop);
    }
}

// Takes a pair out, if it is there.
fn lose(tables: &Tables, numbered: &mut NumberedPairs, pair: &Tagged)
    requires { HaveOwnNumbers tables.now numbered.old.pairs }
    ensures numbered { HaveOwnNumbers tables.now numbered.new.pairs }
    ensures members { (other : Tagged) → Has (pairs_of tables.now.paths numbered.new.pairs) other
        ↔ (Has (pairs_of tables.now.paths numbered.old.pairs) other × ¬ (other ≡ pair.now)) }
    ensures room { numbered.old.room ≤ numbered.new.room }
{
    if let Some(numbers) = tables.numbers(pair) {
        numbered.remove(&numbers);
    }
}

/// Puts in those that aren't there. Numbers may be given for them, and are taken where they are right. It takes no memory.
pub(crate) fn gain_all(
    tables: &Tables,
    numbered: &mut NumberedPairs,
    given: &mut Vec<Numbers>,
    adds: Vec<Tagged>,
)
    requires numbered { HaveOwnNumbers tables.now numbered.old.pairs }
    requires adds { (pair : Tagged) → Has adds.items pair → IsNumbered tables.now pair }
    requires room { vec_len adds ≤ numbered.old.room }
    ensures numbered { HaveOwnNumbers tables.now numbered.new.pairs }
    ensures members { (pair : Tagged) → Has (pairs_of tables.now.paths numbered.new.pairs) pair
        ↔ (Has (pairs_of tables.now.paths numbered.old.pairs) pair ⊎ Has adds.items pair) }
{
    let mut rest = adds;
    while let Some(pair) = rest.pop() {
        gain(tables, numbered, given.pop(), pair);
    }
}

// Puts a pair in, unless it is there.
fn gain(tables: &Tables, numbered: &mut NumberedPairs, given: Option<Numbers>, pair: Tagged)
    requires numbered { HaveOwnNumbers tables.now numbered.old.pairs }
    requires pair { IsNumbered tables.now pair }
    requires room { 0 < numbered.old.room }
    ensures numbered { HaveOwnNumbers tables.now numbered.new.pairs }
    ensures members { (other : Tagged) → Has (pairs_of tables.now.paths numbered.new.pairs) other
        ↔ (Has (pairs_of tables.now.paths numbered.old.pairs) other ⊎ (other ≡ pair)) }
    ensures room { numbered.old.room ≤ numbered.new.room + 1 }
{
    if let Some(numbers) = tables.numbers_by(given, &pair) {
        numbered.insert(numbers, row_of(pair, numbers.path));
    }
}

/// Pairs with their numbers. Numbers may be given for them, and are taken where they are right.
pub(crate) fn with_numbers(
    alloc: Global,
    tables: &Tables,
    given: &mut Vec<Numbers>,
    list: Vec<Tagged>,
) -> Result<Vec<(Numbers, PairRow)>, AllocError>
    requires numbered { (pair : Tagged) → Has list.items pair → IsNumbered tables.now pair }
    requires once { HasNoRepeat list.items }
    ensures own { IfOk result (λ entries. HaveOwnNumbers tables.now entries.items) }
    ensures once { IfOk result (λ entries. StandOnce (map (λ entry. entry.0) entries.items)) }
    ensures members { IfOk result (λ entries. (pair : Tagged) → Has (pairs_of tables.now.paths entries.items) pair ↔ Has list.items pair) }
{
    let mut entries = Vec::with_capacity(alloc, list.len())?;
    let mut rest = list;
    while let Some(pair) = rest.pop() {
        add_entry(tables, &mut entries, given.pop(), pair)?;
    }
    Ok(entries)
}

// Adds a pair with its numbers that isn't there yet.
fn add_entry(
    tables: &Tables,
    entries: &mut Vec<(Numbers, PairRow)>,
    given: Option<Numbers>,
    pair: Tagged,
) -> Result<(), AllocError>
    requires own { HaveOwnNumbers tables.now entries.old.items }
    requires once { StandOnce (map (λ entry. entry.0) entries.old.items) }
    requires pair { IsNumbered tables.now pair }
    requires apart { ¬ Has (pairs_of tables.now.paths entries.old.items) pair }
    ensures own { OnOk result (HaveOwnNumbers tables.now entries.new.items) }
    ensures once { OnOk result (StandOnce (map (λ entry. entry.0) entries.new.items)) }
    ensures members { OnOk result ((other : Tagged) → Has (pairs_of tables.now.paths entries.new.items) other
        ↔ (Has (pairs_of tables.now.paths entries.old.items) other ⊎ (other ≡ pair))) }
{
    if let Some(numbers) = tables.numbers_by(given, &pair) {
        entries.push((numbers, row_of(pair, numbers.path)))?;
    }
    Ok(())
}

// The row of a pair whose path has this number. The triple moves to it.
fn row_of(pair: Tagged, path: u32) -> PairRow
    ensures { result ≡ record { triple = pair.triple; path = path; tick = pair.dot.tick } }
{
    let tick = pair.dot.tick;
    PairRow {
        triple: pair.triple,
        path,
        tick,
    }
}
