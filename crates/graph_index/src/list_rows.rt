//! Rows of a list of pairs, with numbers of a graph's tables.
ghost use Rattle.std.specs.Prelude.{◌≡◌, ◌∷◌, ◌++◌, ◌⊎◌, [], ℕ, None, Some, IfOk, OnOk, map, replicate, slice_index_or};
ghost use Rattle.mld_ops.specs.PairLists.{path_numbered, row_pair, rows_pairs};
ghost use Rattle.number_tables.specs.TableNumbers.{number_of_path};
ghost use Rattle.pair_orders.specs.PairEntries.{StandOnce};
ghost use Rattle.graph_index.specs.Graphs.{pairs_of};
ghost use Rattle.graph_index.specs.Matching.{HasNoRepeat};
ghost use Rattle.graph_index.specs.TermNumbers.{AreNoted, AreNumbersOf, HaveOwnNumbers, KeepsNumbers};

use crate::tables::Tables;
use mld_ops::{PairRow, row_ref};
use pair_orders::Numbers;
use std::alloc::{AllocError, Global};
use tree_clock::Path;

/// Rows with their numbers, which name paths as the tables do. A path is looked up once, and one that no row names gets no number.
pub(crate) fn with_table_numbers(
    alloc: Global,
    tables: &mut Tables,
    paths: &[Path],
    rows: &[PairRow],
) -> Result<Vec<(Numbers, PairRow)>, AllocError>
    requires { HasNoRepeat (rows_pairs paths.now rows.now) }
    ensures own { IfOk result (λ entries. HaveOwnNumbers tables.new entries.items) }
    ensures once { IfOk result (λ entries. StandOnce (map (λ entry. entry.0) entries.items)) }
    ensures pairs { IfOk result (λ entries. pairs_of tables.new.paths entries.items ≡ rows_pairs paths.now rows.now) }
{
    let mut noted = nothing_noted(alloc, paths.len())?;
    let mut entries = Vec::with_capacity(alloc, rows.len())?;
    for row in rows {
        add_row(tables, &mut noted, &mut entries, paths, row)?;
    }
    Ok(entries)
}

// Places for the numbers of so many paths.
fn nothing_noted(alloc: Global, count: usize) -> Result<Vec<Option<u32>>, AllocError>
    ensures { IfOk result (λ noted. noted.items ≡ replicate count None) }
{
    vec![in alloc; None; count]
}

// Adds a copy of a row with its numbers.
fn add_row(
    tables: &mut Tables,
    noted: &mut Vec<Option<u32>>,
    entries: &mut Vec<(Numbers, PairRow)>,
    paths: &[Path],
    row: &PairRow,
) -> Result<(), AllocError>
    requires noted { AreNoted tables.old paths.now noted.old.items }
    requires own { HaveOwnNumbers tables.old entries.old.items }
    ensures noted { OnOk result (AreNoted tables.new paths.now noted.new.items) }
    ensures own { OnOk result (HaveOwnNumbers tables.new entries.new.items) }
    ensures pairs { OnOk result (pairs_of tables.new.paths entries.new.items
        ≡ pairs_of tables.old.paths entries.old.items ++ row_pair paths.now row.now ∷ []) }
{
    let numbers = give_row(tables, noted, paths, row)?;
    let triple = row.triple.share()?;
    let path = numbers.path;
    let tick = row.tick;
    entries.push((numbers, PairRow { triple, path, tick }))?;
    Ok(())
}

// The numbers of a row's pair, of which what has none gets one.
fn give_row(
    tables: &mut Tables,
    noted: &mut Vec<Option<u32>>,
    paths: &[Path],
    row: &PairRow,
) -> Result<Numbers, AllocError>
    requires { AreNoted tables.old paths.now noted.old.items }
    ensures grown { KeepsNumbers tables.old tables.new }
    ensures noted { OnOk result (AreNoted tables.new paths.now noted.new.items) }
    ensures ok { IfOk result (AreNumbersOf tables.new (row_pair paths.now row.now)) }
{
    let path = give_path_of(tables, noted, paths, row)?;
    let terms = tables.give_terms(&row.triple)?;
    let tick = row.tick;
    Ok(Numbers {
        s: terms.0,
        p: terms.1,
        o: terms.2,
        path,
        tick,
    })
}

// The number of a row's path, which is noted.
fn give_path_of(
    tables: &mut Tables,
    noted: &mut Vec<Option<u32>>,
    paths: &[Path],
    row: &PairRow,
) -> Result<u32, AllocError>
    requires { AreNoted tables.old paths.now noted.old.items }
    ensures grown { KeepsNumbers tables.old tables.new }
    ensures noted { OnOk result (AreNoted tables.new paths.now noted.new.items) }
    ensures ok { IfOk result (λ number. number_of_path tables.new.paths (path_numbered paths.now row.now.path) ≡ Some number) }
{
    if let Some(number) = noted_at(noted, row.path) {
        return Ok(number);
    }
    let number = tables.give_path(&row_ref(paths, row).dot.path)?;
    note(noted, row.path, number);
    Ok(number)
}

// What is noted of a path, if anything is.
fn noted_at(noted: &[Option<u32>], at: u32) -> Option<u32>
    ensures { result ≡ slice_index_or noted.now at None }
{
    let at = at as usize;
    if at < noted.len() { noted[at] } else { None }
}

// Notes the number of a path, where there is a place for it.
fn note(noted: &mut Vec<Option<u32>>, at: u32, number: u32)
    ensures { (other found : ℕ) → slice_index_or noted.new.items other None ≡ Some found
        → (slice_index_or noted.old.items other None ≡ Some found) ⊎ ((other ≡ at) × (number ≡ found)) }
{
    let at = at as usize;
    if at < noted.len() {
        noted[at] = Some(number);
    }
}
