//! Copies of pairs.
ghost use Rattle.std.specs.Prelude.{◌≡◌, ◌++◌, map, IfOk, OnOk};
ghost use Rattle.mld_ops.specs.PairLists.{row_pair, rows_pairs};
ghost use Rattle.pair_orders.specs.chunked_list.Joined.{joined_chunks};

use mld_ops::{PairList, PairRow, Tagged, row_ref};
use pair_orders::chunked_list::Chunk;
use std::alloc::{AllocError, Global};
use tree_clock::{Dot, Path};

/// A copy of the pairs in chunks.
pub(crate) fn copy_chunks(
    alloc: Global,
    chunks: &[Chunk<Tagged>],
) -> Result<Vec<Tagged>, AllocError>
    ensures { IfOk result (λ list. list.items ≡ joined_chunks chunks.now) }
{
    let mut list = Vec::new(alloc);
    for chunk in chunks {
        add_copies(&mut list, chunk.as_slice())?;
    }
    Ok(list)
}

// Adds copies of pairs.
fn add_copies(list: &mut Vec<Tagged>, pairs: &[Tagged]) -> Result<(), AllocError>
    ensures { OnOk result (list.new.items ≡ list.old.items ++ pairs.now) }
{
    for pair in pairs {
        list.push(pair.share()?)?;
    }
    Ok(())
}

/// A copy of the pairs that were found.
pub(crate) fn copy_found(alloc: Global, found: &[&Tagged]) -> Result<Vec<Tagged>, AllocError>
    ensures { IfOk result (λ list. list.items ≡ map (λ x. x.now) found.now) }
{
    let mut list = Vec::new(alloc);
    for pair in found {
        list.push(pair.share()?)?;
    }
    Ok(list)
}

/// A copy of the pairs of rows that are lent.
pub(crate) fn copy_rows(
    alloc: Global,
    paths: &[Path],
    rows: &[&PairRow],
) -> Result<Vec<Tagged>, AllocError>
    ensures { IfOk result (λ list. list.items ≡ rows_pairs paths.now (map (λ row. row.now) rows.now)) }
{
    let mut list = Vec::with_capacity(alloc, rows.len())?;
    for row in rows {
        list.push(row_ref(paths, row).share()?)?;
    }
    Ok(list)
}

/// A copy of rows that are lent, with all paths.
pub(crate) fn share_rows(
    alloc: Global,
    paths: &[Path],
    rows: &[&PairRow],
) -> Result<PairList, AllocError>
    ensures { IfOk result (λ pairs. pairs ≡ rows_pairs paths.now (map (λ row. row.now) rows.now)) }
{
    let own_paths = Vec::from_slice(alloc, paths)?;
    let own_rows = copies_of(alloc, rows)?;
    Ok(PairList::from_rows(own_paths, own_rows))
}

// Copies of rows that are lent.
fn copies_of(alloc: Global, rows: &[&PairRow]) -> Result<Vec<PairRow>, AllocError>
    ensures { IfOk result (λ copies. copies.items ≡ map (λ row. row.now) rows.now) }
{
    let mut copies = Vec::with_capacity(alloc, rows.len())?;
    for row in rows {
        copies.push(row.share()?)?;
    }
    Ok(copies)
}

/// The dots of the pairs of rows that are lent.
pub(crate) fn dots_of_rows(
    alloc: Global,
    paths: &[Path],
    rows: &[&PairRow],
) -> Result<Vec<Dot>, AllocError>
    ensures { IfOk result (λ dots. dots.items
        ≡ map (λ pair. pair.dot) (rows_pairs paths.now (map (λ row. row.now) rows.now))) }
{
    let mut dots = Vec::with_capacity(alloc, rows.len())?;
    for row in rows {
        dots.push(row_ref(paths, row).dot)?;
    }
    Ok(dots)
}

/// The pairs of rows, to which these move.
pub(crate) fn into_pairs(
    alloc: Global,
    paths: &[Path],
    rows: Vec<PairRow>,
) -> Result<Vec<Tagged>, AllocError>
    ensures { IfOk result (λ list. list.items ≡ rows_pairs paths.now rows.items) }
{
    let mut list = Vec::with_capacity(alloc, rows.len())?;
    for row in rows {
        list.push(into_pair(paths, row))?;
    }
    Ok(list)
}

// The pair of a row, whose triple moves to it.
fn into_pair(paths: &[Path], row: PairRow) -> Tagged
    ensures { result ≡ row_pair paths.now row }
{
    let dot = row_ref(paths, &row).dot;
    Tagged {
        triple: row.triple,
        dot,
    }
}
