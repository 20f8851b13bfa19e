//! Pairs that were found, in order.
ghost use Rattle.std.specs.Prelude.{◌≡◌, OnOk, map, IsTrue};
ghost use Rattle.mld_ops.specs.PairLists.{row_pair, rows_pairs};
ghost use Rattle.mld_ops.specs.Tagged.{tagged_cmp};
ghost use Rattle.tree_clock.specs.Lists.{IsAscending};
ghost use Rattle.graph_index.specs.Graphs.{in_order_of};
ghost use Rattle.graph_index.specs.Matching.{HasNoRepeat};

use crate::row_order::{RowOrder, cmp_rows};
use mld_ops::PairRow;
use pair_orders::chunked_list::hinted_chunks::sort_by_hints;
use std::alloc::{AllocError, Global};
use tree_clock::Path;

/// Puts the rows of a few pairs in order, of which none stands twice. It takes no memory.
pub(crate) fn sort_found(paths: &[Path], found: &mut Vec<&PairRow>)
    requires { HasNoRepeat (rows_pairs paths.now (map (λ row. row.now) found.old.items)) }
    ensures { rows_pairs paths.now (map (λ row. row.now) found.new.items)
        ≡ in_order_of (rows_pairs paths.now (map (λ row. row.now) found.old.items)) }
{
    found.sort_unstable_by(|a, b| cmp_rows(paths, a, b));
}

// Whether the pair of each row comes before that of the next one.
fn are_in_order(paths: &[Path], found: &[&PairRow]) -> bool
    ensures { IsTrue result
        → IsAscending (λ a b. tagged_cmp (row_pair paths.now a.now) (row_pair paths.now b.now)) found.now }
{
    found.is_sorted_by(|a, b| cmp_rows(paths, a, b).is_lt())
}

/// Puts the rows of many pairs in order, of which none stands twice. Those that are in order, as what came so mostly is, stay as they are.
pub(crate) fn sort_many(
    alloc: Global,
    paths: &[Path],
    found: &mut Vec<&PairRow>,
) -> Result<(), AllocError>
    requires { HasNoRepeat (rows_pairs paths.now (map (λ row. row.now) found.old.items)) }
    ensures { OnOk result (rows_pairs paths.now (map (λ row. row.now) found.new.items)
        ≡ in_order_of (rows_pairs paths.now (map (λ row. row.now) found.old.items))) }
{
    if are_in_order(paths, found) {
        return Ok(());
    }
    sort_by_hints(alloc, &RowOrder { paths }, found)
}

/// Puts rows in order, of whose pairs none stands twice.
pub(crate) fn sort_rows(
    alloc: Global,
    paths: &[Path],
    rows: &mut Vec<PairRow>,
) -> Result<(), AllocError>
    requires { HasNoRepeat (rows_pairs paths.now rows.old.items) }
    ensures { OnOk result (rows_pairs paths.now rows.new.items ≡ in_order_of (rows_pairs paths.now rows.old.items)) }
{
    sort_by_hints(alloc, &RowOrder { paths }, rows)
}
