//! Pairs that are lent where they stand.
ghost use Rattle.std.specs.Prelude.{◌≡◌, ◌↔◌, [], length, map, IfOk, IsTrue};
ghost use Rattle.std.specs.List.{slice_get};
ghost use Rattle.std.specs.Option.{option_copied, option_map};
ghost use Rattle.graph_index.specs.Graphs.{in_order_of};
ghost use Rattle.graph_index.specs.Matching.{HasNoRepeat};
ghost use Rattle.mld_ops.specs.PairLists.{pair_lent, rows_pairs};

use crate::copies::{copy_rows, dots_of_rows, share_rows};
use crate::found::{sort_found, sort_many};
use mld_ops::{PairList, PairRef, PairRow, Tagged, row_ref};
use rdf_terms::Triple;
use std::alloc::{AllocError, Global};
use std::marker::Model;
use tree_clock::{Dot, Path};

/// Pairs that are lent where they stand. Contracts see the list.
#[derive(Drop)]
pub struct LentPairs<'a> {
    paths: &'a [Path],
    rows: Vec<&'a PairRow>,
}

impl<'a> Model for LentPairs<'a> {
    ghost use Rattle.std.specs.Prelude.{List, map};
    ghost use Rattle.mld_ops.specs.PairLists.{rows_pairs};
    ghost use Rattle.mld_ops.specs.declared.tagged.Tagged.{Tagged};

    ghost Value = { List Tagged };

    ghost view = { λ pairs. rows_pairs pairs.paths.now (map (λ row. row.now) pairs.rows.items) };
}

impl<'a> LentPairs<'a> {
    /// The pairs of these rows.
    pub(crate) fn new(paths: &'a [Path], rows: Vec<&'a PairRow>) -> LentPairs<'a>
        ensures { result ≡ rows_pairs paths.now (map (λ row. row.now) rows.entry.items) }
    {
        LentPairs { paths, rows }
    }

    /// The number of pairs.
    pub fn len(&self) -> usize
        ensures { result ≡ length self.now }
    {
        self.rows.len()
    }

    /// Whether there is no pair.
    pub fn is_empty(&self) -> bool
        ensures { IsTrue result ↔ (self.now ≡ []) }
    {
        self.rows.is_empty()
    }

    /// The pair at a place, where one is there.
    pub fn get(&self, at: usize) -> Option<PairRef<'a>>
        ensures { option_map pair_lent result ≡ slice_get self.now at }
    {
        let row = row_at(&self.rows, at)?;
        Some(row_ref(self.paths, row))
    }

    /// The triple of the pair at a place, where one is there.
    pub fn triple(&self, at: usize) -> Option<&'a Triple>
        ensures { option_copied result ≡ option_map (λ pair. pair.triple) (slice_get self.now at) }
    {
        let row = row_at(&self.rows, at)?;
        Some(&row.triple)
    }

    /// A few pairs in order, of which none stands twice. It takes no memory.
    pub(crate) fn in_order(self) -> LentPairs<'a>
        requires { HasNoRepeat self }
        ensures { result ≡ in_order_of self.entry }
    {
        let LentPairs { paths, mut rows } = self;
        sort_found(paths, &mut rows);
        LentPairs { paths, rows }
    }

    /// Many pairs in order, of which none stands twice.
    pub(crate) fn sorted(self, alloc: Global) -> Result<LentPairs<'a>, AllocError>
        requires { HasNoRepeat self }
        ensures { IfOk result (λ pairs. pairs ≡ in_order_of self.entry) }
    {
        let LentPairs { paths, mut rows } = self;
        sort_many(alloc, paths, &mut rows)?;
        Ok(LentPairs { paths, rows })
    }

    /// A copy.
    pub(crate) fn to_list(&self, alloc: Global) -> Result<Vec<Tagged>, AllocError>
        ensures { IfOk result (λ list. list.items ≡ self.now) }
    {
        copy_rows(alloc, self.paths, &self.rows)
    }

    /// A copy that names each path once.
    pub(crate) fn to_pairs(&self, alloc: Global) -> Result<PairList, AllocError>
        ensures { IfOk result (λ pairs. pairs ≡ self.now) }
    {
        share_rows(alloc, self.paths, &self.rows)
    }

    /// Their dots.
    pub(crate) fn dots(&self, alloc: Global) -> Result<Vec<Dot>, AllocError>
        ensures { IfOk result (λ dots. dots.items ≡ map (λ pair. pair.dot) self.now) }
    {
        dots_of_rows(alloc, self.paths, &self.rows)
    }
}

// The row at a place, where one is there.
fn row_at<'a>(rows: &[&'a PairRow], at: usize) -> Option<&'a PairRow>
    ensures { option_copied result ≡ slice_get (map (λ row. row.now) rows.now) at }
{
    let row = rows.get(at)?;
    Some(*row)
}
