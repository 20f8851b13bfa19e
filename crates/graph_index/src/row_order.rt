//! The order of rows by their pairs.
ghost use Rattle.std.specs.Prelude.{◌≡◌};
ghost use Rattle.mld_ops.specs.PairLists.{row_pair};
ghost use Rattle.mld_ops.specs.Tagged.{tagged_cmp};
ghost use Rattle.tree_clock.specs.Dot.{dot_cmp};

use mld_ops::{PairRow, row_ref};
use pair_orders::chunked_list::hinted_chunks::{TextOrder, closed_hint, closed_shared};
use std::cmp::Ordering;
use tree_clock::Path;

/// How the pairs of two rows compare.
pub(crate) fn cmp_rows(paths: &[Path], a: &PairRow, b: &PairRow) -> Ordering
    ensures { result ≡ tagged_cmp (row_pair paths.now a.now) (row_pair paths.now b.now) }
{
    match a.triple.cmp(&b.triple) {
        Ordering::Less => Ordering::Less,
        Ordering::Equal => cmp_dots(paths, a, b),
        Ordering::Greater => Ordering::Greater,
    }
}

// How their dots compare. Those of one path are told by their ticks, and no path is looked at.
fn cmp_dots(paths: &[Path], a: &PairRow, b: &PairRow) -> Ordering
    ensures { result ≡ dot_cmp (row_pair paths.now a.now).dot (row_pair paths.now b.now).dot }
{
    if a.path == b.path {
        return a.tick.cmp(&b.tick);
    }
    row_ref(paths, a).dot.cmp(&row_ref(paths, b).dot)
}

/// By triple, then by the text of the path, then by tick.
#[derive(Drop)]
pub(crate) struct RowOrder<'a> {
    pub(crate) paths: &'a [Path],
}

impl<'a> TextOrder<PairRow> for RowOrder<'a> {
    ghost use Rattle.std.proofs.lemmas.Cmp.{on_total};
    ghost use Rattle.mld_ops.specs.PairLists.{row_pair};
    ghost use Rattle.mld_ops.specs.Tagged.{tagged_cmp};
    ghost use Rattle.mld_ops.proofs.TaggedLaws.{tagged_total};
    ghost use Rattle.pair_orders.specs.chunked_list.ClosedTexts.{closed_text};
    ghost use Rattle.graph_index.specs.SubjectLaws.{pairs_by_subject};

    ghost order = { λ o a b. tagged_cmp (row_pair o.paths.now a) (row_pair o.paths.now b) };

    ghost text = { λ _ row. closed_text row.triple.s };

    ghost total = { λ o. on_total (row_pair o.paths.now) tagged_total };

    ghost by_text = { λ o a b. pairs_by_subject (row_pair o.paths.now a) (row_pair o.paths.now b) };

    fn compare(&self, a: &PairRow, b: &PairRow) -> Ordering {
        cmp_rows(self.paths, a, b)
    }

    fn shared(&self, a: &PairRow, b: &PairRow) -> usize {
        closed_shared(&a.triple.s, &b.triple.s)
    }

    fn hint(&self, row: &PairRow, place: usize) -> u64 {
        closed_hint(&row.triple.s, place)
    }
}

impl<'a, 'b> TextOrder<&'b PairRow> for RowOrder<'a> {
    ghost use Rattle.std.proofs.lemmas.Cmp.{on_total};
    ghost use Rattle.mld_ops.specs.PairLists.{row_pair};
    ghost use Rattle.mld_ops.specs.Tagged.{tagged_cmp};
    ghost use Rattle.mld_ops.proofs.TaggedLaws.{tagged_total};
    ghost use Rattle.pair_orders.specs.chunked_list.ClosedTexts.{closed_text};
    ghost use Rattle.graph_index.specs.SubjectLaws.{pairs_by_subject};

    ghost order = { λ o a b. tagged_cmp (row_pair o.paths.now a.now) (row_pair o.paths.now b.now) };

    ghost text = { λ _ row. closed_text row.now.triple.s };

    ghost total = { λ o. on_total (λ row. row_pair o.paths.now row.now) tagged_total };

    ghost by_text = { λ o a b. pairs_by_subject (row_pair o.paths.now a.now) (row_pair o.paths.now b.now) };

    fn compare(&self, a: &&'b PairRow, b: &&'b PairRow) -> Ordering {
        cmp_rows(self.paths, *a, *b)
    }

    fn shared(&self, a: &&'b PairRow, b: &&'b PairRow) -> usize {
        closed_shared(&a.triple.s, &b.triple.s)
    }

    fn hint(&self, row: &&'b PairRow, place: usize) -> u64 {
        closed_hint(&row.triple.s, place)
    }
}
