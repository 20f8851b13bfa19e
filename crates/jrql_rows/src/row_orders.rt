//! The orders of kept rows, and the texts by which they are sorted first.
ghost use Rattle.std.specs.Prelude.{◌≡◌, IfOk};
ghost use Rattle.std.specs.Cmp.Lexicographic.{slice_cmp};
ghost use Rattle.std.specs.List.{range_with_len};
ghost use Rattle.jrql_ast.specs.QueryAnswers.{IsSortingOf, reply_place_cmp, row_cmp};
ghost use Rattle.jrql_rows.specs.KeptValues.{rows_at};

use crate::kept::KeptRows;
use crate::places::{plain_hint, plain_shared, reply_hint, reply_shared};
use graph_index::hinted_chunks::{TextOrder, sort_by_hints};
use std::alloc::{AllocError, Global};
use std::cmp::Ordering;

// By their values, from the first, in the order of replies.
#[derive(Drop)]
struct ByReplies<'a, 'b> {
    kept: &'b KeptRows<'a>,
}

impl<'a, 'b> TextOrder<usize> for ByReplies<'a, 'b> {
    ghost use Rattle.std.proofs.lemmas.Cmp.{on_total};
    ghost use Rattle.std.specs.Cmp.Lexicographic.{slice_cmp};
    ghost use Rattle.jrql_ast.proofs.OneAnswer.{replies_total};
    ghost use Rattle.jrql_ast.specs.QueryAnswers.{reply_place_cmp};
    ghost use Rattle.jrql_rows.specs.KeptValues.{row_at};
    ghost use Rattle.jrql_rows.specs.RowFronts.{first_place, front_in_place, reply_front};
    ghost use Rattle.jrql_rows.specs.RowFrontLaws.{reply_rows_tell};

    ghost order = { λ by row other. slice_cmp reply_place_cmp (row_at by.kept.now.rows row) (row_at by.kept.now.rows other) };

    ghost text = { λ by row. front_in_place reply_front (first_place (row_at by.kept.now.rows row)) };

    ghost total = { λ by. on_total (λ row. row_at by.kept.now.rows row) replies_total };

    ghost by_text = { λ by row other. reply_rows_tell (row_at by.kept.now.rows row) (row_at by.kept.now.rows other) };

    fn compare(&self, row: &usize, other: &usize) -> Ordering {
        self.kept.compare_replies(*row, *other)
    }

    fn shared(&self, row: &usize, other: &usize) -> usize {
        reply_shared(self.kept.first(*row), self.kept.first(*other))
    }

    fn hint(&self, row: &usize, place: usize) -> u64 {
        reply_hint(self.kept.first(*row), place)
    }
}

// By their values for these columns, from the first, in the plain order.
#[derive(Drop)]
struct ByColumns<'a, 'b> {
    kept: &'b KeptRows<'a>,
    columns: &'b [u16],
}

impl<'a, 'b> TextOrder<usize> for ByColumns<'a, 'b> {
    ghost use Rattle.std.proofs.lemmas.Cmp.{on_total};
    ghost use Rattle.jrql_ast.proofs.OneAnswer.{values_total};
    ghost use Rattle.jrql_ast.specs.QueryAnswers.{project, row_cmp};
    ghost use Rattle.graph_index.specs.hinted_chunks.TermFronts.{term_front};
    ghost use Rattle.jrql_rows.specs.KeptValues.{row_at};
    ghost use Rattle.jrql_rows.specs.RowFronts.{first_place, front_in_place};
    ghost use Rattle.jrql_rows.specs.RowFrontLaws.{plain_rows_tell};

    ghost order = { λ by row other. row_cmp by.columns.now (row_at by.kept.now.rows row) (row_at by.kept.now.rows other) };

    ghost text = { λ by row. front_in_place term_front (first_place (project by.columns.now (row_at by.kept.now.rows row))) };

    ghost total = { λ by. on_total (λ row. project by.columns.now (row_at by.kept.now.rows row)) values_total };

    ghost by_text = { λ by row other. plain_rows_tell (project by.columns.now (row_at by.kept.now.rows row)) (project by.columns.now (row_at by.kept.now.rows other)) };

    fn compare(&self, row: &usize, other: &usize) -> Ordering {
        self.kept.compare_by(self.columns, *row, *other)
    }

    fn shared(&self, row: &usize, other: &usize) -> usize {
        let place = self.kept.first_by(self.columns, *row);
        plain_shared(place, self.kept.first_by(self.columns, *other))
    }

    fn hint(&self, row: &usize, place: usize) -> u64 {
        plain_hint(self.kept.first_by(self.columns, *row), place)
    }
}

// The numbers of so many rows.
fn all_rows(alloc: Global, rows: usize) -> Result<Vec<usize>, AllocError>
    ensures { IfOk result (λ numbers. numbers.items ≡ range_with_len 0 rows) }
{
    let mut numbers = Vec::with_capacity(alloc, rows)?;
    for row in 0..rows {
        numbers.push(row)?;
    }
    Ok(numbers)
}

/// The numbers of the kept rows, sorted by their values, from the first, in the order of replies.
pub fn sorted_by_replies(alloc: Global, kept: &KeptRows<'_>) -> Result<Vec<usize>, AllocError>
    ensures { IfOk result (λ sorted. IsSortingOf (slice_cmp reply_place_cmp) kept.now.rows (rows_at kept.now.rows sorted.items)) }
{
    let mut sorted = all_rows(alloc, kept.len())?;
    sort_by_hints(alloc, &ByReplies { kept }, &mut sorted)?;
    Ok(sorted)
}

/// The numbers of the kept rows, sorted by their values for these columns, from the first, in the plain order.
pub fn sorted_by_columns(
    alloc: Global,
    kept: &KeptRows<'_>,
    columns: &[u16],
) -> Result<Vec<usize>, AllocError>
    ensures { IfOk result (λ sorted. IsSortingOf (row_cmp columns.now) kept.now.rows (rows_at kept.now.rows sorted.items)) }
{
    let mut sorted = all_rows(alloc, kept.len())?;
    sort_by_hints(alloc, &ByColumns { kept, columns }, &mut sorted)?;
    Ok(sorted)
}
