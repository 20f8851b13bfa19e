//! Rows that are kept while a group is solved.
ghost use Rattle.std.specs.Prelude.{◌≡◌, ◌<◌, ◌≤◌, ◌+◌, ◌*◌, ◌-◌, ◌∷◌, [], length, IfOk, IsTrue, OnOk, OnErr};
ghost use Rattle.std.specs.Cmp.Lexicographic.{slice_cmp};
ghost use Rattle.std.specs.List.{slice_index_or};
ghost use Rattle.std.specs.Option.{option_copied};
ghost use Rattle.jrql_ast.specs.QueryAnswers.{place_cmp, project, reply_place_cmp, row_cmp, solution_limit};
ghost use Rattle.jrql_ast.specs.Solutions.{value_of};
ghost use Rattle.jrql_rows.specs.Bindings.{row_numbered};
ghost use Rattle.jrql_rows.specs.KeptValues.{AddsRow, KeepsEach, KeepsRows, cut_rows, nothing_kept, row_at, rows_at, rows_numbered};
ghost use Rattle.jrql_rows.specs.RowFronts.{first_place};

use crate::bindings::{Bindings, number_at};
use crate::places::{first_for, first_of};
use crate::rows::{cmp_by, cmp_reply_rows, cmp_rows, make_row, term_of};
use graph_index::Graph;
use jrql_ast::Row;
use rdf_terms::Term;
use std::alloc::{AllocError, Global};
use std::cmp::Ordering;
use std::marker::Model;

// The numbers of a row among so many rows of so many places, or none.
fn numbers_in(width: usize, row: usize, rows: usize, numbers: &[Option<u32>]) -> &[Option<u32>]
    requires { length numbers.now ≡ rows * width }
    ensures { result.now ≡ slice_index_or (cut_rows width rows numbers.now) row [] }
{
    if row < rows {
        let start = row * width;
        &numbers[start..start + width]
    } else {
        &[]
    }
}

// Adds the numbers that a row has for these variables: all, or none where memory is wanting.
fn add_row(
    columns: &[u16],
    row: &Bindings<'_>,
    numbers: &mut Vec<Option<u32>>,
) -> Result<(), AllocError>
    ensures ok { OnOk result (AddsRow row.now.graph columns.now row.now.row numbers.old.items numbers.new.items) }
    ensures err { OnErr result (numbers.new.items ≡ numbers.old.items) }
{
    numbers.reserve(columns.len())?;
    for variable in columns {
        numbers.push_reserved(row.number(*variable as usize));
    }
    Ok(())
}

// Whether the last row is the one in front of it. So many rows were there before.
fn is_repeated(width: usize, rows: usize, numbers: &[Option<u32>]) -> bool
    requires whole { length numbers.now ≡ (rows + 1) * width }
    requires few { rows < solution_limit }
    ensures some { IsTrue result → 0 < rows }
    ensures same { IsTrue result → slice_index_or (cut_rows width (rows + 1) numbers.now) (rows - 1) []
        ≡ slice_index_or (cut_rows width (rows + 1) numbers.now) rows [] }
{
    if rows == 0 {
        return false;
    }
    let last = numbers_in(width, rows - 1, rows + 1, numbers);
    last == numbers_in(width, rows, rows + 1, numbers)
}

// Puts a row behind so many others, but where each is to stand once and it is the last one. It gives how many there are then.
fn put_row(
    distinct: bool,
    columns: &[u16],
    row: &Bindings<'_>,
    rows: usize,
    numbers: &mut Vec<Option<u32>>,
) -> Result<usize, AllocError>
    requires whole { length numbers.old.items ≡ rows * length columns.now }
    requires few { rows < solution_limit }
    ensures kept { IfOk result (λ more. KeepsRows distinct
        (rows_numbered row.now.graph (length columns.now) rows numbers.old.items)
        (project columns.now row.now.row ∷ []) (rows_numbered row.now.graph (length columns.now) more numbers.new.items)) }
    ensures whole { IfOk result (λ more. length numbers.new.items ≡ more * length columns.now) }
    ensures few { IfOk result (λ more. more ≤ rows + 1) }
    ensures err { OnErr result (numbers.new.items ≡ numbers.old.items) }
{
    let start = numbers.len();
    add_row(columns, row, numbers)?;
    if distinct && is_repeated(columns.len(), rows, numbers) {
        numbers.truncate(start);
        return Ok(rows);
    }
    Ok(rows + 1)
}

/// The rows that are kept of those that are found, by the numbers of their terms, and how many were found. Where each is to stand once,
/// those that repeat the one in front of them aren't kept.
#[derive(Drop)]
pub struct KeptRows<'a> {
    graph: &'a Graph,
    columns: &'a [u16],
    distinct: bool,
    count: usize,
    rows: usize,
    numbers: Vec<Option<u32>>,
}

impl<'a> Model for KeptRows<'a> {
    ghost use Rattle.std.specs.Prelude.{length};
    ghost use Rattle.jrql_rows.specs.KeptValues.{KeptValue, AreWholeRows, rows_numbered};

    ghost Value = { KeptValue };

    ghost view = { λ kept. record {
      graph = kept.graph.now;
      columns = kept.columns.now;
      distinct = kept.distinct;
      count = kept.count;
      rows = rows_numbered kept.graph.now (length kept.columns.now) kept.rows kept.numbers.items;
    } };

    ghost invariant = { λ kept. AreWholeRows (length kept.columns.now) kept.rows kept.count kept.numbers.items };
}

impl<'a> KeptRows<'a> {
    /// No row, of which these columns are to be kept, each row once or as often as it is found.
    pub fn new(alloc: Global, graph: &'a Graph, columns: &'a [u16], distinct: bool) -> KeptRows<'a>
        ensures { result ≡ nothing_kept graph.now columns.now distinct }
    {
        KeptRows {
            graph,
            columns,
            distinct,
            count: 0,
            rows: 0,
            numbers: Vec::new(alloc),
        }
    }

    /// The graph that has the numbers.
    pub fn graph(&self) -> &'a Graph
        ensures { result.now ≡ self.now.graph }
    {
        self.graph
    }

    /// How many rows were found.
    pub fn count(&self) -> usize
        ensures { result ≡ self.now.count }
    {
        self.count
    }

    /// How many rows are kept.
    pub fn len(&self) -> usize
        ensures { result ≡ length self.now.rows }
    {
        self.rows
    }

    // The numbers of a row, or none.
    fn numbers_of(&self, row: usize) -> &[Option<u32>]
        ensures { row_numbered self.now.graph result.now ≡ row_at self.now.rows row }
    {
        numbers_in(self.columns.len(), row, self.rows, &self.numbers)
    }

    /// What a row has for a column, by its place among them.
    pub fn value(&self, row: usize, column: usize) -> Option<&'a Term>
        ensures { option_copied result ≡ value_of column (row_at self.now.rows row) }
    {
        term_of(self.graph, number_at(column, self.numbers_of(row)))
    }

    /// Keeps what is asked of a row that is found. There are fewer yet than there may be.
    pub fn keep(&mut self, row: &Bindings<'_>) -> Result<(), AllocError>
        requires graphs { row.now.graph ≡ self.old.graph }
        requires few { self.old.count < solution_limit }
        ensures { OnOk result (KeepsEach self.old (row.now.row ∷ []) self.new) }
    {
        self.rows = put_row(
            self.distinct,
            self.columns,
            row,
            self.rows,
            &mut self.numbers,
        )?;
        self.count += 1;
        Ok(())
    }

    /// Compares two rows in the plain order, by their places, from the first.
    pub fn compare(&self, row: usize, other: usize) -> Ordering
        ensures { result ≡ slice_cmp place_cmp (row_at self.now.rows row) (row_at self.now.rows other) }
    {
        cmp_rows(self.graph, self.numbers_of(row), self.numbers_of(other))
    }

    /// Compares two rows in the order of replies, by their places, from the first.
    pub(crate) fn compare_replies(&self, row: usize, other: usize) -> Ordering
        ensures { result ≡ slice_cmp reply_place_cmp (row_at self.now.rows row) (row_at self.now.rows other) }
    {
        cmp_reply_rows(self.graph, self.numbers_of(row), self.numbers_of(other))
    }

    /// Compares two rows in the plain order, by their values for these columns, from the first.
    pub(crate) fn compare_by(&self, columns: &[u16], row: usize, other: usize) -> Ordering
        ensures { result ≡ row_cmp columns.now (row_at self.now.rows row) (row_at self.now.rows other) }
    {
        cmp_by(
            self.graph,
            columns,
            self.numbers_of(row),
            self.numbers_of(other),
        )
    }

    /// The first place of a row.
    pub(crate) fn first(&self, row: usize) -> Option<&'a Term>
        ensures { option_copied result ≡ first_place (row_at self.now.rows row) }
    {
        first_of(self.graph, self.numbers_of(row))
    }

    /// The first of a row's values for these columns.
    pub(crate) fn first_by(&self, columns: &[u16], row: usize) -> Option<&'a Term>
        ensures { option_copied result ≡ first_place (project columns.now (row_at self.now.rows row)) }
    {
        first_for(self.graph, columns, self.numbers_of(row))
    }

    /// The rows of these numbers, which share the texts of their terms.
    pub fn make_rows(&self, alloc: Global, rows: &[usize]) -> Result<Vec<Row>, AllocError>
        ensures { IfOk result (λ made. made.items ≡ rows_at self.now.rows rows.now) }
    {
        let mut made = Vec::with_capacity(alloc, rows.len())?;
        for row in rows {
            made.push(make_row(alloc, self.graph, self.numbers_of(*row))?)?;
        }
        Ok(made)
    }
}
