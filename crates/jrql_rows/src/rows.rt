//! Rows by numbers: for each variable the number of its term, where it has one.
ghost use Rattle.std.specs.Prelude.{◌≡◌, IfOk};
ghost use Rattle.std.specs.Cmp.Lexicographic.{slice_cmp};
ghost use Rattle.std.specs.Option.{option_and_then, option_copied};
ghost use Rattle.graph_index.specs.Numbered.{term_numbered};
ghost use Rattle.jrql_ast.specs.QueryAnswers.{place_cmp, reply_place_cmp, row_cmp};
ghost use Rattle.jrql_rows.specs.Bindings.{row_numbered};

use crate::bindings::number_at;
use graph_index::Graph;
use jrql_ast::Row;
use rdf_terms::{Term, cmp_reply};
use std::alloc::{AllocError, Global};
use std::cmp::Ordering;

// A copy of a value, which shares the texts of its term.
fn share_value(value: Option<&Term>) -> Result<Option<Term>, AllocError>
    ensures { IfOk result (λ copy. copy ≡ option_copied value.entry) }
{
    match value {
        Some(term) => Ok(Some(term.share()?)),
        None => Ok(None),
    }
}

/// The term of a number, where there is one.
pub(crate) fn term_of(graph: &Graph, number: Option<u32>) -> Option<&Term>
    ensures { option_copied result ≡ option_and_then (term_numbered graph.now) number }
{
    match number {
        Some(number) => graph.term(number),
        None => None,
    }
}

/// The row of these numbers, which shares the texts of its terms.
pub(crate) fn make_row(
    alloc: Global,
    graph: &Graph,
    numbers: &[Option<u32>],
) -> Result<Row, AllocError>
    ensures { IfOk result (λ row. row ≡ row_numbered graph.now numbers.now) }
{
    let mut row = Vec::with_capacity(alloc, numbers.len())?;
    for number in numbers {
        row.push(share_value(term_of(graph, *number))?)?;
    }
    Ok(Row::from_vec(row))
}

// Compares two places in the plain order: an unbound one comes before every term.
fn cmp_terms(place: Option<&Term>, other: Option<&Term>) -> Ordering
    ensures { result ≡ place_cmp (option_copied place.entry) (option_copied other.entry) }
{
    match (place, other) {
        (None, None) => Ordering::Equal,
        (None, Some(_)) => Ordering::Less,
        (Some(_), None) => Ordering::Greater,
        (Some(term), Some(with)) => term.cmp(with),
    }
}

// The same of the terms of numbers. Where the numbers are the same, it looks at no term.
fn cmp_places(graph: &Graph, number: Option<u32>, other: Option<u32>) -> Ordering
    ensures { result ≡ place_cmp (option_and_then (term_numbered graph.now) number)
        (option_and_then (term_numbered graph.now) other) }
{
    if number == other {
        Ordering::Equal
    } else {
        cmp_terms(term_of(graph, number), term_of(graph, other))
    }
}

/// Compares two rows in the plain order, by their places, from the first.
pub(crate) fn cmp_rows(graph: &Graph, row: &[Option<u32>], other: &[Option<u32>]) -> Ordering
    ensures { result ≡ slice_cmp place_cmp (row_numbered graph.now row.now) (row_numbered graph.now other.now) }
{
    match (row.split_first(), other.split_first()) {
        (None, None) => Ordering::Equal,
        (None, Some(_)) => Ordering::Less,
        (Some(_), None) => Ordering::Greater,
        (Some((place, rest)), Some((with, others))) => match cmp_places(graph, *place, *with) {
            Ordering::Less => Ordering::Less,
            Ordering::Equal => cmp_rows(graph, rest, others),
            Ordering::Greater => Ordering::Greater,
        },
    }
}

// Compares two places in the order of replies: an unbound one comes before every term.
fn cmp_reply_terms(place: Option<&Term>, other: Option<&Term>) -> Ordering
    ensures { result ≡ reply_place_cmp (option_copied place.entry) (option_copied other.entry) }
{
    match (place, other) {
        (None, None) => Ordering::Equal,
        (None, Some(_)) => Ordering::Less,
        (Some(_), None) => Ordering::Greater,
        (Some(term), Some(with)) => cmp_reply(term, with),
    }
}

// The same of the terms of numbers. Where the numbers are the same, it looks at no term.
fn cmp_reply_places(graph: &Graph, number: Option<u32>, other: Option<u32>) -> Ordering
    ensures { result ≡ reply_place_cmp (option_and_then (term_numbered graph.now) number)
        (option_and_then (term_numbered graph.now) other) }
{
    if number == other {
        Ordering::Equal
    } else {
        cmp_reply_terms(term_of(graph, number), term_of(graph, other))
    }
}

/// Compares two rows in the order of replies, by their places, from the first.
pub(crate) fn cmp_reply_rows(graph: &Graph, row: &[Option<u32>], other: &[Option<u32>]) -> Ordering
    ensures { result ≡ slice_cmp reply_place_cmp (row_numbered graph.now row.now) (row_numbered graph.now other.now) }
{
    match (row.split_first(), other.split_first()) {
        (None, None) => Ordering::Equal,
        (None, Some(_)) => Ordering::Less,
        (Some(_), None) => Ordering::Greater,
        (Some((place, rest)), Some((with, others))) => {
            match cmp_reply_places(graph, *place, *with) {
                Ordering::Less => Ordering::Less,
                Ordering::Equal => cmp_reply_rows(graph, rest, others),
                Ordering::Greater => Ordering::Greater,
            }
        }
    }
}

/// Compares two rows in the plain order, by their values for these variables, from the first.
pub(crate) fn cmp_by(
    graph: &Graph,
    variables: &[u16],
    row: &[Option<u32>],
    other: &[Option<u32>],
) -> Ordering
    ensures { result ≡ row_cmp variables.now (row_numbered graph.now row.now) (row_numbered graph.now other.now) }
{
    match variables.split_first() {
        None => Ordering::Equal,
        Some((variable, rest)) => {
            let place = *variable as usize;
            match cmp_places(graph, number_at(place, row), number_at(place, other)) {
                Ordering::Less => Ordering::Less,
                Ordering::Equal => cmp_by(graph, rest, row, other),
                Ordering::Greater => Ordering::Greater,
            }
        }
    }
}
