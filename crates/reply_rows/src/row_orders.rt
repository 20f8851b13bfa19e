//! Rows in the order of replies: compared, sorted, found and copied.
ghost use Rattle.std.specs.Prelude.{◌≡◌, ◌↔◌, IfOk, IsTrue};
ghost use Rattle.jrql_ast.specs.QueryAnswers.{IsSortingOf, reply_place_cmp};
ghost use Rattle.reply_rows.specs.Rising.{IsRising, row_order};
ghost use Rattle.tree_clock.specs.Lists.{Has};

use jrql_ast::Row;
use rdf_terms::{Term, cmp_reply};
use std::alloc::{AllocError, Global};
use std::cmp::Ordering;

// Compares two places in the order of replies: an unbound one comes before every term.
fn cmp_places(place: &Option<Term>, other: &Option<Term>) -> Ordering
    ensures { result ≡ reply_place_cmp place.now other.now }
{
    match (place, other) {
        (None, None) => Ordering::Equal,
        (None, Some(_)) => Ordering::Less,
        (Some(_), None) => Ordering::Greater,
        (Some(term), Some(with)) => cmp_reply(term, with),
    }
}

// Compares two lists of places, from the first.
fn cmp_values(row: &[Option<Term>], other: &[Option<Term>]) -> Ordering
    ensures { result ≡ row_order row.now other.now }
{
    match (row.split_first(), other.split_first()) {
        (None, None) => Ordering::Equal,
        (None, Some(_)) => Ordering::Less,
        (Some(_), None) => Ordering::Greater,
        (Some((place, rest)), Some((with, others))) => match cmp_places(place, with) {
            Ordering::Less => Ordering::Less,
            Ordering::Equal => cmp_values(rest, others),
            Ordering::Greater => Ordering::Greater,
        },
    }
}

/// Compares two rows in the order of replies.
pub fn cmp_rows(row: &Row, other: &Row) -> Ordering
    ensures { result ≡ row_order row.now other.now }
{
    cmp_values(row.as_slice(), other.as_slice())
}

/// Sorts rows.
pub fn sort_rows(rows: &mut Vec<Row>)
    ensures { IsSortingOf row_order rows.old.items rows.new.items }
{
    rows.sort_unstable_by(|row, other| cmp_rows(row, other));
}

/// Whether a row is one of a list in order.
pub fn has_row(rows: &[Row], row: &Row) -> bool
    requires { IsRising row_order rows.now }
    ensures { IsTrue result ↔ Has rows.now row.now }
{
    rows.binary_search_by(|other| cmp_rows(other, row)).is_ok()
}

/// A copy of a place, which shares the texts of its term.
pub fn share_place(place: &Option<Term>) -> Result<Option<Term>, AllocError>
    ensures { IfOk result (λ copy. copy ≡ place.now) }
{
    match place {
        Some(term) => Ok(Some(term.share()?)),
        None => Ok(None),
    }
}

// A copy of a row, which shares the texts of its terms.
fn copy_row(alloc: Global, row: &Row) -> Result<Row, AllocError>
    ensures { IfOk result (λ copy. copy ≡ row.now) }
{
    let mut places = Vec::with_capacity(alloc, row.len())?;
    for place in row.as_slice() {
        places.push(share_place(place)?)?;
    }
    Ok(Row::from_vec(places))
}

/// Copies of rows, which share the texts of their terms.
pub fn copy_rows(alloc: Global, rows: &[Row]) -> Result<Vec<Row>, AllocError>
    ensures { IfOk result (λ copies. copies.items ≡ rows.now) }
{
    let mut copies = Vec::with_capacity(alloc, rows.len())?;
    for row in rows {
        copies.push(copy_row(alloc, row)?)?;
    }
    Ok(copies)
}
