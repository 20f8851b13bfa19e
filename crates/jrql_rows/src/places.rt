//! The texts by which places of rows are ordered first: what two share, and their first bytes from a place on, with no memory taken.
ghost use Rattle.std.specs.Prelude.{◌≡◌, take, drop};
ghost use Rattle.std.specs.Option.{is_some, option_copied};
ghost use Rattle.graph_index.specs.hinted_chunks.Leading.{leading};
ghost use Rattle.graph_index.specs.hinted_chunks.TermFronts.{term_front};
ghost use Rattle.jrql_ast.specs.QueryAnswers.{project};
ghost use Rattle.jrql_rows.specs.Bindings.{row_numbered};
ghost use Rattle.jrql_rows.specs.RowFronts.{first_place, front_in_place, reply_front};
ghost use Rattle.rdf_terms.specs.Literal.{has_datatype, xsd_integer};
ghost use Rattle.rdf_terms.specs.ReplyOrder.{integer_of, literal_integer};

use crate::bindings::number_at;
use crate::rows::term_of;
use graph_index::Graph;
use graph_index::hinted_chunks::{term_hint, term_shared};
use rdf_terms::{Literal, Term};
use text_rules::is_plain_integer;

/// xsd:integer (XML Schema Part 2, section 3.4.13).
const XSD_INTEGER: &str = "http://www.w3.org/2001/XMLSchema#integer";

/// The first place of the row of these numbers.
pub(crate) fn first_of<'a>(graph: &'a Graph, row: &[Option<u32>]) -> Option<&'a Term>
    ensures { option_copied result ≡ first_place (row_numbered graph.now row.now) }
{
    match row.first() {
        Some(number) => term_of(graph, *number),
        None => None,
    }
}

/// The first of a row's values for these variables.
pub(crate) fn first_for<'a>(
    graph: &'a Graph,
    variables: &[u16],
    row: &[Option<u32>],
) -> Option<&'a Term>
    ensures { option_copied result ≡ first_place (project variables.now (row_numbered graph.now row.now)) }
{
    match variables.first() {
        Some(variable) => term_of(graph, number_at(*variable as usize, row)),
        None => None,
    }
}

/// A number of bytes that the texts of two places share in the plain order.
#[tactic(auto, using(crate::proofs::RowHints::none_shared))]
pub(crate) fn plain_shared(place: Option<&Term>, other: Option<&Term>) -> usize
    ensures { take result (front_in_place term_front (option_copied place.entry))
        ≡ take result (front_in_place term_front (option_copied other.entry)) }
{
    match (place, other) {
        (Some(term), Some(with)) => term_shared(term, with),
        _ => 0,
    }
}

/// The first eight bytes of a place's text in the plain order, from a place of the text on, as a number.
#[tactic(auto, using(crate::proofs::RowHints::no_hint))]
pub(crate) fn plain_hint(place: Option<&Term>, from: usize) -> u64
    ensures { result ≡ leading 8 (drop from (front_in_place term_front (option_copied place.entry))) }
{
    match place {
        Some(term) => term_hint(term, from),
        None => 0,
    }
}

/// A number of bytes that the texts of two places share in the order of replies.
#[tactic(auto, using(crate::proofs::RowHints::none_shared))]
pub(crate) fn reply_shared(place: Option<&Term>, other: Option<&Term>) -> usize
    ensures { take result (front_in_place reply_front (option_copied place.entry))
        ≡ take result (front_in_place reply_front (option_copied other.entry)) }
{
    match (place, other) {
        (Some(term), Some(with)) => reply_front_shared(term, with),
        _ => 0,
    }
}

// The same of two terms.
#[tactic(auto, using(crate::proofs::RowHints::none_shared, crate::proofs::RowHints::others_shared))]
fn reply_front_shared(term: &Term, other: &Term) -> usize
    ensures { take result (reply_front term.now) ≡ take result (reply_front other.now) }
{
    if is_integer(term) {
        return 0;
    }
    if is_integer(other) {
        return 0;
    }
    term_shared(term, other)
}

/// The first eight bytes of a place's text in the order of replies, from a place of the text on, as a number.
#[tactic(auto, using(crate::proofs::RowHints::no_hint))]
pub(crate) fn reply_hint(place: Option<&Term>, from: usize) -> u64
    ensures { result ≡ leading 8 (drop from (front_in_place reply_front (option_copied place.entry))) }
{
    match place {
        Some(term) => reply_front_hint(term, from),
        None => 0,
    }
}

// The same of a term.
#[tactic(auto, using(crate::proofs::RowHints::integer_hint, crate::proofs::RowHints::other_hint))]
fn reply_front_hint(term: &Term, from: usize) -> u64
    ensures { result ≡ leading 8 (drop from (reply_front term.now)) }
{
    if is_integer(term) {
        return 0;
    }
    term_hint(term, from)
}

// Whether a term is an xsd:integer of a plain integer.
fn is_integer(term: &Term) -> bool
    ensures { result ≡ is_some (integer_of term.now) }
{
    match term {
        Term::Literal(literal) => has_integer(literal),
        Term::Iri(_) => false,
    }
}

// Whether a literal is one.
fn has_integer(literal: &Literal) -> bool
    ensures { result ≡ is_some (literal_integer literal.now) }
{
    if is_of_integers(literal) {
        is_plain_integer(literal.lexical())
    } else {
        false
    }
}

// Whether a literal is an xsd:integer.
#[tactic(auto, unfolding(rdf_terms::specs::Literal::xsd_integer))]
fn is_of_integers(literal: &Literal) -> bool
    ensures { result ≡ has_datatype xsd_integer literal.now }
{
    match literal.datatype() {
        Some(datatype) => datatype == XSD_INTEGER,
        None => false,
    }
}
