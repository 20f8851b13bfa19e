//! Whether rows are touched: whether a pattern is one of some triples in them.
ghost use Rattle.std.specs.Prelude.{◌≡◌, not, ◌&&◌};
ghost use Rattle.jrql_ast.specs.FilterMeaning.{side_value};
ghost use Rattle.std.specs.Option.{option_copied};
ghost use Rattle.watch_laws.specs.Touched.{are_touched, iri_of_place, is_one_of, is_touched};
ghost use Rattle.rdf_terms.specs.Order.{triple_cmp};
ghost use Rattle.tree_clock.specs.Lists.{IsAscending};

use jrql_ast::{PatternTriple, Slot};
use jrql_filters::{Values, term_at};
use rdf_terms::{Iri, Term, Triple, cmp_iris, cmp_terms};
use std::cmp::Ordering;

/// A row that is lent.
#[derive(Clone, Copy)]
pub(crate) struct LentRow<'a> {
    /// Its places.
    pub(crate) places: &'a [Option<Term>],
}

impl<'a> Values for LentRow<'a> {
    ghost values = { λ row. row.places.now };

    fn value(&self, variable: usize) -> Option<&Term> {
        match self.places.get(variable) {
            Some(Some(term)) => Some(term),
            Some(None) => None,
            None => None,
        }
    }
}

// Compares a triple with one whose parts are lent.
#[tactic(auto, unfolding(rdf_terms::specs::Order::triple_cmp))]
fn cmp_parts(triple: &Triple, s: &Iri, p: &Iri, o: &Term) -> Ordering
    ensures { result ≡ triple_cmp triple.now (record { s = s.now; p = p.now; o = o.now }) }
{
    cmp_iris(&triple.s, s)
        .then_with(|| cmp_iris(&triple.p, p))
        .then_with(|| cmp_terms(&triple.o, o))
}

/// Whether the triple of these parts is one of a list in order.
pub fn has_parts(triples: &[Triple], s: &Iri, p: &Iri, o: &Term) -> bool
    requires { IsAscending triple_cmp triples.now }
    ensures { result ≡ is_one_of triples.now (record { s = s.now; p = p.now; o = o.now }) }
{
    triples
        .binary_search_by(|triple| cmp_parts(triple, s, p, o))
        .is_ok()
}

// The IRI that a slot is in a row, where it is one.
fn iri_at<'a>(slot: &'a Slot, row: &'a LentRow<'_>) -> Option<&'a Iri>
    ensures { option_copied result ≡ iri_of_place (side_value slot.now row.now.places.now) }
{
    match term_at(slot, row) {
        Some(Term::Iri(iri)) => Some(iri),
        Some(Term::Literal(_)) => None,
        None => None,
    }
}

// Whether a pattern is one of these triples in a row.
fn is_touched(triples: &[Triple], row: &LentRow<'_>, pattern: &PatternTriple) -> bool
    requires { IsAscending triple_cmp triples.now }
    ensures { result ≡ is_touched triples.now row.now.places.now pattern.now }
{
    let Some(s) = iri_at(&pattern.s, row) else {
        return false;
    };
    let Some(p) = iri_at(&pattern.p, row) else {
        return false;
    };
    let Some(o) = term_at(&pattern.o, row) else {
        return false;
    };
    has_parts(triples, s, p, o)
}

// Whether one of the patterns is.
fn are_touched(triples: &[Triple], patterns: &[PatternTriple], row: &LentRow<'_>) -> bool
    requires { IsAscending triple_cmp triples.now }
    ensures { result ≡ are_touched triples.now patterns.now row.now.places.now }
{
    for pattern in patterns {
        if is_touched(triples, row, pattern) {
            return true;
        }
    }
    false
}

/// Whether none of the patterns is.
pub fn are_untouched(
    triples: &[Triple],
    patterns: &[PatternTriple],
    places: &[Option<Term>],
) -> bool
    requires { IsAscending triple_cmp triples.now }
    ensures { result ≡ not (are_touched triples.now patterns.now places.now) }
{
    if triples.is_empty() {
        return true;
    }
    !are_touched(triples, patterns, &LentRow { places })
}
