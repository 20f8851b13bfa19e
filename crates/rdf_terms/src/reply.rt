//! The order in which replies have terms: integers by value, with no memory taken.
ghost use Rattle.std.specs.Prelude.{◌≡◌};
ghost use Rattle.rdf_terms.specs.Literal.{has_datatype, xsd_integer};
ghost use Rattle.rdf_terms.specs.ReplyOrder.{integer_of, reply_cmp};

use crate::order::cmp_terms;
use crate::terms::{Literal, Term};
use std::cmp::Ordering;
use text_rules::plain_integer_value;

/// xsd:integer (XML Schema Part 2, section 3.3.13).
const XSD_INTEGER: &str = "http://www.w3.org/2001/XMLSchema#integer";

/// Whether a literal is an xsd:integer.
#[tactic(auto, unfolding(crate::specs::Literal::xsd_integer))]
fn is_integer(literal: &Literal) -> bool
    ensures { result ≡ has_datatype xsd_integer literal.now }
{
    match literal.datatype() {
        Some(datatype) => datatype == XSD_INTEGER,
        None => false,
    }
}

/// The value of a term that is an xsd:integer of a plain integer.
fn integer_of(term: &Term) -> Option<i128>
    ensures { result ≡ integer_of term.now }
{
    match term {
        Term::Literal(literal) if is_integer(literal) => plain_integer_value(literal.lexical()),
        _ => None,
    }
}

/// Compares two terms as replies have them: first the xsd:integers whose lexical forms are plain integers, by value,
/// then the other literals, then the IRIs, both in the order of terms. The order is total and agrees with equality.
#[tactic(auto, using(crate::proofs::Replies::two_integers, crate::proofs::Replies::first_integer, crate::proofs::Replies::second_integer, crate::proofs::Replies::no_integer))]
pub fn cmp_reply(a: &Term, b: &Term) -> Ordering
    ensures { result ≡ reply_cmp a.now b.now }
{
    match (integer_of(a), integer_of(b)) {
        (Some(x), Some(y)) => x.cmp(&y).then_with(|| cmp_terms(a, b)),
        (Some(_), None) => Ordering::Less,
        (None, Some(_)) => Ordering::Greater,
        (None, None) => cmp_terms(a, b),
    }
}
