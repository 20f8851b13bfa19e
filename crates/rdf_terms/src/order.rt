//! The order of terms and triples: by the bytes of what is written for them, with no memory taken.
ghost use Rattle.std.specs.Prelude.{◌≡◌, ℕ, List, [], ◌∷◌};
ghost use Rattle.std.specs.Cmp.{IsTotalOrder, partial_equiv_from_equiv, eq_by_cmp_equiv, partial_order_from_total};
ghost use Rattle.std.specs.Cmp.Lexicographic.{slice_cmp};
ghost use Rattle.std.specs.Cmp.Rules.{comparing};
ghost use Rattle.std.proofs.Common.{rules};
ghost use Rattle.std.proofs.lemmas.Map.Lookups.{CmpEqualImpliesEq};
ghost use Rattle.std.specs.Ordering.{nat_cmp, eq_by_cmp, as_partial_cmp};
ghost use Rattle.rdf_terms.specs.Spelling.{suffix_text, datatype_text};
ghost use Rattle.text_rules.specs.Marks.{at_sign};
ghost use Rattle.rdf_terms.specs.Order.{iri_cmp, literal_cmp, term_cmp, triple_cmp};
ghost use Rattle.rdf_terms.specs.ReplyOrder.{reply_cmp};
ghost use Rattle.rdf_terms.specs.OrderLaws.{term_total, triple_total};

use crate::terms::{Iri, Kind, Literal, Term, Triple, is_string_type};
use std::cmp::Ordering;
use text_rules::{cmp_closed, cmp_escaped};

/// Compares two IRIs by their bytes as they are written, so that `<http://d/a#>` comes before `<http://d/a>`.
pub fn cmp_iris(a: &Iri, b: &Iri) -> Ordering
    ensures { result ≡ iri_cmp a.now b.now }
{
    cmp_closed(a.as_str().as_bytes(), b.as_str().as_bytes())
}

/// Compares what is written for two datatypes: nothing for xsd:string.
#[tactic(auto, using(crate::proofs::Comparing::both_plain, crate::proofs::Comparing::first_plain, crate::proofs::Comparing::second_plain, crate::proofs::Comparing::none_plain))]
fn cmp_datatypes(a: &Iri, b: &Iri) -> Ordering
    ensures { result ≡ slice_cmp nat_cmp (datatype_text a.now) (datatype_text b.now) }
{
    match (is_string_type(a), is_string_type(b)) {
        (true, true) => Ordering::Equal,
        (true, false) => Ordering::Less,
        (false, true) => Ordering::Greater,
        (false, false) => cmp_iris(a, b),
    }
}

/// Compares what is written behind the quotes of two literals.
#[tactic(auto, using(crate::proofs::Comparing::tag_turned, crate::proofs::Comparing::plain_turned))]
fn cmp_suffixes(a: &Kind, b: &Kind) -> Ordering
    ensures { result ≡ slice_cmp nat_cmp (suffix_text a.now) (suffix_text b.now) }
{
    match (a, b) {
        (Kind::Plain, Kind::Plain) => Ordering::Equal,
        (Kind::Plain, Kind::Datatype(other)) => cmp_with_plain(other).reverse(),
        (Kind::Plain, Kind::Language(_)) => Ordering::Less,
        (Kind::Datatype(datatype), Kind::Plain) => cmp_with_plain(datatype),
        (Kind::Language(_), Kind::Plain) => Ordering::Greater,
        (Kind::Datatype(datatype), Kind::Datatype(other)) => cmp_datatypes(datatype, other),
        (Kind::Datatype(datatype), Kind::Language(_)) => cmp_with_tag(datatype),
        (Kind::Language(_), Kind::Datatype(other)) => cmp_with_tag(other).reverse(),
        (Kind::Language(tag), Kind::Language(other)) => tag.as_str().cmp(&other.as_str()),
    }
}

/// Compares what is written for a datatype with nothing, which is written for xsd:string.
#[tactic(auto, using(crate::proofs::Comparing::plain_nothing, crate::proofs::Comparing::other_nothing))]
fn cmp_with_plain(datatype: &Iri) -> Ordering
    ensures { result ≡ slice_cmp nat_cmp (datatype_text datatype.now) [] }
{
    if is_string_type(datatype) {
        Ordering::Equal
    } else {
        Ordering::Greater
    }
}

/// Compares what is written for a datatype with what is written for any tag.
#[tactic(auto, using(crate::proofs::Comparing::plain_tag, crate::proofs::Comparing::other_tag))]
fn cmp_with_tag(datatype: &Iri) -> Ordering
    ensures { (tag : List ℕ) → slice_cmp nat_cmp (datatype_text datatype.now) (at_sign ∷ tag) ≡ result }
{
    if is_string_type(datatype) {
        Ordering::Less
    } else {
        Ordering::Greater
    }
}

/// Compares two literals by their bytes as they are written.
#[tactic(auto, using(crate::proofs::Comparing::literals_cmp))]
pub(crate) fn cmp_literals(a: &Literal, b: &Literal) -> Ordering
    ensures { result ≡ literal_cmp a.now b.now }
{
    let first = cmp_escaped(a.lexical.as_str().as_bytes(), b.lexical.as_str().as_bytes());
    first.then_with(|| cmp_suffixes(&a.kind, &b.kind))
}

/// Compares two terms by the bytes of what is written for them: literals come before IRIs.
#[tactic(auto, using(crate::proofs::Comparing::literal_first, crate::proofs::Comparing::iri_last), unfolding(crate::specs::Order::term_cmp, crate::specs::Spelling::term_text))]
pub fn cmp_terms(a: &Term, b: &Term) -> Ordering
    ensures { result ≡ term_cmp a.now b.now }
{
    match (a, b) {
        (Term::Iri(iri), Term::Iri(other)) => cmp_iris(iri, other),
        (Term::Iri(_), Term::Literal(_)) => Ordering::Greater,
        (Term::Literal(_), Term::Iri(_)) => Ordering::Less,
        (Term::Literal(literal), Term::Literal(other)) => cmp_literals(literal, other),
    }
}

/// Compares two triples by subject, then predicate, then object.
#[tactic(auto, unfolding(crate::specs::Order::triple_cmp))]
pub fn cmp_triples(a: &Triple, b: &Triple) -> Ordering
    ensures { result ≡ triple_cmp a.now b.now }
{
    cmp_iris(&a.s, &b.s)
        .then_with(|| cmp_iris(&a.p, &b.p))
        .then_with(|| cmp_terms(&a.o, &b.o))
}

impl PartialEq for Term {
    ghost eq = { eq_by_cmp term_cmp };

    ghost laws = { partial_equiv_from_equiv (eq_by_cmp_equiv term_total) };

    fn eq(&self, other: &Term) -> bool {
        cmp_terms(self, other).is_eq()
    }
}

impl Eq for Term {
    ghost laws = { eq_by_cmp_equiv term_total };
}

impl PartialOrd for Term {
    ghost partial_cmp = { as_partial_cmp term_cmp };

    ghost laws = { partial_order_from_total term_total };

    fn partial_cmp(&self, other: &Term) -> Option<Ordering> {
        Some(cmp_terms(self, other))
    }
}

impl Ord for Term {
    ghost cmp = { term_cmp };

    ghost total = { term_total };

    ghost matches_partial_cmp = { Prim.search (comparing, rules) };

    ghost matches_eq = { Prim.search (comparing, rules) };

    fn cmp(&self, other: &Term) -> Ordering {
        cmp_terms(self, other)
    }
}

impl PartialEq for Triple {
    ghost eq = { eq_by_cmp triple_cmp };

    ghost laws = { partial_equiv_from_equiv (eq_by_cmp_equiv triple_total) };

    fn eq(&self, other: &Triple) -> bool {
        cmp_triples(self, other).is_eq()
    }
}

impl Eq for Triple {
    ghost laws = { eq_by_cmp_equiv triple_total };
}

impl PartialOrd for Triple {
    ghost partial_cmp = { as_partial_cmp triple_cmp };

    ghost laws = { partial_order_from_total triple_total };

    fn partial_cmp(&self, other: &Triple) -> Option<Ordering> {
        Some(cmp_triples(self, other))
    }
}

impl Ord for Triple {
    ghost cmp = { triple_cmp };

    ghost total = { triple_total };

    ghost matches_partial_cmp = { Prim.search (comparing, rules) };

    ghost matches_eq = { Prim.search (comparing, rules) };

    fn cmp(&self, other: &Triple) -> Ordering {
        cmp_triples(self, other)
    }
}

/// The orders of terms, of triples and of replies are total, and values that they find equal are the same.
#[tactic(auto, using(crate::specs::OrderLaws::term_total, crate::specs::OrderLaws::term_exact, crate::specs::OrderLaws::triple_total, crate::specs::OrderLaws::triple_exact, crate::specs::ReplyLaws::reply_total, crate::specs::ReplyLaws::reply_exact))]
pub fn order_is_total()
    ensures terms_total { IsTotalOrder term_cmp }
    ensures terms_exact { CmpEqualImpliesEq term_cmp }
    ensures triples_total { IsTotalOrder triple_cmp }
    ensures triples_exact { CmpEqualImpliesEq triple_cmp }
    ensures replies_total { IsTotalOrder reply_cmp }
    ensures replies_exact { CmpEqualImpliesEq reply_cmp }
{}
