//! Terms and triples that are made, copied and compared.
use rdf_terms::{Iri, Literal, Term, Triple, cmp_iris, cmp_terms, read_triple};
use std::alloc::Global;

/// Triples with an object of each kind, in order.
const TRIPLES: [&str; 4] = [
    "<a:> <a:> \"x\" .",
    "<a:> <a:> \"x\"@en .",
    "<a:> <a:> \"x\"^^<a:t> .",
    "<a:> <a:> <a:b> .",
];

/// Whether two terms are the same by each comparison.
fn are_same(first: &Term, second: &Term) -> bool {
    let order = cmp_terms(first, second);
    order.is_eq() && first.cmp(second) == order && first == second && first <= second
}

/// Whether an IRI and its copy are the same.
fn is_iri_copied(iri: &Iri) -> bool {
    match iri.share() {
        Ok(copy) => copy == *iri && cmp_iris(&copy, iri).is_eq(),
        Err(_) => false,
    }
}

/// Whether a term and its copy are the same.
fn is_term_copied(term: &Term) -> bool {
    match term.share() {
        Ok(copy) => are_same(&copy, term),
        Err(_) => false,
    }
}

/// Whether a triple and its copy are the same, and so are its parts and theirs.
fn is_triple_copied(triple: &Triple) -> bool {
    triple.kept();
    match triple.share() {
        Ok(copy) => copy == *triple && is_iri_copied(&triple.s) && is_term_copied(&triple.o),
        Err(_) => false,
    }
}

/// Whether the triple of a text and its copy are the same.
fn is_copied(alloc: Global, text: &str) -> bool {
    match read_triple(alloc, text) {
        Ok(triple) => is_triple_copied(&triple),
        Err(_) => false,
    }
}

#[test]
fn triples_are_copied(rt: HostRuntime) {
    for text in TRIPLES {
        assert!(rt; is_copied(rt.alloc(), text), "{text}");
    }
}

/// Whether a term is the object of a triple's text.
fn is_object_of(alloc: Global, term: &Term, text: &str) -> bool {
    match read_triple(alloc, text) {
        Ok(triple) => are_same(&triple.o, term) && are_same(term, &triple.o),
        Err(_) => false,
    }
}

/// Whether a literal is the object of a triple's text.
fn is_literal_of(alloc: Global, literal: Literal, text: &str) -> bool {
    is_object_of(alloc, &Term::Literal(literal), text)
}

/// Whether the literal `"x"` of a datatype is the object of a triple's text.
fn is_typed_in(alloc: Global, datatype: &Iri, text: &str) -> bool {
    match Literal::new(alloc, "x", datatype) {
        Ok(literal) => is_literal_of(alloc, literal, text),
        Err(_) => false,
    }
}

/// Whether the literal `"x"` of a datatype's text is the object of a triple's text.
fn is_made_in(alloc: Global, datatype: &str, text: &str) -> bool {
    match Iri::new(alloc, datatype) {
        Ok(iri) => is_typed_in(alloc, &iri, text),
        Err(_) => false,
    }
}

/// Whether the literal `"x"` with a language tag is the object of a triple's text.
fn is_tagged_in(alloc: Global, tag: &str, text: &str) -> bool {
    match Literal::tagged(alloc, "x", tag) {
        Ok(literal) => is_literal_of(alloc, literal, text),
        Err(_) => false,
    }
}

#[test]
fn literals_are_made_as_they_are_read(rt: HostRuntime) {
    let string = "http://www.w3.org/2001/XMLSchema#string";
    assert!(rt; is_made_in(rt.alloc(), string, TRIPLES[0]));
    assert!(rt; is_tagged_in(rt.alloc(), "EN", TRIPLES[1]));
    assert!(rt; is_made_in(rt.alloc(), "a:t", TRIPLES[2]));
}
