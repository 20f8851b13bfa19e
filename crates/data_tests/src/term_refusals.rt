//! What constructors refuse.
use rdf_terms::{Iri, Literal, TermFault};
use std::alloc::Global;

/// Why an IRI is refused, if it is.
pub(crate) fn iri_refusal(alloc: Global, text: &str) -> Option<TermFault> {
    match Iri::new(alloc, text) {
        Ok(_) => None,
        Err(fault) => Some(fault),
    }
}

/// Why a literal of a datatype is refused, if it is.
pub(crate) fn typed_refusal(alloc: Global, lexical: &str, datatype: &str) -> Option<TermFault> {
    match Iri::new(alloc, datatype) {
        Ok(iri) => refusal_of_type(alloc, lexical, &iri),
        Err(fault) => Some(fault),
    }
}

/// Why a literal of a datatype is refused, if it is.
fn refusal_of_type(alloc: Global, lexical: &str, datatype: &Iri) -> Option<TermFault> {
    match Literal::new(alloc, lexical, datatype) {
        Ok(_) => None,
        Err(fault) => Some(fault),
    }
}

/// Why a literal with a language tag is refused, if it is.
pub(crate) fn tagged_refusal(alloc: Global, lexical: &str, tag: &str) -> Option<TermFault> {
    match Literal::tagged(alloc, lexical, tag) {
        Ok(_) => None,
        Err(fault) => Some(fault),
    }
}

#[test]
fn constructors_refuse_what_is_no_part_of_terms(rt: HostRuntime) {
    let alloc = rt.alloc();
    assert!(rt; iri_refusal(alloc, "a:b").is_none());
    assert!(rt; iri_refusal(alloc, "a") == Some(TermFault::BadIri));
    let lang_string = "http://www.w3.org/1999/02/22-rdf-syntax-ns#langString";
    assert!(rt; typed_refusal(alloc, "x", "a:t").is_none());
    assert!(rt; typed_refusal(alloc, "x", lang_string) == Some(TermFault::BadType));
    assert!(rt; tagged_refusal(alloc, "x", "EN").is_none());
    assert!(rt; tagged_refusal(alloc, "x", "en-") == Some(TermFault::BadTag));
}
