//! How long texts may be, by numbers of their own.
use crate::term_refusals::{iri_refusal, tagged_refusal, typed_refusal};
use rdf_terms::{TermFault, TripleFault, read_iri, read_triple};
use std::alloc::Global;
use std::test::Fail;
use text_rules::{IriFault, is_absolute, is_domain, is_iri, resolve};

/// So many bytes of a text of ASCII, from its start.
fn front(text: &str, count: usize) -> &str {
    match text.get(..count) {
        Some(front) => front,
        None => "",
    }
}

/// Why a reference isn't resolved against `http://a/b`, if it isn't.
fn target_refusal(alloc: Global, reference: &str) -> Option<IriFault> {
    if !is_absolute("http://a/b") {
        return Some(IriFault::NotIri);
    }
    match resolve(alloc, "http://a/b", reference) {
        Ok(_) => None,
        Err(fault) => Some(fault),
    }
}

#[test]
fn names_and_targets_are_limited(rt: HostRuntime) -> Result<(), Fail> {
    let letters = "a".repeat(rt.alloc(), 2_040)?;
    let text = letters.as_str();
    assert!(rt; is_domain(front(text, 200)) && !is_domain(front(text, 201)));
    // A target begins with the nine bytes of `http://a/`.
    assert!(rt; target_refusal(rt.alloc(), front(text, 2_039)).is_none());
    assert!(rt; target_refusal(rt.alloc(), front(text, 2_040)) == Some(IriFault::NotIri));
    Ok(())
}

/// Why the triple of this lexical form is refused, if it is.
fn triple_refusal(alloc: Global, lexical: &str) -> Option<TripleFault> {
    match format!(in alloc; "<a:> <a:> \"{lexical}\" .") {
        Ok(text) => refusal_of_triple(alloc, text.as_str()),
        Err(_) => Some(TripleFault::NoMemory),
    }
}

/// Why a text is refused as a triple, if it is.
fn refusal_of_triple(alloc: Global, text: &str) -> Option<TripleFault> {
    match read_triple(alloc, text) {
        Ok(_) => None,
        Err(fault) => Some(fault),
    }
}

#[test]
fn iris_and_lexical_forms_are_limited(rt: HostRuntime) -> Result<(), Fail> {
    let alloc = rt.alloc();
    let iri = "a:".repeat(alloc, 524_289)?;
    let text = iri.as_str();
    assert!(rt; is_absolute(front(text, 2_048)) && !is_absolute(front(text, 2_049)));
    assert!(rt; is_iri(text) && iri_refusal(alloc, front(text, 2_048)).is_none());
    assert!(rt; iri_refusal(alloc, front(text, 2_049)) == Some(TermFault::BadIri));
    let most = front(text, 1_048_576);
    assert!(rt; typed_refusal(alloc, most, "a:t").is_none());
    assert!(rt; tagged_refusal(alloc, most, "en").is_none());
    assert!(rt; triple_refusal(alloc, most).is_none());
    let more = front(text, 1_048_577);
    assert!(rt; typed_refusal(alloc, more, "a:t") == Some(TermFault::TooLong));
    assert!(rt; tagged_refusal(alloc, more, "en") == Some(TermFault::TooLong));
    assert!(rt; triple_refusal(alloc, more) == Some(TripleFault::TooLong));
    Ok(())
}

/// How many bytes the IRI has that a text spells, with angle brackets around it, if it spells one.
fn read_length(alloc: Global, text: &str) -> Option<usize> {
    let Ok(text) = format!(in alloc; "<{text}>") else {
        return None;
    };
    match read_iri(alloc, text.as_str()) {
        Ok(Some(iri)) => Some(iri.as_str().len()),
        _ => None,
    }
}

#[test]
fn iris_alone_are_limited(rt: HostRuntime) -> Result<(), Fail> {
    let alloc = rt.alloc();
    let plain = "a:".repeat(alloc, 1_025)?;
    assert!(rt; read_length(alloc, front(plain.as_str(), 2_048)) == Some(2_048));
    assert!(rt; read_length(alloc, front(plain.as_str(), 2_049)).is_none());
    // Each escape takes six bytes of the text, and gives one of the IRI.
    let escapes = "\\u0061".repeat(alloc, 2_047)?;
    let most = format!(in alloc; "a:{}", front(escapes.as_str(), 12_276))?;
    assert!(rt; read_length(alloc, most.as_str()) == Some(2_048));
    let more = format!(in alloc; "a:{escapes}")?;
    assert!(rt; read_length(alloc, more.as_str()).is_none());
    Ok(())
}
