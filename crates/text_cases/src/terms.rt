//! Terms, without a context.
//!
//! `absolute "TEXT"`, `domain "TEXT"` and `variable "TEXT"`: whether a text is an absolute IRI that isn't too long, the name of a domain,
//! and whether it has the form of a variable. They give `yes` or `no`.
//!
//! `tag "TEXT"`: a language tag. It gives the tag in lower case, as a text, or `no` where the text is none.
//!
//! `triple "TEXT"`: the written form of the triple that a text spells, as a text; or `NotTriple` with the place of the fault, or `TooLong`.
//!
//! `iri "TEXT"`: the IRI that a text in angle brackets spells, or `no` where the text spells none that isn't too long.
//!
//! `resolve BASE "REFERENCE"`: the target of a reference against a base, which is an absolute IRI. It gives an IRI, or `NotIri`.
use crate::texts::put_quoted;
use jsonld_context::is_variable;
use rdf_terms::{Triple, TripleFault, read_iri, read_triple, write_triple};
use std::alloc::{AllocError, Global};
use std::fmt::Write;
use text_rules::{IriFault, Text, is_absolute, is_domain, is_language_tag, lower_tag, resolve};

/// Puts whether a text has the form that a word names.
pub fn put_form(out: &mut String, word: &str, text: &str) -> Result<bool, AllocError> {
    let has_form = match word {
        "absolute" => is_absolute(text),
        "domain" => is_domain(text),
        _ => is_variable(text),
    };
    out.push_str(if has_form { "yes" } else { "no" })?;
    Ok(true)
}

/// Puts the tag that a text is, or that it is none.
pub fn put_tag(alloc: Global, out: &mut String, text: &str) -> Result<bool, AllocError> {
    if !is_language_tag(text) {
        out.push_str("no")?;
        return Ok(true);
    }
    let tag = lower_tag(alloc, text)?;
    put_quoted(alloc, out, tag.as_str())
}

/// Puts what is written for the triple of a text, or its fault.
pub fn put_triple(alloc: Global, out: &mut String, text: &str) -> Result<bool, AllocError> {
    match read_triple(alloc, text) {
        Ok(triple) => put_written(alloc, out, &triple),
        Err(fault) => put_fault(out, fault),
    }
}

/// Puts what is written for a triple.
fn put_written(alloc: Global, out: &mut String, triple: &Triple) -> Result<bool, AllocError> {
    let mut bytes = Vec::new(alloc);
    write_triple(&mut bytes, triple)?;
    put_bytes(alloc, out, bytes.as_slice())
}

/// Puts the text of these bytes; whether they are one.
fn put_bytes(alloc: Global, out: &mut String, bytes: &[u8]) -> Result<bool, AllocError> {
    match str::from_utf8(bytes) {
        Ok(text) => put_quoted(alloc, out, text),
        Err(_) => Ok(false),
    }
}

/// Puts a fault as lines name it; want of memory is no fault of a line.
fn put_fault(out: &mut String, fault: TripleFault) -> Result<bool, AllocError> {
    match fault {
        TripleFault::NotTriple { place } => write!(out, "NotTriple {place}")?,
        TripleFault::TooLong => out.push_str("TooLong")?,
        TripleFault::NoMemory => return Err(AllocError),
    }
    Ok(true)
}

/// Puts the IRI that a text spells, or that there is none.
pub fn put_iri(alloc: Global, out: &mut String, text: &str) -> Result<bool, AllocError> {
    let found = read_iri(alloc, text)?;
    let told = match &found {
        Some(iri) => iri.as_str(),
        None => "no",
    };
    out.push_str(told)?;
    Ok(true)
}

/// Puts the target of a reference.
pub fn put_resolved(
    alloc: Global,
    out: &mut String,
    base: &str,
    reference: &str,
) -> Result<bool, AllocError> {
    if !is_absolute(base) {
        return Ok(false);
    }
    put_target(out, &resolve(alloc, base, reference))
}

/// Puts a target, or why there is none; want of memory is no fault of a line.
fn put_target(out: &mut String, target: &Result<Text, IriFault>) -> Result<bool, AllocError> {
    match target {
        Ok(iri) => out.push_str(iri.as_str())?,
        Err(IriFault::NotIri) => out.push_str("NotIri")?,
        Err(IriFault::NoMemory) => return Err(AllocError),
    }
    Ok(true)
}
