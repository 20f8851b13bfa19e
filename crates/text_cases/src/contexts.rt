//! Contexts.
//!
//! `context DOMAIN` and `context DOMAIN JSON`: the lines behind it are read under this context. It gives nothing, or a fault.
//! `printed DOMAIN JSON`: how the fault of such a context is printed.
//!
//! `key "TEXT"` and `id "TEXT"`: what a key and an id stand for. They give an IRI, or a fault. `type "KEY"`: the type of a key's values. It
//! gives `none`, `id` or the IRI of a datatype.
//!
//! `short key IRI` and `short id IRI`: the shortest form of an IRI. They give it as a JSON string.
use crate::faults::put_fault;
use crate::held::Held;
use crate::texts::put_quoted;
use jsonld_context::{Context, JsonFault, TermType};
use rdf_terms::Iri;
use serde_json::Value;
use std::alloc::{AllocError, Global};
use std::fmt::Write;
use text_rules::is_domain;
use transcripts::parted;

/// Holds the context of a domain alone.
pub fn hold_domain(alloc: Global, held: &mut Held, domain: &str) -> Result<bool, AllocError> {
    if !is_domain(domain) {
        return Ok(false);
    }
    held.read = Some(Box::new(alloc, Context::of_domain(alloc, domain))?);
    Ok(true)
}

/// Holds the context of a JSON value over the defaults of a domain, or puts its fault.
pub fn hold(
    alloc: Global,
    out: &mut String,
    held: &mut Held,
    domain: &str,
    value: &Value,
) -> Result<bool, AllocError> {
    if !is_domain(domain) {
        return Ok(false);
    }
    let read = Box::new(alloc, Context::read(alloc, value, domain))?;
    let is_put = put_fault_of(out, &read);
    held.read = Some(read);
    is_put
}

/// Puts the fault of a context, where it has one.
fn put_fault_of(out: &mut String, read: &Result<Context, JsonFault>) -> Result<bool, AllocError> {
    match read {
        Ok(_) => Ok(true),
        Err(fault) => put_fault(out, fault),
    }
}

/// Puts the fault of a `printed` line as it is printed; whether there is one.
pub fn put_printed(
    alloc: Global,
    out: &mut String,
    domain: &str,
    value: &Value,
) -> Result<bool, AllocError> {
    if !is_domain(domain) {
        return Ok(false);
    }
    match Context::read(alloc, value, domain) {
        Ok(_) => Ok(false),
        Err(fault) => print(out, &fault),
    }
}

/// Puts a fault as it is printed.
fn print(out: &mut String, fault: &JsonFault) -> Result<bool, AllocError> {
    write!(out, "{fault}")?;
    Ok(true)
}

/// Puts what a key or an id stands for, or the type of a key's values.
pub fn put_meaning(
    alloc: Global,
    out: &mut String,
    context: &Context,
    word: &str,
    text: &str,
) -> Result<bool, AllocError> {
    match word {
        "key" => put_expanded(out, &context.expand_key(alloc, text)),
        "id" => put_expanded(out, &context.expand_id(alloc, text)),
        _ => {
            out.push_str(type_text(context.type_of(text)))?;
            Ok(true)
        }
    }
}

/// Puts an IRI, or a fault.
fn put_expanded(out: &mut String, expanded: &Result<Iri, JsonFault>) -> Result<bool, AllocError> {
    match expanded {
        Ok(iri) => {
            out.push_str(iri.as_str())?;
            Ok(true)
        }
        Err(fault) => put_fault(out, fault),
    }
}

/// The text of a type.
fn type_text(found: Option<&TermType>) -> &str {
    match found {
        Some(TermType::Id) => "id",
        Some(TermType::Datatype(datatype)) => datatype.iri().as_str(),
        None => "none",
    }
}

/// Puts the shortest form of an IRI.
pub fn put_short(
    alloc: Global,
    out: &mut String,
    held: &Held,
    input: &str,
) -> Result<bool, AllocError> {
    let (form, written) = parted(input);
    match (held.context(), Iri::new(alloc, written)) {
        (Some(context), Ok(iri)) => put_form(alloc, out, context, form, &iri),
        _ => Ok(false),
    }
}

/// Puts the form of an IRI that a word names.
fn put_form(
    alloc: Global,
    out: &mut String,
    context: &Context,
    form: &str,
    iri: &Iri,
) -> Result<bool, AllocError> {
    let text = match form {
        "key" => context.compact_key(alloc, iri)?,
        "id" => context.compact_id(alloc, iri)?,
        _ => return Ok(false),
    };
    put_quoted(alloc, out, text.as_str())
}
