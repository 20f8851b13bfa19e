//! Subjects.
//!
//! `pattern JSON` and `insert JSON`: the triples of the subjects that a JSON text says there, each with a dot behind it, in the order of
//! their bytes; `nothing` where there are none, or a fault. With `count` before them, the number of triples alone; with `numbered`, the
//! triples with their variables numbered, the hidden ones behind the named ones.
//!
//! `object pattern JSON` and `object insert JSON`: the object that a JSON text is by itself there, or `none`, and behind `with` the triples
//! that it says; `array or long` where it can't stand alone; or a fault.
//!
//! `first pattern JSON` and `first insert JSON` begin a text of several parts, `then pattern JSON` and `then insert JSON` read one more
//! part of it. They give the triples as `pattern` and `insert` do, with each variable by its number, or a fault, which ends the text.
use crate::faults::put_fault;
use crate::held::{Held, context_of};
use crate::slots::{Variables, put_slot, put_triples};
use jrql_ast::PatternTriple;
use jsonld_context::{Context, JsonFault};
use jsonld_subjects::{ObjectRead, Place, read_object, read_subjects, stands_alone};
use jsonld_values::{Names, number_triples};
use serde_json::Value;
use std::alloc::{AllocError, Global};
use std::fmt::Write;

/// Where a word says that subjects stand.
fn place_of(word: &str) -> Option<Place> {
    match word {
        "pattern" => Some(Place::Pattern),
        "insert" => Some(Place::Insert),
        _ => None,
    }
}

/// Puts what a value says in a place, as a word has it.
pub fn put(
    alloc: Global,
    out: &mut String,
    held: &Held,
    word: &str,
    place: &str,
    value: &Value,
) -> Result<bool, AllocError> {
    match (place_of(place), held.context()) {
        (Some(place), Some(context)) => put_alone(alloc, out, context, word, place, value),
        _ => Ok(false),
    }
}

/// Puts what a value says under a context, with no names before it.
pub fn put_alone(
    alloc: Global,
    out: &mut String,
    context: &Context,
    word: &str,
    place: Place,
    value: &Value,
) -> Result<bool, AllocError> {
    let mut names = Box::new(alloc, Names::empty(alloc))?;
    if word == "object" {
        return put_object(alloc, out, context, place, value, &mut names);
    }
    put_read(alloc, out, context, word, place, value, &mut names)?;
    Ok(true)
}

/// Puts what a value says as the first part of a text, or as its next one.
pub fn put_part(
    alloc: Global,
    out: &mut String,
    held: &mut Held,
    word: &str,
    place: &str,
    value: &Value,
) -> Result<bool, AllocError> {
    if word == "first" {
        held.names = Some(Box::new(alloc, Names::empty(alloc))?);
    }
    let Some(place) = place_of(place) else {
        held.names = None;
        return Ok(false);
    };
    let goes_on = put_next(alloc, out, held, word, place, value)?;
    if goes_on != Some(true) {
        held.names = None;
    }
    Ok(goes_on.is_some())
}

/// Puts what the next part of a text says; whether the text goes on behind it, or nothing where none was begun, or no context is held.
fn put_next(
    alloc: Global,
    out: &mut String,
    held: &mut Held,
    word: &str,
    place: Place,
    value: &Value,
) -> Result<Option<bool>, AllocError> {
    match (&held.read, &mut held.names) {
        (Some(read), Some(names)) => match context_of(read) {
            Some(context) => {
                let is_ok = put_read(alloc, out, context, word, place, value, names)?;
                Ok(Some(is_ok))
            }
            None => Ok(None),
        },
        _ => Ok(None),
    }
}

/// Puts what a value says beside names that were met before it; whether it is no fault.
fn put_read(
    alloc: Global,
    out: &mut String,
    context: &Context,
    word: &str,
    place: Place,
    value: &Value,
    names: &mut Names,
) -> Result<bool, AllocError> {
    let mut read = Box::new(alloc, read_subjects(alloc, value, context, place, names))?;
    put_outcome(alloc, out, word, &mut read, names)
}

/// Puts triples as a word has them, or the fault; whether it is no fault.
fn put_outcome(
    alloc: Global,
    out: &mut String,
    word: &str,
    read: &mut Result<Vec<PatternTriple>, JsonFault>,
    names: &Names,
) -> Result<bool, AllocError> {
    match read {
        Ok(triples) => {
            put_as(alloc, out, word, triples.as_mut_slice(), names)?;
            Ok(true)
        }
        Err(fault) => {
            put_fault(out, fault)?;
            Ok(false)
        }
    }
}

/// Puts triples as a word has them.
fn put_as(
    alloc: Global,
    out: &mut String,
    word: &str,
    triples: &mut [PatternTriple],
    names: &Names,
) -> Result<(), AllocError> {
    match word {
        "named" => put_triples(alloc, out, triples, Variables::Named(names)),
        "count" => write!(out, "{}", triples.len()),
        "numbered" => {
            names.kept();
            number_triples(triples, names.named());
            put_triples(alloc, out, triples, Variables::Numbered)
        }
        _ => put_triples(alloc, out, triples, Variables::Numbered),
    }
}

/// Puts the object that a value is, or the fault.
fn put_object(
    alloc: Global,
    out: &mut String,
    context: &Context,
    place: Place,
    value: &Value,
    names: &mut Names,
) -> Result<bool, AllocError> {
    if !stands_alone(value) {
        out.push_str("array or long")?;
        return Ok(true);
    }
    let read = Box::new(alloc, read_object(alloc, value, context, place, names))?;
    put_object_read(alloc, out, &read, names)
}

/// Puts an object, or the fault.
fn put_object_read(
    alloc: Global,
    out: &mut String,
    read: &Result<ObjectRead, JsonFault>,
    names: &Names,
) -> Result<bool, AllocError> {
    match read {
        Ok(read) => put_object_text(alloc, out, read, Variables::Named(names)),
        Err(fault) => put_fault(out, fault),
    }
}

/// Puts an object, and its triples where it has any.
fn put_object_text(
    alloc: Global,
    out: &mut String,
    read: &ObjectRead,
    variables: Variables<'_>,
) -> Result<bool, AllocError> {
    match &read.object {
        Some(slot) => put_slot(out, slot, variables)?,
        None => out.push_str("none")?,
    }
    if !read.triples.is_empty() {
        out.push_str(" with ")?;
        put_triples(alloc, out, read.triples.as_slice(), variables)?;
    }
    Ok(true)
}
