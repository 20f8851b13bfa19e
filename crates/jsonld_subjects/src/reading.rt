//! Subjects read from JSON (JSON-LD 1.1 API, sections 5.1.2 and 8.1.2).
ghost use Rattle.std.specs.Prelude.{◌≡◌, Ok, IfOk, IfErr};
ghost use Rattle.serde_json.specs.View.{view, items_view};
ghost use Rattle.jsonld_context.specs.Telling.{IsToldBy};
ghost use Rattle.jsonld_subjects.specs.SubjectReading.{read_subject, read_each_subject, read_any, subjects_read};

use crate::entering::entered;
use crate::found::Found;
use crate::members::read_members;
use crate::places::Place;
use jrql_ast::PatternTriple;
use jsonld_context::{Context, JsonFault};
use jsonld_values::{Names, bad_subject};
use serde_json::Value;
use std::alloc::Global;
use std::mem;

/// What a JSON value says as a subject or an array of subjects, else its first fault. The variables and the subjects without an id that it
/// has are met by the names, behind those that they met before; after a fault the names aren't to be used again.
///
/// `BadSubject` says that a rule is broken, with the key at which it is, or the empty text where a subject is no object; `BadIri` that a
/// key, a type or an id stands for no absolute IRI, with what was written for it; `Fraction` that a number is no whole number of 64 bits;
/// `Unsupported`, with the key, what JSON-LD knows and this profile doesn't; and `BadQuery` a variable too many, with its name, or `@id`.
#[tactic(auto, unfolding(crate::specs::SubjectReading::subjects_read))]
pub fn read_subjects(
    alloc: Global,
    value: &Value,
    context: &Context,
    place: Place,
    names: &mut Names,
) -> Result<Vec<PatternTriple>, JsonFault>
    ensures ok { IfOk result (λ triples. subjects_read context.now place names.old (view value.now)
        ≡ Ok (record { names = names.new; triples = triples.items })) }
    ensures err { IfErr result (IsToldBy (subjects_read context.now place names.old (view value.now))) }
{
    let met = mem::replace(names, Names::empty(alloc));
    let found = read_any(
        alloc,
        context,
        place,
        value,
        Found::new(met, Vec::new(alloc)),
    )?;
    let (met, triples) = found.into_parts();
    *names = met;
    Ok(triples)
}

/// Reads a subject, or an array of subjects.
fn read_any(
    alloc: Global,
    context: &Context,
    place: Place,
    value: &Value,
    found: Found,
) -> Result<Found, JsonFault>
    ensures ok { IfOk result (λ now. read_any context.now place (view value.now) found ≡ Ok now) }
    ensures err { IfErr result (IsToldBy (read_any context.now place (view value.now) found)) }
{
    match value {
        Value::Array(items) => read_each_subject(alloc, context, place, items, found),
        _ => read_subject(alloc, context, place, value, found),
    }
}

/// Reads subjects in an array.
fn read_each_subject(
    alloc: Global,
    context: &Context,
    place: Place,
    items: &[Value],
    found: Found,
) -> Result<Found, JsonFault>
    ensures ok { IfOk result (λ now. read_each_subject context.now place (items_view items.now) found ≡ Ok now) }
    ensures err { IfErr result (IsToldBy (read_each_subject context.now place (items_view items.now) found)) }
{
    let mut so_far = found;
    for value in items {
        so_far = read_subject(alloc, context, place, value, so_far)?;
    }
    Ok(so_far)
}

/// Reads a subject.
fn read_subject(
    alloc: Global,
    context: &Context,
    place: Place,
    value: &Value,
    found: Found,
) -> Result<Found, JsonFault>
    ensures ok { IfOk result (λ now. read_subject context.now place (view value.now) found ≡ Ok now) }
    ensures err { IfErr result (IsToldBy (read_subject context.now place (view value.now) found)) }
{
    let Value::Object(members) = value else {
        return Err(bad_subject(alloc, ""));
    };
    let mut subject = entered(alloc, place, members, found)?;
    read_members(alloc, context, place, members, &mut subject)?;
    Ok(subject.end()?)
}
