//! Values that stand alone, as objects of triples (JSON-LD 1.1 API, sections 5.3.2 and 8.2.2).
ghost use Rattle.std.specs.Prelude.{◌≡◌, [], None, Ok, IfOk, IfErr};
ghost use Rattle.serde_json.specs.View.{view, members_view};
ghost use Rattle.jsonld_context.specs.Telling.{IsToldBy};
ghost use Rattle.jsonld_values.specs.Literals.{made_of, string_object};
ghost use Rattle.jsonld_subjects.specs.ObjectReading.{stands_alone, object_with, read_alone, object_alone, object_read};
ghost use Rattle.jsonld_subjects.specs.SubjectReading.{slot_of};

use crate::entering::entered;
use crate::found::Found;
use crate::members::read_members;
use crate::places::Place;
use jrql_ast::{PatternTriple, Slot};
use jsonld_context::{Context, JsonFault, is_variable};
use jsonld_values::{
    Names, boolean_object, has_member, number_object, string_object, unsupported, value_object,
};
use rdf_terms::LEXICAL_LIMIT;
use serde_json::{Map, Value};
use std::alloc::Global;
use std::mem;

/// What a value that stands alone gives.
#[derive(Debug, Drop)]
pub struct ObjectRead {
    /// The object that it is of a triple; `null` is none.
    pub object: Option<Slot>,
    /// The triples of a subject and of those within it.
    pub triples: Vec<PatternTriple>,
}

/// Whether a value may stand alone: it is no array, and no string that is too long for a literal. It takes no memory.
pub fn stands_alone(value: &Value) -> bool
    ensures { result ≡ stands_alone (view value.now) }
{
    match value {
        Value::Array(_) => false,
        Value::String(text) => is_variable(text.as_str()) || text.len() <= LEXICAL_LIMIT,
        _ => true,
    }
}

/// What was found with a value that stands alone, and its object.
type Alone = (Found, Option<Slot>);

/// Reads a string that stands alone.
fn string_alone(
    alloc: Global,
    context: &Context,
    text: &str,
    found: Found,
) -> Result<Alone, JsonFault>
    ensures ok { IfOk result
        (λ read. made_of (slot_of found.names text.now (string_object context.now [] None text.now)) (object_with found)
        ≡ Ok (record { found = read.0; object = read.1 })) }
    ensures err { IfErr result (IsToldBy (slot_of found.names text.now (string_object context.now [] None text.now))) }
{
    if !is_variable(text) {
        let slot = string_object(alloc, context, "", None, text)?;
        return Ok((found, Some(slot)));
    }
    let (names, triples) = found.into_parts();
    let mut names = names;
    let slot = names.meet_variable(alloc, text)?;
    Ok((Found::new(names, triples), Some(slot)))
}

/// Reads an object that stands alone: a value object, or a subject.
fn read_alone(
    alloc: Global,
    context: &Context,
    place: Place,
    members: &Map<String, Value>,
    found: Found,
) -> Result<Alone, JsonFault>
    ensures ok { IfOk result (λ read. read_alone context.now place (members_view members.now.entries) found
        ≡ Ok (record { found = read.0; object = read.1 })) }
    ensures err { IfErr result (IsToldBy (read_alone context.now place (members_view members.now.entries) found)) }
{
    if has_member(members, "@value") {
        let slot = value_object(alloc, context, members)?;
        return Ok((found, Some(slot)));
    }
    let mut subject = entered(alloc, place, members, found)?;
    read_members(alloc, context, place, members, &mut subject)?;
    let slot = subject.copy_slot()?;
    Ok((subject.end()?, slot))
}

/// Reads a value that stands alone.
fn object_alone(
    alloc: Global,
    context: &Context,
    place: Place,
    value: &Value,
    found: Found,
) -> Result<Alone, JsonFault>
    ensures ok { IfOk result (λ read. object_alone context.now place (view value.now) found
        ≡ Ok (record { found = read.0; object = read.1 })) }
    ensures err { IfErr result (IsToldBy (object_alone context.now place (view value.now) found)) }
{
    match value {
        Value::Null => Ok((found, None)),
        Value::Bool(truth) => {
            let slot = boolean_object(alloc, None, *truth)?;
            Ok((found, Some(slot)))
        }
        Value::Number(number) => {
            let slot = number_object(alloc, "", None, number)?;
            Ok((found, Some(slot)))
        }
        Value::String(text) => string_alone(alloc, context, text.as_str(), found),
        Value::Array(_) => Err(unsupported(alloc, "")),
        Value::Object(members) => read_alone(alloc, context, place, members, found),
    }
}

/// The object and the triples of a value that stands alone, read as one of a key without a type, else its first fault.
///
/// Names are met, and faults told, as by `read_subjects`. Where a value of a property is told by its key, the text is empty here:
/// `Unsupported` of an array, and `BadSubject` of a string that is too long. `stands_alone` tells these two beforehand.
#[tactic(auto, unfolding(crate::specs::ObjectReading::object_read))]
pub fn read_object(
    alloc: Global,
    value: &Value,
    context: &Context,
    place: Place,
    names: &mut Names,
) -> Result<ObjectRead, JsonFault>
    ensures ok { IfOk result (λ read. object_read context.now place names.old (view value.now)
        ≡ Ok (record { found = record { names = names.new; triples = read.triples.items }; object = read.object })) }
    ensures err { IfErr result (IsToldBy (object_read context.now place names.old (view value.now))) }
{
    let met = mem::replace(names, Names::empty(alloc));
    let found = Found::new(met, Vec::new(alloc));
    let (found, object) = object_alone(alloc, context, place, value, found)?;
    let (met, triples) = found.into_parts();
    *names = met;
    Ok(ObjectRead { object, triples })
}
