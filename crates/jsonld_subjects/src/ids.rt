//! What a subject is: its id and its types (JSON-LD 1.1, sections 3.3 and 3.5).
ghost use Rattle.std.specs.Prelude.{◌≡◌, Ok, IfOk, IfErr, IsTrue};
ghost use Rattle.text_rules.specs.Iri.{is_absolute};
ghost use Rattle.serde_json.specs.View.{view, items_view};
ghost use Rattle.jsonld_context.specs.Expanding.{expand_id};
ghost use Rattle.jsonld_context.specs.Telling.{IsToldBy};
ghost use Rattle.jsonld_values.specs.Literals.{made_of, iri_slot};
ghost use Rattle.jsonld_subjects.specs.SubjectReading.{with_names, slot_of, property_of, rdf_type, read_id, read_type, read_each_type, read_types};

use crate::open_subjects::OpenSubject;
use jrql_ast::Slot;
use jsonld_context::{Context, JsonFault, is_variable};
use jsonld_values::bad_subject;
use rdf_terms::{Term, known_iri};
use serde_json::Value;
use std::alloc::{AllocError, Global};

/// rdf:type, the property of types.
pub(crate) const RDF_TYPE: &str = "http://www.w3.org/1999/02/22-rdf-syntax-ns#type";

/// The text of rdf:type.
#[tactic(auto, unfolding(crate::specs::SubjectReading::rdf_type))]
fn type_text() -> &'static str
    ensures text { result.now ≡ rdf_type }
    ensures absolute { IsTrue (is_absolute result.now) }
{
    RDF_TYPE
}

/// The slot of rdf:type.
fn rdf_type(alloc: Global) -> Result<Slot, AllocError>
    ensures { IfOk result (λ slot. slot ≡ iri_slot rdf_type) }
{
    let iri = known_iri(alloc, type_text())?;
    Ok(Slot::Term(Term::Iri(iri)))
}

/// Meets a key, or a value of `@type`.
pub(crate) fn meet_key(
    alloc: Global,
    context: &Context,
    text: &str,
    so_far: &mut OpenSubject,
) -> Result<Slot, JsonFault>
    ensures ok { IfOk result
        (λ slot. property_of context.now text.now so_far.old.found.names ≡ Ok (so_far.new.found.names, slot)) }
    ensures err { IfErr result (IsToldBy (property_of context.now text.now so_far.old.found.names)) }
    ensures kept { so_far.new ≡ with_names so_far.old so_far.new.found.names }
{
    if is_variable(text) {
        return so_far.meet_variable(alloc, text);
    }
    let iri = context.expand_key(alloc, text)?;
    Ok(Slot::Term(Term::Iri(iri)))
}

/// Meets an id.
fn meet_id(
    alloc: Global,
    context: &Context,
    text: &str,
    so_far: &mut OpenSubject,
) -> Result<Slot, JsonFault>
    ensures ok { IfOk result
        (λ slot. slot_of so_far.old.found.names text.now (made_of (expand_id context.now text.now) iri_slot)
        ≡ Ok (so_far.new.found.names, slot)) }
    ensures err { IfErr result
        (IsToldBy (slot_of so_far.old.found.names text.now (made_of (expand_id context.now text.now) iri_slot))) }
    ensures kept { so_far.new ≡ with_names so_far.old so_far.new.found.names }
{
    if is_variable(text) {
        return so_far.meet_variable(alloc, text);
    }
    let iri = context.expand_id(alloc, text)?;
    Ok(Slot::Term(Term::Iri(iri)))
}

/// Reads the value of `@id`.
pub(crate) fn read_id(
    alloc: Global,
    context: &Context,
    value: &Value,
    so_far: &mut OpenSubject,
) -> Result<(), JsonFault>
    ensures ok { IfOk result (λ _. read_id context.now (view value.now) so_far.old ≡ Ok so_far.new) }
    ensures err { IfErr result (IsToldBy (read_id context.now (view value.now) so_far.old)) }
{
    let Value::String(text) = value else {
        return Err(bad_subject(alloc, "@id"));
    };
    let slot = meet_id(alloc, context, text.as_str(), so_far)?;
    so_far.set_slot(slot);
    Ok(())
}

/// Reads a type.
fn read_type(
    alloc: Global,
    context: &Context,
    value: &Value,
    so_far: &mut OpenSubject,
) -> Result<(), JsonFault>
    ensures ok { IfOk result (λ _. read_type context.now (view value.now) so_far.old ≡ Ok so_far.new) }
    ensures err { IfErr result (IsToldBy (read_type context.now (view value.now) so_far.old)) }
{
    let Value::String(text) = value else {
        return Err(bad_subject(alloc, "@type"));
    };
    let slot = meet_key(alloc, context, text.as_str(), so_far)?;
    so_far.put(rdf_type(alloc)?, slot)?;
    Ok(())
}

/// Reads types in an array.
fn read_each_type(
    alloc: Global,
    context: &Context,
    items: &[Value],
    so_far: &mut OpenSubject,
) -> Result<(), JsonFault>
    ensures ok { IfOk result (λ _. read_each_type context.now (items_view items.now) so_far.old ≡ Ok so_far.new) }
    ensures err { IfErr result (IsToldBy (read_each_type context.now (items_view items.now) so_far.old)) }
{
    for value in items {
        read_type(alloc, context, value, so_far)?;
    }
    Ok(())
}

/// Reads the value of `@type`.
pub(crate) fn read_types(
    alloc: Global,
    context: &Context,
    value: &Value,
    so_far: &mut OpenSubject,
) -> Result<(), JsonFault>
    ensures ok { IfOk result (λ _. read_types context.now (view value.now) so_far.old ≡ Ok so_far.new) }
    ensures err { IfErr result (IsToldBy (read_types context.now (view value.now) so_far.old)) }
{
    match value {
        Value::Array(items) => read_each_type(alloc, context, items, so_far),
        _ => read_type(alloc, context, value, so_far),
    }
}
