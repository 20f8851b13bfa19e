//! Value objects (JSON-LD 1.1, section 9.5).
ghost use Rattle.std.specs.Prelude.{◌≡◌, ◌≢◌, ◌≤◌, length, not, codes, None, Some, Ok, IfOk, IfErr, IsTrue};
ghost use Rattle.rdf_terms.specs.Literal.{is_same, lexical_limit, rdf_lang_string, xsd_integer};
ghost use Rattle.serde_json.specs.Data.{number};
ghost use Rattle.serde_json.specs.View.{view, members_view, number_view};
ghost use Rattle.jsonld_context.specs.ContextReading.{first_fault};
ghost use Rattle.jsonld_context.specs.Expanding.{key_meant, expand_key};
ghost use Rattle.jsonld_context.specs.Telling.{IsToldBy, IsReadAs};
ghost use Rattle.jsonld_context.specs.declared.faults.JsonFault.TheVariants as faults;
ghost use Rattle.jsonld_values.specs.Literals.{IsDatatype, xsd_double};
ghost use Rattle.jsonld_values.specs.ValueObjects.{has_member, is_language_key, is_value_key, datatype_said, fault_of_language, fault_of_datatype, fault_of_typing, fault_of_length, fault_of_boolean, fault_of_written, fault_of_value_part, fault_of_value_object, literal_beside, literal_said, literal_meant, value_object};

use crate::datatypes::{boolean_type, integer_type, is_double_type, is_lang_string, string_type};
use crate::faults::{bad_subject, unsupported};
use crate::literals::{boolean_text, whole_text};
use jrql_ast::Slot;
use jsonld_context::{Context, JsonFault, is_type_key, is_variable, member_at, string_at};
use rdf_terms::{Iri, LEXICAL_LIMIT, Literal, Term, known_iri, tagged_literal, typed_literal};
use serde_json::{Map, Number, Value};
use std::alloc::{AllocError, Global};
use text_rules::is_language_tag;

/// The members of a JSON object.
type Members = Map<String, Value>;

/// Whether there is a member with a key. It takes no memory.
pub fn has_member(members: &Map<String, Value>, key: &str) -> bool
    ensures { result ≡ has_member key.now (members_view members.now.entries) }
{
    member_at(members, key).is_some()
}

/// Whether this is `@language`.
fn is_language_key(key: &str) -> bool
    ensures { result ≡ is_language_key key.now }
{
    key == "@language"
}

/// Whether this is `@value`.
fn is_value_key(key: &str) -> bool
    ensures { result ≡ is_value_key key.now }
{
    key == "@value"
}

/// Looks at an `@language`.
fn check_language(alloc: Global, value: &Value) -> Result<(), JsonFault>
    ensures { IsReadAs (fault_of_language (view value.now)) tt result }
{
    let Value::String(tag) = value else {
        return Err(bad_subject(alloc, "@language"));
    };
    if is_language_tag(tag.as_str()) {
        Ok(())
    } else {
        Err(bad_subject(alloc, "@language"))
    }
}

/// Looks at a datatype.
fn check_datatype(alloc: Global, context: &Context, text: &str) -> Result<(), JsonFault>
    ensures { IsReadAs (fault_of_datatype (expand_key context.now text.now)) tt result }
{
    let iri = match context.expand_key(alloc, text) {
        Ok(iri) => iri,
        Err(fault) => return Err(fault),
    };
    if is_lang_string(iri.as_str()) {
        Err(bad_subject(alloc, "@type"))
    } else {
        Ok(())
    }
}

/// Looks at an `@type` beside these members.
fn check_typing(
    alloc: Global,
    context: &Context,
    parts: &Members,
    value: &Value,
) -> Result<(), JsonFault>
    ensures { IsReadAs (fault_of_typing context.now (members_view parts.now.entries) (view value.now)) tt result }
{
    let Value::String(text) = value else {
        return Err(bad_subject(alloc, "@type"));
    };
    if has_member(parts, "@language") || is_variable(text.as_str()) {
        return Err(bad_subject(alloc, "@type"));
    }
    check_datatype(alloc, context, text.as_str())
}

/// Whether a text means xsd:double.
#[tactic(auto, using(crate::proofs::ValueParts::key_read, crate::proofs::ValueParts::not_double))]
fn means_double(alloc: Global, context: &Context, text: &str) -> Result<bool, AllocError>
    ensures { IfOk result
        (λ double. double ≡ is_same (key_meant context.now.vocabulary context.now.terms text.now) xsd_double) }
{
    match context.expand_key(alloc, text) {
        Ok(iri) => Ok(is_double_type(iri.as_str())),
        Err(JsonFault::BadIri(_)) => Ok(false),
        Err(_) => Err(AllocError),
    }
}

/// Whether a number beside these members would be of xsd:double.
#[tactic(auto, using(crate::proofs::KnownTypes::integer_apart))]
fn is_double(alloc: Global, context: &Context, parts: &Members) -> Result<bool, AllocError>
    ensures { IfOk result (λ double. double
        ≡ is_same (datatype_said context.now (members_view parts.now.entries) xsd_integer) xsd_double) }
{
    match string_at(parts, "@type") {
        Some(text) => means_double(alloc, context, text),
        None => Ok(false),
    }
}

/// Looks at a number beside these members.
fn check_number(
    alloc: Global,
    context: &Context,
    parts: &Members,
    value: &Number,
) -> Result<(), JsonFault>
    ensures { IsReadAs (fault_of_written context.now (members_view parts.now.entries)
        (number (number_view value.now))) tt result }
{
    if has_member(parts, "@language") {
        return Err(bad_subject(alloc, "@value"));
    }
    if value.is_f64() {
        return Err(JsonFault::Fraction);
    }
    if is_double(alloc, context, parts)? {
        Err(unsupported(alloc, "@value"))
    } else {
        Ok(())
    }
}

/// Looks at a boolean beside these members.
fn check_boolean(alloc: Global, parts: &Members) -> Result<(), JsonFault>
    ensures { IsReadAs (fault_of_boolean (members_view parts.now.entries)) tt result }
{
    if has_member(parts, "@language") {
        Err(bad_subject(alloc, "@value"))
    } else {
        Ok(())
    }
}

/// Looks at the length of a string.
fn check_length(alloc: Global, text: &str) -> Result<(), JsonFault>
    ensures { IsReadAs (fault_of_length text.now) tt result }
{
    if text.len() > LEXICAL_LIMIT {
        Err(bad_subject(alloc, "@value"))
    } else {
        Ok(())
    }
}

/// Looks at an `@value` beside these members.
fn check_written(
    alloc: Global,
    context: &Context,
    parts: &Members,
    value: &Value,
) -> Result<(), JsonFault>
    ensures { IsReadAs (fault_of_written context.now (members_view parts.now.entries) (view value.now)) tt result }
{
    match value {
        Value::String(text) => check_length(alloc, text.as_str()),
        Value::Bool(_) => check_boolean(alloc, parts),
        Value::Number(number) => check_number(alloc, context, parts, number),
        Value::Null => Err(bad_subject(alloc, "@value")),
        Value::Array(_) => Err(bad_subject(alloc, "@value")),
        Value::Object(_) => Err(bad_subject(alloc, "@value")),
    }
}

/// Looks at a part of a value object.
fn check_part(
    alloc: Global,
    context: &Context,
    parts: &Members,
    key: &str,
    value: &Value,
) -> Result<(), JsonFault>
    ensures { IsReadAs (fault_of_value_part context.now (members_view parts.now.entries) key.now
        (view value.now)) tt result }
{
    if is_language_key(key) {
        return check_language(alloc, value);
    }
    if is_type_key(key) {
        return check_typing(alloc, context, parts, value);
    }
    if is_value_key(key) {
        return check_written(alloc, context, parts, value);
    }
    Err(bad_subject(alloc, key))
}

/// Looks at the parts of a value object, in the order of their keys.
fn check_parts(alloc: Global, context: &Context, parts: &Members) -> Result<(), JsonFault>
    ensures { IsReadAs (first_fault (fault_of_value_part context.now (members_view parts.now.entries))
        (members_view parts.now.entries)) tt result }
{
    for (key, value) in parts.iter() {
        check_part(alloc, context, parts, key.as_str(), value)?;
    }
    Ok(())
}

/// Looks at a value object: `@context` first, then its parts.
fn check_value_object(alloc: Global, context: &Context, parts: &Members) -> Result<(), JsonFault>
    ensures { IsReadAs (fault_of_value_object context.now (members_view parts.now.entries)) tt result }
{
    if has_member(parts, "@context") {
        return Err(bad_subject(alloc, "@context"));
    }
    check_parts(alloc, context, parts)
}

/// Want of memory, where a fault can be no other.
fn want_of_memory(fault: JsonFault) -> AllocError
    requires { ¬ (fault ≢ faults.NoMemory) }
{
    match fault {
        JsonFault::NoMemory => AllocError,
        _ => unreachable!(),
    }
}

/// The datatype that the `@type` of a value object without faults says, else another.
fn datatype_said(
    alloc: Global,
    context: &Context,
    parts: &Members,
    other: &str,
) -> Result<Iri, AllocError>
    requires sound { fault_of_value_object context.now (members_view parts.now.entries) ≡ None }
    requires other { IsDatatype other.now }
    ensures iri { IfOk result (λ iri. iri ≡ datatype_said context.now (members_view parts.now.entries) other.now) }
    ensures allowed { IfOk result (λ iri. IsTrue (not (is_same iri rdf_lang_string))) }
{
    let Some(text) = string_at(parts, "@type") else {
        return known_iri(alloc, other);
    };
    match context.expand_key(alloc, text) {
        Ok(iri) => Ok(iri),
        Err(fault) => Err(want_of_memory(fault)),
    }
}

/// The literal of a lexical form in a value object without faults, of which another datatype is the form's own.
fn literal_beside(
    alloc: Global,
    context: &Context,
    parts: &Members,
    lexical: &str,
    other: &str,
) -> Result<Literal, AllocError>
    requires sound { fault_of_value_object context.now (members_view parts.now.entries) ≡ None }
    requires short { length lexical.now ≤ lexical_limit }
    requires other { IsDatatype other.now }
    ensures { IfOk result
        (λ literal. literal ≡ literal_beside context.now (members_view parts.now.entries) lexical.now other.now) }
{
    if let Some(tag) = string_at(parts, "@language") {
        return tagged_literal(alloc, lexical, tag);
    }
    let datatype = datatype_said(alloc, context, parts, other)?;
    typed_literal(alloc, lexical, &datatype)
}

/// The literal of a number in a value object without faults.
fn number_literal(
    alloc: Global,
    context: &Context,
    parts: &Members,
    value: &Number,
) -> Result<Literal, AllocError>
    requires { fault_of_value_object context.now (members_view parts.now.entries) ≡ None }
    ensures { IfOk result (λ literal. literal
        ≡ literal_said context.now (members_view parts.now.entries) (number (number_view value.now))) }
{
    match whole_text(alloc, value)? {
        Some(text) => literal_beside(alloc, context, parts, text.as_str(), integer_type()),
        None => literal_beside(alloc, context, parts, "", integer_type()),
    }
}

/// The literal of a value object without faults.
fn literal_meant(alloc: Global, context: &Context, parts: &Members) -> Result<Literal, AllocError>
    requires { fault_of_value_object context.now (members_view parts.now.entries) ≡ None }
    ensures { IfOk result (λ literal. literal ≡ literal_meant context.now (members_view parts.now.entries)) }
{
    let Some(value) = member_at(parts, "@value") else {
        return literal_beside(alloc, context, parts, "", string_type());
    };
    match value {
        Value::String(text) => literal_beside(alloc, context, parts, text.as_str(), string_type()),
        Value::Bool(value) => {
            literal_beside(alloc, context, parts, boolean_text(*value), boolean_type())
        }
        Value::Number(number) => number_literal(alloc, context, parts, number),
        Value::Null => literal_beside(alloc, context, parts, "", string_type()),
        Value::Array(_) => literal_beside(alloc, context, parts, "", string_type()),
        Value::Object(_) => literal_beside(alloc, context, parts, "", string_type()),
    }
}

/// The literal of a value object, else its first fault: `BadSubject` with the key at which it breaks a rule, `Fraction`, `BadIri` with
/// what was written for a datatype, or `Unsupported` with `@value` for a number of xsd:double.
#[tactic(auto, unfolding(crate::specs::ValueObjects::value_object))]
pub fn value_object(
    alloc: Global,
    context: &Context,
    parts: &Map<String, Value>,
) -> Result<Slot, JsonFault>
    ensures ok { IfOk result (λ slot. value_object context.now (members_view parts.now.entries) ≡ Ok slot) }
    ensures err { IfErr result (IsToldBy (value_object context.now (members_view parts.now.entries))) }
{
    check_value_object(alloc, context, parts)?;
    let literal = literal_meant(alloc, context, parts)?;
    Ok(Slot::Term(Term::Literal(literal)))
}
