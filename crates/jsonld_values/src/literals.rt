//! Strings, booleans and numbers as objects of triples (JSON-LD 1.1 API, sections 5.3.2 and 8.2.2).
ghost use Rattle.std.specs.Prelude.{◌≡◌, ◌≤◌, length, not, Ok, IfOk, IfErr, IfSome, IsTrue};
ghost use Rattle.std.specs.Fmt.{signed_decimal};
ghost use Rattle.std.specs.Option.{option_copied, option_map};
ghost use Rattle.std.specs.String.{string_bytes};
ghost use Rattle.rdf_terms.specs.Literal.{Typed, is_same, rdf_lang_string, xsd_string, lexical_limit};
ghost use Rattle.serde_json.specs.View.{number_view};
ghost use Rattle.jsonld_context.specs.Expanding.{expand_id};
ghost use Rattle.jsonld_context.specs.Telling.{IsToldBy};
ghost use Rattle.jsonld_values.specs.Literals.{iri_slot, literal_slot, made_of, literal_object, string_object, boolean_text, boolean_object, whole_text, number_object};

use crate::datatypes::{boolean_type, datatype_under, integer_type, is_double_type, string_type};
use crate::faults::{bad_subject, unsupported};
use jrql_ast::Slot;
use jsonld_context::{Context, JsonFault, TermType};
use rdf_terms::{Iri, LEXICAL_LIMIT, Term, known_iri, typed_literal};
use serde_json::Number;
use std::alloc::{AllocError, Global};

/// A literal as an object.
fn typed_slot(alloc: Global, lexical: &str, datatype: &Iri) -> Result<Slot, AllocError>
    requires short { length lexical.now ≤ lexical_limit }
    requires allowed { IsTrue (not (is_same datatype.now rdf_lang_string)) }
    ensures { IfOk result (λ slot. slot ≡ literal_slot (Typed lexical.now datatype.now)) }
{
    let literal = typed_literal(alloc, lexical, datatype)?;
    Ok(Slot::Term(Term::Literal(literal)))
}

/// A string under a key as a literal, where it isn't too long.
fn literal_object(
    alloc: Global,
    key: &str,
    lexical: &str,
    datatype: &Iri,
) -> Result<Slot, JsonFault>
    requires { IsTrue (not (is_same datatype.now rdf_lang_string)) }
    ensures ok { IfOk result (λ slot. literal_object key.now lexical.now datatype.now ≡ Ok slot) }
    ensures err { IfErr result (IsToldBy (literal_object key.now lexical.now datatype.now)) }
{
    if lexical.len() > LEXICAL_LIMIT {
        return Err(bad_subject(alloc, key));
    }
    let slot = typed_slot(alloc, lexical, datatype)?;
    Ok(slot)
}

/// A string that is no variable, under a key whose values are of a kind: an id, or a literal. `BadIri` says that the id is no absolute
/// IRI, and `BadSubject`, with the key, that the literal would have more than 1,048,576 bytes.
pub fn string_object(
    alloc: Global,
    context: &Context,
    key: &str,
    kind: Option<&TermType>,
    text: &str,
) -> Result<Slot, JsonFault>
    ensures ok { IfOk result (λ slot. string_object context.now key.now (option_copied kind.entry) text.now ≡ Ok slot) }
    ensures err { IfErr result (IsToldBy (string_object context.now key.now (option_copied kind.entry) text.now)) }
{
    match kind {
        Some(TermType::Id) => id_object(alloc, context, text),
        Some(TermType::Datatype(datatype)) => literal_object(alloc, key, text, datatype.iri()),
        None => plain_object(alloc, key, text),
    }
}

/// A string as an id.
fn id_object(alloc: Global, context: &Context, text: &str) -> Result<Slot, JsonFault>
    ensures ok { IfOk result (λ slot. made_of (expand_id context.now text.now) iri_slot ≡ Ok slot) }
    ensures err { IfErr result (IsToldBy (made_of (expand_id context.now text.now) iri_slot)) }
{
    match context.expand_id(alloc, text) {
        Ok(iri) => Ok(Slot::Term(Term::Iri(iri))),
        Err(fault) => Err(fault),
    }
}

/// A string under a key as a literal of xsd:string.
fn plain_object(alloc: Global, key: &str, text: &str) -> Result<Slot, JsonFault>
    ensures ok { IfOk result (λ slot. literal_object key.now text.now xsd_string ≡ Ok slot) }
    ensures err { IfErr result (IsToldBy (literal_object key.now text.now xsd_string)) }
{
    let datatype = known_iri(alloc, string_type())?;
    literal_object(alloc, key, text, &datatype)
}

/// How a boolean is written.
pub(crate) fn boolean_text(value: bool) -> &'static str
    ensures text { result.now ≡ boolean_text value }
    ensures short { length result.now ≤ lexical_limit }
{
    if value { "true" } else { "false" }
}

/// A boolean under a key whose values are of a kind.
pub fn boolean_object(
    alloc: Global,
    kind: Option<&TermType>,
    value: bool,
) -> Result<Slot, AllocError>
    ensures { IfOk result (λ slot. slot ≡ boolean_object (option_copied kind.entry) value) }
{
    let datatype = datatype_under(alloc, kind, boolean_type())?;
    typed_slot(alloc, boolean_text(value), &datatype)
}

/// The decimal text of a whole number of 128 bits.
fn decimal_text(alloc: Global, value: i128) -> Result<String, AllocError>
    ensures text { IfOk result (λ text. string_bytes text ≡ signed_decimal value) }
    ensures short { IfOk result (λ text. length (string_bytes text) ≤ lexical_limit) }
{
    format!(in alloc; "{value}")
}

/// The decimal text of a number, where it is a whole number of 64 bits.
pub(crate) fn whole_text(alloc: Global, value: &Number) -> Result<Option<String>, AllocError>
    ensures text { IfOk result (λ text. option_map string_bytes text ≡ whole_text (number_view value.now)) }
    ensures short { IfOk result (λ text. IfSome text (λ text. length (string_bytes text) ≤ lexical_limit)) }
{
    match value.as_i128() {
        Some(whole) => Ok(Some(decimal_text(alloc, whole)?)),
        None => Ok(None),
    }
}

/// A number under a key whose values are of a kind. `Fraction` says that it is no whole number of 64 bits, and `Unsupported`, with the
/// key, that it is one and its datatype xsd:double.
pub fn number_object(
    alloc: Global,
    key: &str,
    kind: Option<&TermType>,
    value: &Number,
) -> Result<Slot, JsonFault>
    ensures ok { IfOk result
        (λ slot. number_object key.now (option_copied kind.entry) (number_view value.now) ≡ Ok slot) }
    ensures err { IfErr result (IsToldBy (number_object key.now (option_copied kind.entry) (number_view value.now))) }
{
    let Some(text) = whole_text(alloc, value)? else {
        return Err(JsonFault::Fraction);
    };
    let datatype = datatype_under(alloc, kind, integer_type())?;
    if is_double_type(datatype.as_str()) {
        return Err(unsupported(alloc, key));
    }
    let slot = typed_slot(alloc, text.as_str(), &datatype)?;
    Ok(slot)
}
