//! Terms as JSON values (JSON-LD 1.1 API, section 8.5.2), written where they stand.
#![tactic(auto, using(std::proofs::lemmas::List::append_assoc))]

ghost use Rattle.std.specs.Prelude.{◌≡◌, ◌++◌, ◌∷◌, [], OnOk, codes, false};
ghost use Rattle.json.specs.Token.{Token};
ghost use Rattle.serde_json.specs.Data.{number, string};
ghost use Rattle.serde_json.specs.Find.{is_float};
ghost use Rattle.serde_json.specs.View.{number_view};
ghost use Rattle.rdf_terms.specs.Literal.{Typed, is_same, xsd_string, xsd_integer};
ghost use Rattle.jsonld_context.specs.ShortForms.{compact_id};
ghost use Rattle.jsonld_values.specs.Literals.{xsd_boolean};
ghost use Rattle.jsonld_values.specs.TermWriting.{term_data, one_member, two_members, literal_data, typed_data, string_data, boolean_data, integer_data};
ghost use Rattle.jsonld_values.specs.WrittenTokens.{WritesData};

use crate::datatypes::{XSD_BOOLEAN, XSD_INTEGER, XSD_STRING};
use crate::plain_numbers::plain_number;
use json::Writer;
use jsonld_context::{Context, is_variable};
use rdf_terms::{Iri, Literal, Term};
use serde_json::Number;
use std::alloc::{AllocError, Global};

/// Whether a datatype is xsd:string.
#[tactic(auto, unfolding(rdf_terms::specs::Literal::xsd_string))]
fn is_string(datatype: &str) -> bool
    ensures { result ≡ is_same datatype.now xsd_string }
{
    datatype == XSD_STRING
}

/// Whether a datatype is xsd:boolean.
#[tactic(auto, unfolding(crate::specs::Literals::xsd_boolean))]
fn is_boolean(datatype: &str) -> bool
    ensures { result ≡ is_same datatype.now xsd_boolean }
{
    datatype == XSD_BOOLEAN
}

/// Whether a datatype is xsd:integer.
#[tactic(auto, unfolding(rdf_terms::specs::Literal::xsd_integer))]
fn is_integer(datatype: &str) -> bool
    ensures { result ≡ is_same datatype.now xsd_integer }
{
    datatype == XSD_INTEGER
}

/// A key, and a string under it.
fn write_member(out: &mut Writer, key: &str, text: &str) -> Result<(), AllocError>
    ensures ok { OnOk result (out.new.tokens ≡ out.old.tokens ++ (Token.key key.now ∷ Token.string text.now ∷ [])) }
    ensures before { out.new.before ≡ out.old.before }
{
    out.key(key)?;
    out.string(text)
}

/// An object with a string under a key.
fn write_one(out: &mut Writer, key: &str, text: &str) -> Result<(), AllocError>
    ensures ok { OnOk result (WritesData out.old out.new (one_member key.now (string text.now))) }
    ensures before { out.new.before ≡ out.old.before }
{
    out.begin_object()?;
    write_member(out, key, text)?;
    out.end_object()
}

/// An object with a string under `@value`, behind one under another key.
fn write_value(out: &mut Writer, key: &str, text: &str, lexical: &str) -> Result<(), AllocError>
    ensures ok { OnOk result
        (WritesData out.old out.new (two_members key.now (string text.now) (codes "@value") (string lexical.now))) }
    ensures before { out.new.before ≡ out.old.before }
{
    out.begin_object()?;
    write_member(out, key, text)?;
    write_member(out, "@value", lexical)?;
    out.end_object()
}

/// An object with a lexical form and its type.
fn write_typed(
    alloc: Global,
    out: &mut Writer,
    context: &Context,
    lexical: &str,
    datatype: &str,
) -> Result<(), AllocError>
    ensures ok { OnOk result (WritesData out.old out.new (typed_data context.now lexical.now datatype.now)) }
    ensures before { out.new.before ≡ out.old.before }
{
    let key = context.compact_key_text(alloc, datatype)?;
    write_value(out, "@type", key.as_str(), lexical)
}

/// A string of xsd:string, in an object where it has the form of a variable.
fn write_string(out: &mut Writer, text: &str) -> Result<(), AllocError>
    ensures ok { OnOk result (WritesData out.old out.new (string_data text.now)) }
    ensures before { out.new.before ≡ out.old.before }
{
    if is_variable(text) {
        write_one(out, "@value", text)
    } else {
        out.string(text)
    }
}

/// A lexical form of xsd:boolean.
#[tactic(auto, unfolding(crate::specs::Literals::xsd_boolean))]
fn write_boolean(
    alloc: Global,
    out: &mut Writer,
    context: &Context,
    text: &str,
) -> Result<(), AllocError>
    ensures ok { OnOk result (WritesData out.old out.new (boolean_data context.now text.now)) }
    ensures before { out.new.before ≡ out.old.before }
{
    if text == "true" {
        out.boolean(true)
    } else if text == "false" {
        out.boolean(false)
    } else {
        write_typed(alloc, out, context, text, XSD_BOOLEAN)
    }
}

/// A whole number.
fn write_number(out: &mut Writer, whole: Number) -> Result<(), AllocError>
    requires { is_float (number_view whole) ≡ false }
    ensures ok { OnOk result (WritesData out.old out.new (number (number_view whole))) }
    ensures before { out.new.before ≡ out.old.before }
{
    if let Some(value) = whole.as_u64() {
        return out.u64(value);
    }
    if let Some(value) = whole.as_i64() {
        return out.i64(value);
    }
    unreachable!()
}

/// A lexical form of xsd:integer.
#[tactic(auto, unfolding(rdf_terms::specs::Literal::xsd_integer))]
fn write_integer(
    alloc: Global,
    out: &mut Writer,
    context: &Context,
    text: &str,
) -> Result<(), AllocError>
    ensures ok { OnOk result (WritesData out.old out.new (integer_data context.now text.now)) }
    ensures before { out.new.before ≡ out.old.before }
{
    match plain_number(text) {
        Some(whole) => write_number(out, whole),
        None => write_typed(alloc, out, context, text, XSD_INTEGER),
    }
}

/// A lexical form with its datatype.
fn write_of_type(
    alloc: Global,
    out: &mut Writer,
    context: &Context,
    lexical: &str,
    datatype: &str,
) -> Result<(), AllocError>
    ensures ok { OnOk result
        (WritesData out.old out.new (literal_data context.now (Typed lexical.now datatype.now))) }
    ensures before { out.new.before ≡ out.old.before }
{
    if is_string(datatype) {
        write_string(out, lexical)
    } else if is_boolean(datatype) {
        write_boolean(alloc, out, context, lexical)
    } else if is_integer(datatype) {
        write_integer(alloc, out, context, lexical)
    } else {
        write_typed(alloc, out, context, lexical, datatype)
    }
}

/// A literal.
fn write_literal(
    alloc: Global,
    out: &mut Writer,
    literal: &Literal,
    context: &Context,
) -> Result<(), AllocError>
    ensures ok { OnOk result (WritesData out.old out.new (literal_data context.now literal.now)) }
    ensures before { out.new.before ≡ out.old.before }
{
    if let Some(tag) = literal.language() {
        return write_value(out, "@language", tag, literal.lexical());
    }
    let Some(datatype) = literal.datatype() else {
        unreachable!();
    };
    write_of_type(alloc, out, context, literal.lexical(), datatype)
}

/// Writes the id of an IRI as a string: its shortest form under a context.
pub fn write_id(
    alloc: Global,
    out: &mut Writer,
    iri: &Iri,
    context: &Context,
) -> Result<(), AllocError>
    ensures ok { OnOk result (WritesData out.old out.new (string (compact_id context.now iri.now))) }
    ensures before { out.new.before ≡ out.old.before }
{
    match context.plain_id(iri) {
        Some(text) => out.string(text),
        None => {
            let id = context.compact_id(alloc, iri)?;
            out.string(id.as_str())
        }
    }
}

/// The object with an IRI's id.
fn write_iri(
    alloc: Global,
    out: &mut Writer,
    iri: &Iri,
    context: &Context,
) -> Result<(), AllocError>
    ensures ok { OnOk result
        (WritesData out.old out.new (one_member (codes "@id") (string (compact_id context.now iri.now)))) }
    ensures before { out.new.before ≡ out.old.before }
{
    out.begin_object()?;
    out.key("@id")?;
    write_id(alloc, out, iri, context)?;
    out.end_object()
}

/// Writes the value of a term: an object with the id of an IRI; of a literal a string, a boolean or a number where one is read as it, else
/// an object with its language or its type. What stood in the output stays in front, also where memory is wanting.
#[tactic(auto, unfolding(crate::specs::TermWriting::term_data))]
pub fn write_term(
    alloc: Global,
    out: &mut Writer,
    term: &Term,
    context: &Context,
) -> Result<(), AllocError>
    ensures ok { OnOk result (WritesData out.old out.new (term_data context.now term.now)) }
    ensures before { out.new.before ≡ out.old.before }
{
    match term {
        Term::Iri(iri) => write_iri(alloc, out, iri, context),
        Term::Literal(literal) => write_literal(alloc, out, literal, context),
    }
}
