//! What keys and ids stand for (JSON-LD 1.1 API, section 5.2).
ghost use Rattle.std.specs.Prelude.{◌≡◌, Ok, IsTrue, IfOk, IfErr};
ghost use Rattle.std.specs.Option.{option_copied};
ghost use Rattle.std.specs.String.{string_bytes};
ghost use Rattle.text_rules.specs.Iri.{is_absolute};
ghost use Rattle.text_rules.specs.Resolution.{resolved};
ghost use Rattle.jsonld_context.specs.Context.{AscendByName, find_term, prefix_of, type_of};
ghost use Rattle.jsonld_context.specs.Expanding.{absolute_or_fault, key_without_term, key_iri, id_iri};
ghost use Rattle.jsonld_context.specs.Prefixes.{expanded};
ghost use Rattle.jsonld_context.specs.Telling.{IsToldBy};
ghost use Rattle.jsonld_context.specs.declared.faults.JsonFault.TheVariants as faults;

use crate::definitions::{Definition, TermType};
use crate::faults::JsonFault;
use crate::prefixes::{cut_prefix, joined};
use rdf_terms::{Iri, known_iri};
use std::alloc::{AllocError, Global};
use std::cmp::Ordering;
use text_rules::{IriFault, Text, has_colon, is_absolute, resolve};

/// The term of a name, looked for by halves.
pub(crate) fn find_term<'a>(terms: &'a [Definition], name: &str) -> Option<&'a Definition>
    requires ascending { AscendByName terms.now }
    ensures { option_copied result ≡ find_term terms.now name.now }
{
    if terms.is_empty() {
        return None;
    }
    let middle = terms.len() / 2;
    let term = &terms[middle];
    match term.name.as_str().cmp(name) {
        Ordering::Less => find_term(&terms[middle + 1..], name),
        Ordering::Equal => Some(term),
        Ordering::Greater => find_term(&terms[..middle], name),
    }
}

/// The IRI of the prefix of a name.
fn prefix_of<'a>(terms: &'a [Definition], name: &str) -> Option<&'a str>
    requires { AscendByName terms.now }
    ensures { option_copied result ≡ prefix_of terms.now name.now }
{
    let term = find_term(terms, name)?;
    if term.is_prefix {
        Some(term.iri.as_str())
    } else {
        None
    }
}

/// The type of the values of a key, where it is a term that has one.
pub(crate) fn type_of<'a>(terms: &'a [Definition], key: &str) -> Option<&'a TermType>
    requires { AscendByName terms.now }
    ensures { option_copied result ≡ type_of terms.now key.now }
{
    let term = find_term(terms, key)?;
    term.coercion.as_ref()
}

/// What a text with a colon stands for.
fn expanded(alloc: Global, terms: &[Definition], text: &str) -> Result<String, AllocError>
    requires { AscendByName terms.now }
    ensures { IfOk result (λ iri. string_bytes iri ≡ expanded (prefix_of terms.now) text.now) }
{
    let Some((front, rest)) = cut_prefix(text) else {
        return String::from_str(alloc, text);
    };
    match prefix_of(terms, front) {
        Some(iri) => joined(alloc, iri, rest),
        None => String::from_str(alloc, text),
    }
}

/// The IRI of a text, which stands for what was written.
pub(crate) fn to_iri(alloc: Global, iri: &str, written: &str) -> Result<Iri, JsonFault>
    ensures ok { IfOk result (λ i. absolute_or_fault written.now iri.now ≡ Ok i) }
    ensures err { IfErr result (IsToldBy (absolute_or_fault written.now iri.now)) }
{
    if is_absolute(iri) {
        Ok(known_iri(alloc, iri)?)
    } else {
        Err(JsonFault::BadIri(Text::new(alloc, written)?))
    }
}

/// The text that a key stands for, which is no term.
fn key_text(
    alloc: Global,
    vocabulary: &str,
    terms: &[Definition],
    text: &str,
) -> Result<String, AllocError>
    requires { AscendByName terms.now }
    ensures { IfOk result (λ iri. string_bytes iri ≡ key_without_term vocabulary.now terms.now text.now) }
{
    if has_colon(text) {
        expanded(alloc, terms, text)
    } else {
        joined(alloc, vocabulary, text)
    }
}

/// The IRI of a key, or of a value of `@type`.
#[tactic(auto, unfolding(crate::specs::Expanding::key_iri))]
pub(crate) fn expand_key(
    alloc: Global,
    vocabulary: &str,
    terms: &[Definition],
    text: &str,
) -> Result<Iri, JsonFault>
    requires { AscendByName terms.now }
    ensures ok { IfOk result (λ iri. key_iri vocabulary.now terms.now text.now ≡ Ok iri) }
    ensures err { IfErr result (IsToldBy (key_iri vocabulary.now terms.now text.now)) }
{
    if let Some(term) = find_term(terms, text) {
        term_iri(term)
    } else {
        let iri = key_text(alloc, vocabulary, terms, text)?;
        to_iri(alloc, iri.as_str(), text)
    }
}

/// The IRI of a term, which is absolute.
fn term_iri(term: &Definition) -> Result<Iri, JsonFault>
    ensures ok { IfOk result (λ iri. iri ≡ term.now.iri) }
    ensures err { IfErr result (λ fault. fault ≡ faults.NoMemory) }
    ensures absolute { IsTrue (is_absolute term.now.iri) }
{
    let _text = term.iri.as_str();
    Ok(term.iri.share()?)
}

/// The IRI of an id.
#[tactic(auto, unfolding(crate::specs::Expanding::id_iri))]
pub(crate) fn expand_id(
    alloc: Global,
    base: &str,
    terms: &[Definition],
    text: &str,
) -> Result<Iri, JsonFault>
    requires base { IsTrue (is_absolute base.now) }
    requires ascending { AscendByName terms.now }
    ensures ok { IfOk result (λ iri. id_iri base.now terms.now text.now ≡ Ok iri) }
    ensures err { IfErr result (IsToldBy (id_iri base.now terms.now text.now)) }
{
    if has_colon(text) {
        let iri = expanded(alloc, terms, text)?;
        to_iri(alloc, iri.as_str(), text)
    } else {
        resolved(alloc, base, text)
    }
}

/// The IRI of a reference against a base.
fn resolved(alloc: Global, base: &str, text: &str) -> Result<Iri, JsonFault>
    requires { IsTrue (is_absolute base.now) }
    ensures ok { IfOk result (λ iri. absolute_or_fault text.now (resolved base.now text.now) ≡ Ok iri) }
    ensures err { IfErr result (IsToldBy (absolute_or_fault text.now (resolved base.now text.now))) }
{
    match resolve(alloc, base, text) {
        Ok(iri) => to_iri(alloc, iri.as_str(), text),
        Err(IriFault::NotIri) => Err(JsonFault::BadIri(Text::new(alloc, text)?)),
        Err(IriFault::NoMemory) => Err(JsonFault::NoMemory),
    }
}
