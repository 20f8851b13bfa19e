//! Contexts read from JSON (JSON-LD 1.1 API, sections 4.1 and 4.2).
ghost use Rattle.std.specs.Prelude.{◌≡◌, ◌++◌, ◌∷◌, ◌||◌, [], false, map, OnOk, None, Some, IfOk, IfErr, IfSome, IfNone, IsTrue, codes};
ghost use Rattle.std.specs.Cmp.Lexicographic.{slice_cmp};
ghost use Rattle.std.specs.List.{AllByRecursion};
ghost use Rattle.std.specs.List.Sorted.{IsStrictlySortedBy};
ghost use Rattle.std.specs.Option.{option_copied, option_map, is_some, unwrap_or};
ghost use Rattle.std.specs.Ordering.{nat_cmp};
ghost use Rattle.std.specs.String.{string_bytes};
ghost use Rattle.text_rules.specs.Domain.{is_domain};
ghost use Rattle.text_rules.specs.Iri.{is_absolute};
ghost use Rattle.rdf_terms.specs.Literal.{is_same, rdf_lang_string};
ghost use Rattle.serde_json.specs.Data.{object, string};
ghost use Rattle.serde_json.specs.Find.{as_str, get_member};
ghost use Rattle.serde_json.specs.View.{view, members_view};
ghost use Rattle.jsonld_context.specs.Prefixes.{prefix_at};
ghost use Rattle.text_rules.specs.TextForms.{behind_colon, is_term_name};
ghost use Rattle.jsonld_context.specs.ContextReading.{is_base_key, is_vocabulary_key, is_id_key, is_type_key, domain_base, domain_vocabulary, string_at, is_prefix_string, prefix_among, meant, object_iri, type_meant, definition, definitions, fault_of_object_iri, fault_of_object_type, first_fault, fault_of_iri, fault_of_keyword, is_extended_prefix, fault_of_string, fault_of_id, fault_of_type, fault_of_part, fault_of_value, fault_of_member, fault_by_vocabulary, known_vocabulary};
ghost use Rattle.jsonld_context.specs.FormsFound.{IsDelimited};
ghost use Rattle.jsonld_context.specs.Telling.{IsFaultOf, IsReadAs};
ghost use Rattle.jsonld_context.specs.declared.faults.JsonFault.TheVariants as faults;

use crate::datatypes::Datatype;
use crate::definitions::{Definition, TermType};
use crate::faults::JsonFault;
use crate::prefixes::{cut_prefix, joined};
use rdf_terms::{Iri, known_iri};
use serde_json::{Map, Value};
use std::alloc::{AllocError, Global};
use text_rules::{Text, ends_in_delimiter, has_colon, is_absolute, is_term_name};

/// The members of a JSON object.
type Members = Map<String, Value>;

/// rdf:langString, the datatype of literals with a language tag, which none names.
const RDF_LANG_STRING: &str = "http://www.w3.org/1999/02/22-rdf-syntax-ns#langString";

/// Whether this is the key of the base or of the vocabulary.
fn is_keyword(key: &str) -> bool
    ensures { result ≡ (is_base_key key.now || is_vocabulary_key key.now) }
{
    key == "@base" || key == "@vocab"
}

/// Whether this is `@id`.
pub fn is_id_key(key: &str) -> bool
    ensures { result ≡ is_id_key key.now }
{
    key == "@id"
}

/// Whether this is `@type`.
pub fn is_type_key(key: &str) -> bool
    ensures { result ≡ is_type_key key.now }
{
    key == "@type"
}

/// Whether this is rdf:langString.
#[tactic(auto, unfolding(rdf_terms::specs::Literal::rdf_lang_string))]
fn is_lang_string(iri: &str) -> bool
    ensures { result ≡ is_same iri.now rdf_lang_string }
{
    iri == RDF_LANG_STRING
}

/// The fault of a context at a key.
pub(crate) fn bad_context(alloc: Global, key: &str) -> JsonFault
    ensures { IsFaultOf (Some (faults.BadContext key.now)) result }
{
    match Text::new(alloc, key) {
        Ok(key) => JsonFault::BadContext(key),
        Err(_) => JsonFault::NoMemory,
    }
}

/// The base of a domain.
pub(crate) fn domain_base(alloc: Global, domain: &str) -> Result<Text, AllocError>
    requires { IsTrue (is_domain domain.now) }
    ensures text { IfOk result (λ base. base ≡ domain_base domain.now) }
    ensures absolute { IfOk result (λ base. IsTrue (is_absolute base)) }
{
    Text::from_string(between(alloc, "http://", domain, "/")?)
}

/// The vocabulary of a domain.
pub(crate) fn domain_vocabulary(alloc: Global, domain: &str) -> Result<Text, AllocError>
    requires { IsTrue (is_domain domain.now) }
    ensures text { IfOk result (λ vocabulary. vocabulary ≡ domain_vocabulary domain.now) }
    ensures absolute { IfOk result (λ vocabulary. IsTrue (is_absolute vocabulary)) }
{
    Text::from_string(between(alloc, "http://", domain, "/#")?)
}

/// The base of a context with these members.
pub(crate) fn base_of(alloc: Global, all: &Members, domain: &str) -> Result<Text, AllocError>
    requires { IsTrue (is_domain domain.now) }
    ensures { IfOk result
        (λ base. base ≡ unwrap_or (string_at (codes "@base") (members_view all.now.entries)) (domain_base domain.now)) }
{
    match string_at(all, "@base") {
        Some(text) => Text::new(alloc, text),
        None => domain_base(alloc, domain),
    }
}

/// The vocabulary of a context with these members, where it is known: a `@vocab` that is no string gives none.
pub(crate) fn vocabulary_of(
    alloc: Global,
    all: &Members,
    domain: &str,
) -> Result<Option<Text>, AllocError>
    requires { IsTrue (is_domain domain.now) }
    ensures { IfOk result (λ vocabulary. vocabulary ≡ known_vocabulary domain.now (members_view all.now.entries)) }
{
    let Some(value) = member_at(all, "@vocab") else {
        return Ok(Some(domain_vocabulary(alloc, domain)?));
    };
    match value.as_str() {
        Some(text) => Ok(Some(Text::new(alloc, text)?)),
        None => Ok(None),
    }
}

/// Whether a context has a `@context` of its own, which none may have.
pub(crate) fn has_context(all: &Members) -> bool
    ensures { result ≡ is_some (get_member (codes "@context") (members_view all.now.entries)) }
{
    member_at(all, "@context").is_some()
}

/// A text between two others.
fn between(alloc: Global, front: &str, text: &str, back: &str) -> Result<String, AllocError>
    ensures { IfOk result (λ whole. string_bytes whole ≡ front.now ++ text.now ++ back.now) }
{
    let mut whole = String::from_str(alloc, front)?;
    whole.push_str(text)?;
    whole.push_str(back)?;
    Ok(whole)
}

/// The member with a key. It takes no memory.
pub fn member_at<'a>(members: &'a Map<String, Value>, key: &str) -> Option<&'a Value>
    ensures { option_map (λ value. view value.now) result ≡ get_member key.now (members_view members.now.entries) }
{
    members.get(key)
}

/// The string of the member with a key, where it is one. It takes no memory.
pub fn string_at<'a>(members: &'a Map<String, Value>, key: &str) -> Option<&'a str>
    ensures { option_copied result ≡ string_at key.now (members_view members.now.entries) }
{
    match member_at(members, key) {
        Some(value) => value.as_str(),
        None => None,
    }
}

/// Whether a string makes its term a prefix.
fn is_prefix_string(text: &str) -> bool
    ensures { result ≡ is_prefix_string text.now }
{
    is_absolute(text) && ends_in_delimiter(text)
}

/// The IRI of a prefix among the members of a context, by its name.
fn prefix_among<'a>(all: &'a Members, name: &str) -> Option<&'a str>
    ensures { option_copied result ≡ prefix_among (members_view all.now.entries) name.now }
{
    if !is_term_name(name) {
        return None;
    }
    let text = string_at(all, name)?;
    if is_prefix_string(text) {
        Some(text)
    } else {
        None
    }
}

/// The prefix's IRI and the rest of a compact IRI, where a text is one.
fn compact_parts<'a>(all: &'a Members, text: &'a str) -> Option<(&'a str, &'a str)>
    ensures none { IfNone result (prefix_at (prefix_among (members_view all.now.entries)) text.now ≡ None) }
    ensures some { IfSome result (λ parts.
        (prefix_at (prefix_among (members_view all.now.entries)) text.now ≡ Some parts.0.now)
        × (parts.1.now ≡ behind_colon text.now)) }
{
    let (front, rest) = cut_prefix(text)?;
    match prefix_among(all, front) {
        Some(iri) => Some((iri, rest)),
        None => None,
    }
}

/// What a string stands for.
fn meant(alloc: Global, all: &Members, text: &str) -> Result<String, AllocError>
    ensures { IfOk result (λ iri. string_bytes iri ≡ meant (members_view all.now.entries) text.now) }
{
    match compact_parts(all, text) {
        Some((iri, rest)) => joined(alloc, iri, rest),
        None => String::from_str(alloc, text),
    }
}

/// The IRI of a text that was written so.
fn iri_of(alloc: Global, iri: &str, written: &str) -> Result<Iri, JsonFault>
    ensures { IsReadAs (fault_of_iri written.now iri.now) iri.now result }
{
    if is_absolute(iri) {
        Ok(known_iri(alloc, iri)?)
    } else {
        Err(JsonFault::BadIri(Text::new(alloc, written)?))
    }
}

/// The IRI that a string stands for.
fn iri_meant(alloc: Global, all: &Members, text: &str) -> Result<Iri, JsonFault>
    ensures { IsReadAs (fault_of_iri text.now (meant (members_view all.now.entries) text.now))
        (meant (members_view all.now.entries) text.now) result }
{
    let iri = meant(alloc, all, text)?;
    iri_of(alloc, iri.as_str(), text)
}

/// Looks at the value of `@base` or `@vocab`.
fn check_keyword(alloc: Global, key: &str, value: &Value) -> Result<(), JsonFault>
    ensures { IsReadAs (fault_of_keyword key.now (view value.now)) tt result }
{
    let Value::String(text) = value else {
        return Err(bad_context(alloc, key));
    };
    if is_absolute(text.as_str()) {
        Ok(())
    } else {
        Err(JsonFault::BadIri(Text::new(alloc, text.as_str())?))
    }
}

/// Whether a string that looks like a prefix's begins with a prefix.
fn is_extended_prefix(all: &Members, text: &str) -> bool
    ensures { result ≡ is_extended_prefix (members_view all.now.entries) text.now }
{
    ends_in_delimiter(text) && compact_parts(all, text).is_some()
}

/// The IRI of a term whose value is a string.
fn read_string(alloc: Global, all: &Members, term: &str, text: &str) -> Result<Iri, JsonFault>
    ensures { IsReadAs (fault_of_string (members_view all.now.entries) term.now text.now)
        (meant (members_view all.now.entries) text.now) result }
{
    if has_colon(text) && !is_extended_prefix(all, text) {
        iri_meant(alloc, all, text)
    } else {
        Err(bad_context(alloc, term))
    }
}

/// The IRI of an `@id` of a term.
fn read_id(alloc: Global, all: &Members, term: &str, text: &str) -> Result<Iri, JsonFault>
    ensures { IsReadAs (fault_of_id (members_view all.now.entries) term.now text.now)
        (meant (members_view all.now.entries) text.now) result }
{
    if has_colon(text) {
        iri_meant(alloc, all, text)
    } else {
        Err(bad_context(alloc, term))
    }
}

/// The type that an `@type` of a term says.
fn read_type(alloc: Global, all: &Members, term: &str, text: &str) -> Result<TermType, JsonFault>
    ensures { IsReadAs (fault_of_type (members_view all.now.entries) term.now text.now)
        (type_meant (members_view all.now.entries) text.now) result }
{
    if is_id_key(text) {
        return Ok(TermType::Id);
    }
    if !has_colon(text) {
        return Err(bad_context(alloc, term));
    }
    let iri = meant(alloc, all, text)?;
    if is_lang_string(iri.as_str()) {
        return Err(bad_context(alloc, term));
    }
    match iri_of(alloc, iri.as_str(), text) {
        Ok(iri) => Ok(TermType::Datatype(Datatype::from_iri(iri))),
        Err(fault) => Err(fault),
    }
}

/// Looks at a part of a term's object.
fn check_part(
    alloc: Global,
    all: &Members,
    term: &str,
    key: &str,
    value: &Value,
) -> Result<(), JsonFault>
    ensures { IsReadAs (fault_of_part (members_view all.now.entries) term.now key.now (view value.now)) tt result }
{
    let Value::String(text) = value else {
        return Err(bad_context(alloc, term));
    };
    if is_id_key(key) {
        let _iri = read_id(alloc, all, term, text.as_str())?;
        return Ok(());
    }
    if is_type_key(key) {
        let _kind = read_type(alloc, all, term, text.as_str())?;
        return Ok(());
    }
    Err(bad_context(alloc, term))
}

/// Looks at the parts of a term's object, in the order of their keys.
fn check_parts(alloc: Global, all: &Members, term: &str, parts: &Members) -> Result<(), JsonFault>
    ensures { IsReadAs (first_fault (fault_of_part (members_view all.now.entries) term.now)
        (members_view parts.now.entries)) tt result }
{
    for (key, value) in parts.iter() {
        check_part(alloc, all, term, key.as_str(), value)?;
    }
    Ok(())
}

/// The IRI of a term whose value is an object, of which this is the `@id`.
fn object_iri(
    alloc: Global,
    vocabulary: &str,
    all: &Members,
    term: &str,
    id: Option<&str>,
) -> Result<Iri, JsonFault>
    ensures { IsReadAs (fault_of_object_iri vocabulary.now (members_view all.now.entries) term.now
        (option_copied id.entry))
        (object_iri vocabulary.now (members_view all.now.entries) term.now (option_copied id.entry)) result }
{
    if let Some(text) = id {
        return read_id(alloc, all, term, text);
    }
    let iri = joined(alloc, vocabulary, term)?;
    iri_of(alloc, iri.as_str(), term)
}

/// The type of the values of a term whose value is an object, of which this is the `@type`.
fn object_type(
    alloc: Global,
    all: &Members,
    term: &str,
    kind: Option<&str>,
) -> Result<Option<TermType>, JsonFault>
    ensures { IsReadAs (fault_of_object_type (members_view all.now.entries) term.now (option_copied kind.entry))
        (option_map (type_meant (members_view all.now.entries)) (option_copied kind.entry)) result }
{
    let Some(text) = kind else {
        return Ok(None);
    };
    match read_type(alloc, all, term, text) {
        Ok(kind) => Ok(Some(kind)),
        Err(fault) => Err(fault),
    }
}

/// The term that an object defines.
fn read_object(
    alloc: Global,
    vocabulary: &str,
    all: &Members,
    term: &str,
    parts: &Members,
) -> Result<Definition, JsonFault>
    ensures { IsReadAs (fault_of_value (Some vocabulary.now) (members_view all.now.entries) term.now
        (object (members_view parts.now.entries)))
        (definition vocabulary.now (members_view all.now.entries) term.now
        (object (members_view parts.now.entries))) result }
{
    check_parts(alloc, all, term, parts)?;
    let iri = object_iri(alloc, vocabulary, all, term, string_at(parts, "@id"))?;
    let coercion = object_type(alloc, all, term, string_at(parts, "@type"))?;
    let name = Text::new(alloc, term)?;
    Ok(Definition {
        name,
        iri,
        coercion,
        is_prefix: false,
    })
}

/// The term that a string defines.
fn read_simple(
    alloc: Global,
    all: &Members,
    term: &str,
    text: &str,
) -> Result<Definition, JsonFault>
    ensures { IsReadAs (fault_of_string (members_view all.now.entries) term.now text.now)
        (definition [] (members_view all.now.entries) term.now (string text.now)) result }
{
    let iri = read_string(alloc, all, term, text)?;
    let name = Text::new(alloc, term)?;
    Ok(Definition {
        name,
        iri,
        coercion: None,
        is_prefix: is_prefix_string(text),
    })
}

/// The term that a member defines, whose key is no keyword.
fn read_term(
    alloc: Global,
    vocabulary: &str,
    all: &Members,
    key: &str,
    value: &Value,
) -> Result<Definition, JsonFault>
    requires { (is_base_key key.now || is_vocabulary_key key.now) ≡ false }
    ensures { IsReadAs (fault_of_member (Some vocabulary.now) (members_view all.now.entries) key.now (view value.now))
        (definition vocabulary.now (members_view all.now.entries) key.now (view value.now)) result }
{
    if !is_term_name(key) {
        return Err(bad_context(alloc, key));
    }
    match value {
        Value::String(text) => read_simple(alloc, all, key, text.as_str()),
        Value::Object(parts) => read_object(alloc, vocabulary, all, key, parts),
        _ => Err(bad_context(alloc, key)),
    }
}

/// Looks at a member of a context whose vocabulary isn't known.
fn check_member(alloc: Global, all: &Members, key: &str, value: &Value) -> Result<(), JsonFault>
    ensures { IsReadAs (fault_of_member None (members_view all.now.entries) key.now (view value.now)) tt result }
{
    if is_keyword(key) {
        return check_keyword(alloc, key, value);
    }
    if !is_term_name(key) {
        return Err(bad_context(alloc, key));
    }
    match value {
        Value::String(text) => {
            let _iri = read_string(alloc, all, key, text.as_str())?;
            Ok(())
        }
        Value::Object(parts) => check_parts(alloc, all, key, parts),
        _ => Err(bad_context(alloc, key)),
    }
}

/// Looks at the members of a context whose vocabulary isn't known, in the order of their keys.
fn check_members(alloc: Global, all: &Members) -> Result<(), JsonFault>
    ensures { IsReadAs (fault_by_vocabulary None (members_view all.now.entries)) tt result }
{
    for (key, value) in all.iter() {
        check_member(alloc, all, key.as_str(), value)?;
    }
    Ok(())
}

/// The first fault of members whose `@vocab` is no string.
pub(crate) fn fault_without_vocabulary(alloc: Global, all: &Members) -> JsonFault
    requires { option_map as_str (get_member (codes "@vocab") (members_view all.now.entries)) ≡ Some None }
    ensures { IsFaultOf (fault_by_vocabulary None (members_view all.now.entries)) result }
{
    match check_members(alloc, all) {
        Ok(()) => unreachable!(),
        Err(fault) => fault,
    }
}

/// Puts a term behind the others.
fn push(terms: &mut Vec<Definition>, term: Definition) -> Result<(), AllocError>
    ensures { OnOk result (terms.new.items ≡ terms.old.items ++ term ∷ []) }
{
    terms.push(term)?;
    Ok(())
}

/// The terms that the members of a context define.
pub(crate) fn read_terms(
    alloc: Global,
    vocabulary: &str,
    all: &Members,
) -> Result<Vec<Definition>, JsonFault>
    ensures ok { IfOk result (λ terms. (fault_by_vocabulary (Some vocabulary.now) (members_view all.now.entries) ≡ None)
        × (terms.items ≡ definitions vocabulary.now (members_view all.now.entries) (members_view all.now.entries))) }
    ensures err { IfErr result (IsFaultOf (fault_by_vocabulary (Some vocabulary.now) (members_view all.now.entries))) }
    ensures names { IfOk result (λ terms. AllByRecursion (λ term. IsTrue (is_term_name term.name)) terms.items) }
    ensures delimited { IfOk result (λ terms. AllByRecursion IsDelimited terms.items) }
    ensures ascending { IfOk result
        (λ terms. IsStrictlySortedBy (slice_cmp nat_cmp) (map (λ term. term.name) terms.items)) }
{
    let mut terms = Vec::new(alloc);
    for (key, value) in all.iter() {
        if is_keyword(key.as_str()) {
            check_keyword(alloc, key.as_str(), value)?;
        } else {
            let term = read_term(alloc, vocabulary, all, key.as_str(), value)?;
            push(&mut terms, term)?;
        }
    }
    Ok(terms)
}
