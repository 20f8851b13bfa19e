//! The shortest forms of IRIs as keys and as ids (JSON-LD 1.1 API, section 6.2).
ghost use Rattle.std.specs.Prelude.{◌≡◌, ◌+◌, ◌<◌, ℕ, true, false, List, take, drop, length, nat_eq, IfOk, MatchOption};
ghost use Rattle.std.specs.BTreeMap.{get_by_text};
ghost use Rattle.std.specs.List.{starts_with};
ghost use Rattle.std.specs.Option.{option_copied, option_map, unwrap_or};
ghost use Rattle.std.specs.String.{string_bytes};
ghost use Rattle.text_rules.specs.Resolution.{folder_of};
ghost use Rattle.jsonld_context.specs.ShortForms.{plain_key, plain_id, rest_behind, lesser, least_with, key_form, id_form};
ghost use Rattle.jsonld_context.specs.FormsFound.{AreFormsOf, plain_behind, compact_behind, least_behind};
ghost use Rattle.jsonld_context.specs.Context.{AscendByName};
ghost use Rattle.text_rules.specs.TextForms.{ends_in_delimiter};
ghost use Rattle.jsonld_context.specs.declared.definitions.Definition.{Definition};

use crate::by_iri::{FormsByIri, TextsByIri};
use crate::definitions::Definition;
use crate::expanding::find_term;
use crate::prefixes::joined;
use std::alloc::{AllocError, Global};
use text_rules::{Text, begins_authority, is_delimiter, is_plain};

/// The plain text behind the vocabulary, which is no term.
fn plain_key<'a>(vocabulary: &str, terms: &[Definition], iri: &'a str) -> Option<&'a str>
    requires { AscendByName terms.now }
    ensures { option_copied result ≡ plain_key vocabulary.now terms.now iri.now }
{
    let Some(text) = rest_behind(vocabulary, iri) else {
        return None;
    };
    if is_plain(text) && find_term(terms, text).is_none() {
        Some(text)
    } else {
        None
    }
}

/// The plain text behind the folder of a base.
fn plain_behind<'a>(folder: &str, iri: &'a str) -> Option<&'a str>
    ensures { option_copied result ≡ plain_behind folder.now iri.now }
{
    let Some(text) = rest_behind(folder, iri) else {
        return None;
    };
    if is_plain(text) { Some(text) } else { None }
}

/// The plain text that the base of a folder resolves to the IRI.
pub(crate) fn plain_id<'a>(folder: &str, iri: &'a str) -> Option<&'a str>
    ensures { (base : List ℕ) → folder.now ≡ folder_of base → option_copied result ≡ plain_id base iri.now }
{
    plain_behind(folder, iri)
}

/// What stands in a text behind a front, where it begins so.
fn strip<'a>(front: &str, text: &'a str) -> Option<&'a str>
    ensures { MatchOption result (starts_with nat_eq text.now front.now ≡ false)
        (λ rest. (starts_with nat_eq text.now front.now ≡ true) × (rest.now ≡ drop (length front.now) text.now)) }
{
    text.strip_prefix(front)
}

/// The same, as it is defined.
fn rest_behind<'a>(front: &str, text: &'a str) -> Option<&'a str>
    ensures { option_copied result ≡ rest_behind front.now text.now }
{
    match strip(front, text) {
        Some(rest) => Some(rest),
        None => None,
    }
}

/// What stands before and behind a place of an IRI, where the front ends as the IRI of a prefix does.
fn cut_behind(iri: &str, place: usize) -> Option<(&str, &str)>
    requires { place < length iri.now }
    ensures { MatchOption result (ends_in_delimiter (take (place + 1) iri.now) ≡ false)
        (λ parts. (ends_in_delimiter (take (place + 1) iri.now) ≡ true) × (parts.0.now ≡ take (place + 1) iri.now)
        × (parts.1.now ≡ drop (place + 1) iri.now)) }
{
    if is_delimiter(iri.as_bytes()[place]) {
        Some((&iri[..place + 1], &iri[place + 1..]))
    } else {
        None
    }
}

/// The compact IRI with the prefix whose IRI ends at a place of an IRI, where there is one.
fn compact_behind(
    alloc: Global,
    prefixes: &TextsByIri,
    iri: &str,
    place: usize,
) -> Result<Option<String>, AllocError>
    requires { place < length iri.now }
    ensures { IfOk result
        (λ text. option_map string_bytes text ≡ compact_behind (get_by_text prefixes.now) iri.now (place + 1)) }
{
    let Some((front, rest)) = cut_behind(iri, place) else {
        return Ok(None);
    };
    if rest.is_empty() || begins_authority(rest) {
        return Ok(None);
    }
    match prefixes.get(front) {
        Some(label) => Ok(Some(joined(alloc, label.as_str(), rest)?)),
        None => Ok(None),
    }
}

/// The lesser of two texts.
fn lesser(text: String, other: String) -> String
    ensures { string_bytes result ≡ lesser (string_bytes text) (string_bytes other) }
{
    if other.as_str() < text.as_str() {
        other
    } else {
        text
    }
}

/// The least of some texts and of one more, each of which may be missing.
fn least_with(least: Option<String>, text: Option<String>) -> Option<String>
    ensures { option_map string_bytes result
        ≡ least_with (option_map string_bytes least) (option_map string_bytes text) }
{
    match (least, text) {
        (Some(least), Some(text)) => Some(lesser(least, text)),
        (Some(least), None) => Some(least),
        (None, text) => text,
    }
}

/// The least compact IRI: each place at which the IRI of a prefix may end is tried.
fn least_compact(
    alloc: Global,
    prefixes: &TextsByIri,
    iri: &str,
) -> Result<Option<String>, AllocError>
    ensures { IfOk result
        (λ text. option_map string_bytes text ≡ least_behind (get_by_text prefixes.now) iri.now (length iri.now)) }
{
    let mut least = None;
    for place in 0..iri.len() {
        let text = compact_behind(alloc, prefixes, iri, place)?;
        least = least_with(least, text);
    }
    Ok(least)
}

/// The least compact IRI, or else the IRI.
fn compact_or_whole(alloc: Global, prefixes: &TextsByIri, iri: &str) -> Result<Text, AllocError>
    ensures { IfOk result
        (λ text. text ≡ unwrap_or (least_behind (get_by_text prefixes.now) iri.now (length iri.now)) iri.now) }
{
    match least_compact(alloc, prefixes, iri)? {
        Some(text) => Text::from_string(text),
        None => Text::new(alloc, iri),
    }
}

/// The key of an IRI.
#[tactic(auto, unfolding(crate::specs::ShortForms::key_form))]
pub(crate) fn compact_key(
    alloc: Global,
    vocabulary: &str,
    terms: &[Definition],
    forms: &FormsByIri,
    iri: &str,
) -> Result<Text, AllocError>
    requires ascending { AscendByName terms.now }
    requires forms { AreFormsOf terms.now forms.now }
    ensures { IfOk result (λ text. text ≡ key_form vocabulary.now terms.now iri.now) }
{
    if let Some(name) = forms.terms.get(iri) {
        return name.share();
    }
    if let Some(text) = plain_key(vocabulary, terms, iri) {
        return Text::new(alloc, text);
    }
    compact_or_whole(alloc, &forms.prefixes, iri)
}

/// The id of an IRI, by the folder of the base.
#[tactic(auto, unfolding(crate::specs::ShortForms::id_form))]
pub(crate) fn compact_id(
    alloc: Global,
    folder: &str,
    forms: &FormsByIri,
    iri: &str,
) -> Result<Text, AllocError>
    ensures { (base : List ℕ) (terms : List Definition) → folder.now ≡ folder_of base → AreFormsOf terms forms.now
        → IfOk result (λ text. text ≡ id_form base terms iri.now) }
{
    match plain_id(folder, iri) {
        Some(text) => Text::new(alloc, text),
        None => compact_or_whole(alloc, &forms.prefixes, iri),
    }
}
