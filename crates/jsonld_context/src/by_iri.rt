//! Short forms found by the IRI.
ghost use Rattle.std.specs.Prelude.{◌≡◌, ℕ, List, Some, IsTrue, IfOk, OnOk, if◌then◌else◌};
ghost use Rattle.std.specs.BTreeMap.{get_by_text};
ghost use Rattle.std.specs.List.{AllByRecursion};
ghost use Rattle.std.specs.Option.{option_or};
ghost use Rattle.rdf_terms.specs.Literal.{is_same};
ghost use Rattle.jsonld_context.specs.FormsFound.{AreFormsOf, IsDelimited, is_lesser, name_for, label_for};
ghost use Rattle.jsonld_context.specs.ShortForms.{least_with};
ghost use Rattle.text_rules.specs.TextForms.{is_term_name};

use crate::definitions::Definition;
use crate::prefixes::joined;
use std::alloc::{AllocError, Global};
use std::collections::BTreeMap;
use text_rules::Text;

/// Texts by an IRI.
pub(crate) type TextsByIri = BTreeMap<String, Text>;

/// What a context keeps beside its terms, so that a short form is found by the IRI.
#[derive(Debug, Drop)]
pub(crate) struct FormsByIri {
    /// The least term without a type of each IRI that has one.
    pub terms: TextsByIri,
    /// The least prefix of each IRI that has one, with its colon.
    pub prefixes: TextsByIri,
}

/// Sets the text of an IRI.
fn set_text(alloc: Global, texts: &mut TextsByIri, iri: &str, text: Text) -> Result<(), AllocError>
    ensures { OnOk result ((other : List ℕ) → get_by_text texts.new other
        ≡ (if is_same iri.now other then Some text else get_by_text texts.old other)) }
{
    let key = String::from_str(alloc, iri)?;
    match texts.insert(key, text) {
        Ok(_) => Ok(()),
        Err(_) => Err(AllocError),
    }
}

/// Whether a text is less than that of an IRI, or there is none.
fn is_lesser(texts: &TextsByIri, iri: &str, text: &str) -> bool
    ensures { result ≡ is_lesser (get_by_text texts.now iri.now) text.now }
{
    match texts.get(iri) {
        Some(other) => text < other.as_str(),
        None => true,
    }
}

/// Notes a term, unless one of its IRI is noted.
fn note_term(alloc: Global, texts: &mut TextsByIri, term: &Definition) -> Result<(), AllocError>
    ensures { OnOk result
        ((iri : List ℕ) → get_by_text texts.new iri ≡ option_or (get_by_text texts.old iri) (name_for iri term.now)) }
{
    let iri = term.iri.as_str();
    if term.coercion.is_some() || texts.get(iri).is_some() {
        return Ok(());
    }
    set_text(alloc, texts, iri, term.name.share()?)
}

/// Notes a prefix with its colon, unless a lesser one of its IRI is noted.
fn note_prefix(alloc: Global, texts: &mut TextsByIri, term: &Definition) -> Result<(), AllocError>
    ensures { OnOk result ((front : List ℕ) → get_by_text texts.new front
        ≡ least_with (get_by_text texts.old front) (label_for front term.now)) }
{
    if !term.is_prefix {
        return Ok(());
    }
    let text = Text::from_string(joined(alloc, term.name.as_str(), ":")?)?;
    if !is_lesser(texts, term.iri.as_str(), text.as_str()) {
        return Ok(());
    }
    set_text(alloc, texts, term.iri.as_str(), text)
}

/// The short forms of terms.
pub(crate) fn forms_of(alloc: Global, terms: &[Definition]) -> Result<FormsByIri, AllocError>
    requires delimited { AllByRecursion IsDelimited terms.now }
    requires names { AllByRecursion (λ term. IsTrue (is_term_name term.name)) terms.now }
    ensures { IfOk result (AreFormsOf terms.now) }
{
    let mut names = BTreeMap::new(alloc);
    let mut prefixes = BTreeMap::new(alloc);
    for term in terms {
        note_term(alloc, &mut names, term)?;
        note_prefix(alloc, &mut prefixes, term)?;
    }
    Ok(FormsByIri {
        terms: names,
        prefixes,
    })
}
