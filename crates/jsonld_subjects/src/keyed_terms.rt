//! Terms under the keys of a subject.
ghost use Rattle.std.specs.Prelude.{◌≡◌, IfOk, OnOk, codes, if◌then◌else◌};
ghost use Rattle.rdf_terms.specs.Literal.{is_same};
ghost use Rattle.serde_json.specs.Data.{string};
ghost use Rattle.jsonld_context.specs.ShortForms.{compact_key};
ghost use Rattle.jsonld_values.specs.WrittenTokens.{WritesData};
ghost use Rattle.jsonld_subjects.specs.SubjectReading.{rdf_type};
ghost use Rattle.jsonld_subjects.specs.SubjectWriting.{key_of, keyed_of, keyed_cmp, data_under};

use crate::ids::RDF_TYPE;
use crate::property_keys::PropertyKeys;
use json::Writer;
use jsonld_values::write_term;
use rdf_terms::{Iri, Term, Triple, cmp_reply};
use std::alloc::{AllocError, Global};
use std::cmp::Ordering;
use std::marker::Model;
use text_rules::Text;

/// The key of types.
const TYPE_KEY: &str = "@type";

/// A value of a subject: the key under which it stands, and the term that it is.
#[derive(Debug, Drop)]
pub(crate) struct KeyedTerm {
    key: Text,
    term: Term,
}

impl Model for KeyedTerm {
    ghost use Rattle.jsonld_subjects.specs.SubjectWriting.{KeyedTerm as KeyedValue};

    ghost Value = { KeyedValue };

    ghost view = { λ keyed. record { key = keyed.key; term = keyed.term } };
}

impl KeyedTerm {
    /// The object of a triple under its key.
    pub(crate) fn of_triple(
        alloc: Global,
        triple: &Triple,
        keys: &mut PropertyKeys<'_>,
    ) -> Result<KeyedTerm, AllocError>
        ensures keyed { IfOk result (λ keyed. keyed ≡ keyed_of keys.old triple.now) }
        ensures context { keys.new ≡ keys.old }
    {
        let key = key_of(alloc, &triple.p, &triple.o, keys)?;
        let term = triple.o.share()?;
        Ok(KeyedTerm { key, term })
    }

    /// The key.
    pub(crate) fn key(&self) -> &str
        ensures { result.now ≡ self.now.key }
    {
        self.key.as_str()
    }

    /// Writes the JSON value of the term under the key.
    pub(crate) fn write(
        &self,
        alloc: Global,
        out: &mut Writer,
        keys: &mut PropertyKeys<'_>,
    ) -> Result<(), AllocError>
        ensures ok { OnOk result (WritesData out.old out.new (data_under keys.old self.now.key self.now.term)) }
        ensures before { out.new.before ≡ out.old.before }
        ensures context { keys.new ≡ keys.old }
    {
        write_under(alloc, out, self.key.as_str(), &self.term, keys)
    }

    /// Compares by keys, and under one key in the order of replies.
    pub(crate) fn compare(&self, other: &KeyedTerm) -> Ordering
        ensures { result ≡ keyed_cmp self.now other.now }
    {
        self.key
            .as_str()
            .cmp(&other.key.as_str())
            .then_with(|| cmp_reply(&self.term, &other.term))
    }
}

/// Whether a property is rdf:type.
#[tactic(auto, unfolding(crate::specs::SubjectReading::rdf_type))]
fn is_type(property: &Iri) -> bool
    ensures { result ≡ is_same property.now rdf_type }
{
    property.as_str() == RDF_TYPE
}

/// The key of an object of a property.
fn key_of(
    alloc: Global,
    property: &Iri,
    term: &Term,
    keys: &mut PropertyKeys<'_>,
) -> Result<Text, AllocError>
    ensures key { IfOk result (λ key. key ≡ key_of keys.old property.now term.now) }
    ensures context { keys.new ≡ keys.old }
{
    match term {
        Term::Iri(_) => key_of_iri(alloc, property, keys),
        Term::Literal(_) => keys.key(alloc, property),
    }
}

/// The key of an IRI that is the object of a property.
fn key_of_iri(
    alloc: Global,
    property: &Iri,
    keys: &mut PropertyKeys<'_>,
) -> Result<Text, AllocError>
    ensures key { IfOk result
        (λ key. key ≡ (if is_same property.now rdf_type then codes "@type" else compact_key keys.old property.now)) }
    ensures context { keys.new ≡ keys.old }
{
    if is_type(property) {
        return Text::new(alloc, TYPE_KEY);
    }
    keys.key(alloc, property)
}

/// Writes the JSON value of a term under a key.
fn write_under(
    alloc: Global,
    out: &mut Writer,
    key: &str,
    term: &Term,
    keys: &mut PropertyKeys<'_>,
) -> Result<(), AllocError>
    ensures ok { OnOk result (WritesData out.old out.new (data_under keys.old key.now term.now)) }
    ensures before { out.new.before ≡ out.old.before }
    ensures context { keys.new ≡ keys.old }
{
    match term {
        Term::Iri(iri) => {
            if key == TYPE_KEY {
                return write_type(alloc, out, iri, keys);
            }
            write_term(alloc, out, term, keys.context())
        }
        Term::Literal(_) => write_term(alloc, out, term, keys.context()),
    }
}

/// Writes an IRI as a value of `@type`.
fn write_type(
    alloc: Global,
    out: &mut Writer,
    iri: &Iri,
    keys: &mut PropertyKeys<'_>,
) -> Result<(), AllocError>
    ensures ok { OnOk result (WritesData out.old out.new (string (compact_key keys.old iri.now))) }
    ensures before { out.new.before ≡ out.old.before }
    ensures context { keys.new ≡ keys.old }
{
    let key = keys.key(alloc, iri)?;
    out.string(key.as_str())
}
