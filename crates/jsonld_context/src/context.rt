//! Contexts.
ghost use Rattle.std.specs.Prelude.{◌≡◌, Ok, Some, false, codes, IsTrue, IfOk, IfErr, IfSome};
ghost use Rattle.std.specs.Option.{option_copied, is_some};
ghost use Rattle.text_rules.specs.Domain.{is_domain};
ghost use Rattle.serde_json.specs.Data.{object};
ghost use Rattle.serde_json.specs.Find.{get_member};
ghost use Rattle.serde_json.specs.View.{view, members_view};
ghost use Rattle.jsonld_context.specs.ShortForms.{compact_key, compact_id};
ghost use Rattle.jsonld_context.specs.Context.{IsContext, type_of};
ghost use Rattle.jsonld_context.specs.Expanding.{expand_key, expand_id};
ghost use Rattle.jsonld_context.specs.ContextReading.{domain_context, known_vocabulary, read_context};
ghost use Rattle.jsonld_context.specs.Telling.{IsToldBy};
ghost use Rattle.jsonld_context.specs.declared.faults.JsonFault.TheVariants as faults;

use crate::by_iri::{FormsByIri, forms_of};
use crate::definitions::{Definition, TermType, share_all};
use crate::faults::JsonFault;
use crate::{compacting, expanding, reading};
use rdf_terms::Iri;
use serde_json::{Map, Value};
use std::alloc::{AllocError, Global};
use std::marker::Model;
use text_rules::{Text, folder_of};

/// How keys and ids are read: a base, a vocabulary and terms (JSON-LD 1.1, section 3.1).
#[derive(Debug, Drop)]
pub struct Context {
    base: Text,
    folder: Text,
    vocabulary: Text,
    terms: Vec<Definition>,
    forms: FormsByIri,
}

impl Model for Context {
    ghost use Rattle.jsonld_context.specs.Context.{ContextValue};
    ghost use Rattle.jsonld_context.specs.FormsFound.{IsContextWith};

    ghost Value = { ContextValue };

    ghost view = { λ c. record { base = c.base; vocabulary = c.vocabulary; terms = c.terms.items } };

    ghost invariant = { λ c. IsContextWith (record { base = c.base; vocabulary = c.vocabulary; terms = c.terms.items }) c.folder c.forms };
}

impl PartialEq for Context {
    ghost use Rattle.std.specs.Cmp.{partial_equiv_from_equiv};
    ghost use Rattle.jsonld_context.specs.ContextEquality.{same_context, same_context_equiv};

    ghost eq = { same_context };

    ghost laws = { partial_equiv_from_equiv same_context_equiv };

    fn eq(&self, other: &Context) -> bool {
        self.base == other.base && self.vocabulary == other.vocabulary && self.terms == other.terms
    }
}

impl Eq for Context {
    ghost use Rattle.jsonld_context.specs.ContextEquality.{same_context_equiv};

    ghost laws = { same_context_equiv };
}

impl Context {
    /// The context of a domain alone: its root is the base, and the root with an empty fragment the vocabulary.
    pub fn of_domain(alloc: Global, domain: &str) -> Result<Context, JsonFault>
        requires { IsTrue (is_domain domain.now) }
        ensures ok { IfOk result (λ context. context ≡ domain_context domain.now) }
        ensures err { IfErr result (λ fault. fault ≡ faults.NoMemory) }
    {
        let base = reading::domain_base(alloc, domain)?;
        let folder = folder_of(alloc, base.as_str())?;
        let vocabulary = reading::domain_vocabulary(alloc, domain)?;
        let terms = Vec::new(alloc);
        let forms = forms_of(alloc, &terms)?;
        Ok(Context {
            base,
            folder,
            vocabulary,
            terms,
            forms,
        })
    }

    /// The context that a JSON value says, over the defaults of a domain; else the first fault of it.
    ///
    /// `Remote` says that it is a string, `BadContext` that it breaks a rule, with the key at which it does, and `BadIri` that an IRI
    /// isn't absolute, with what was written for it.
    #[tactic(auto, unfolding(crate::specs::ContextReading::read_context))]
    pub fn read(alloc: Global, value: &Value, domain: &str) -> Result<Context, JsonFault>
        requires { IsTrue (is_domain domain.now) }
        ensures ok { IfOk result (λ context. read_context domain.now (view value.now) ≡ Ok context) }
        ensures err { IfErr result (IsToldBy (read_context domain.now (view value.now))) }
    {
        match value {
            Value::Object(members) => Context::of_members(alloc, members, domain),
            Value::String(_) => Err(JsonFault::Remote),
            Value::Null => Err(reading::bad_context(alloc, "")),
            Value::Bool(_) => Err(reading::bad_context(alloc, "")),
            Value::Number(_) => Err(reading::bad_context(alloc, "")),
            Value::Array(_) => Err(reading::bad_context(alloc, "")),
        }
    }

    /// The context that the members of an object say.
    fn of_members(
        alloc: Global,
        all: &Map<String, Value>,
        domain: &str,
    ) -> Result<Context, JsonFault>
        requires { IsTrue (is_domain domain.now) }
        ensures ok { IfOk result
            (λ context. read_context domain.now (object (members_view all.now.entries)) ≡ Ok context) }
        ensures err { IfErr result (IsToldBy (read_context domain.now (object (members_view all.now.entries)))) }
    {
        if reading::has_context(all) {
            return Err(reading::bad_context(alloc, "@context"));
        }
        match reading::vocabulary_of(alloc, all, domain)? {
            Some(vocabulary) => Context::over_vocabulary(alloc, all, domain, vocabulary),
            None => Err(reading::fault_without_vocabulary(alloc, all)),
        }
    }

    /// The same, where the vocabulary is known and there is no `@context`.
    fn over_vocabulary(
        alloc: Global,
        all: &Map<String, Value>,
        domain: &str,
        vocabulary: Text,
    ) -> Result<Context, JsonFault>
        requires domain { IsTrue (is_domain domain.now) }
        requires context { is_some (get_member (codes "@context") (members_view all.now.entries)) ≡ false }
        requires vocabulary { known_vocabulary domain.now (members_view all.now.entries) ≡ Some vocabulary }
        ensures ok { IfOk result
            (λ context. read_context domain.now (object (members_view all.now.entries)) ≡ Ok context) }
        ensures err { IfErr result (IsToldBy (read_context domain.now (object (members_view all.now.entries)))) }
    {
        let base = reading::base_of(alloc, all, domain)?;
        let folder = folder_of(alloc, base.as_str())?;
        let terms = reading::read_terms(alloc, vocabulary.as_str(), all)?;
        let forms = forms_of(alloc, &terms)?;
        Ok(Context {
            base,
            folder,
            vocabulary,
            terms,
            forms,
        })
    }

    /// A copy of the context, which shares its texts.
    pub fn share(&self, alloc: Global) -> Result<Context, AllocError>
        ensures { IfOk result (λ copy. copy ≡ self.now) }
    {
        let base = self.base.share()?;
        let folder = self.folder.share()?;
        let vocabulary = self.vocabulary.share()?;
        let terms = share_all(alloc, &self.terms)?;
        let forms = forms_of(alloc, &terms)?;
        Ok(Context {
            base,
            folder,
            vocabulary,
            terms,
            forms,
        })
    }

    /// What the context keeps. It takes no memory and does nothing.
    pub fn kept(&self)
        ensures { IsContext self.now }
    {
        let _base = self.base.len();
    }

    /// The IRI of a key, or of a value of `@type`. `BadIri` says that it stands for no absolute IRI, and carries the text.
    pub fn expand_key(&self, alloc: Global, text: &str) -> Result<Iri, JsonFault>
        ensures ok { IfOk result (λ iri. expand_key self.now text.now ≡ Ok iri) }
        ensures err { IfErr result (IsToldBy (expand_key self.now text.now)) }
    {
        expanding::expand_key(alloc, self.vocabulary.as_str(), &self.terms, text)
    }

    /// The IRI of an id. `BadIri` says that it stands for no absolute IRI, and carries the text.
    pub fn expand_id(&self, alloc: Global, text: &str) -> Result<Iri, JsonFault>
        ensures ok { IfOk result (λ iri. expand_id self.now text.now ≡ Ok iri) }
        ensures err { IfErr result (IsToldBy (expand_id self.now text.now)) }
    {
        expanding::expand_id(alloc, self.base.as_str(), &self.terms, text)
    }

    /// The type of the values of a key, where it is a term that has one. It takes no memory.
    pub fn type_of(&self, key: &str) -> Option<&TermType>
        ensures { option_copied result ≡ type_of self.now.terms key.now }
    {
        expanding::type_of(&self.terms, key)
    }

    /// The key of an IRI, or its form as a value of `@type`.
    pub fn compact_key(&self, alloc: Global, iri: &Iri) -> Result<Text, AllocError>
        ensures { IfOk result (λ text. text ≡ compact_key self.now iri.now) }
    {
        self.compact_key_text(alloc, iri.as_str())
    }

    /// The same, of the text of an IRI.
    pub fn compact_key_text(&self, alloc: Global, iri: &str) -> Result<Text, AllocError>
        ensures { IfOk result (λ text. text ≡ compact_key self.now iri.now) }
    {
        compacting::compact_key(
            alloc,
            self.vocabulary.as_str(),
            &self.terms,
            &self.forms,
            iri,
        )
    }

    /// The id of an IRI.
    pub fn compact_id(&self, alloc: Global, iri: &Iri) -> Result<Text, AllocError>
        ensures { IfOk result (λ text. text ≡ compact_id self.now iri.now) }
    {
        compacting::compact_id(alloc, self.folder.as_str(), &self.forms, iri.as_str())
    }

    /// The id of an IRI where it is a plain text, which stands at the IRI's end. It takes no memory.
    pub fn plain_id<'a>(&self, iri: &'a Iri) -> Option<&'a str>
        ensures { IfSome result (λ text. text.now ≡ compact_id self.now iri.now) }
    {
        compacting::plain_id(self.folder.as_str(), iri.as_str())
    }
}
