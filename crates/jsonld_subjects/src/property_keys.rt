//! The keys of properties, each made once.
ghost use Rattle.std.specs.Prelude.{◌≡◌, ℕ, List, IfOk};
ghost use Rattle.std.specs.BTreeMap.{get_by_text};
ghost use Rattle.jsonld_context.specs.Context.{ContextValue};
ghost use Rattle.jsonld_context.specs.ShortForms.{compact_key};
ghost use Rattle.jsonld_subjects.specs.KeysKept.{AreKeysUnder};

use jsonld_context::Context;
use rdf_terms::Iri;
use std::alloc::{AllocError, Global};
use std::collections::BTreeMap;
use std::marker::Model;
use text_rules::Text;

/// How many keys are kept, whatever properties there are.
const KEPT_KEYS: usize = 256;

/// Keeps the key of an IRI.
fn keep_key(
    alloc: Global,
    kept: &mut BTreeMap<String, Text>,
    iri: &str,
    key: Text,
) -> Result<(), AllocError>
    ensures { (context : ContextValue) → key ≡ compact_key context iri.now
        → AreKeysUnder context (get_by_text kept.old) → AreKeysUnder context (get_by_text kept.new) }
{
    let iri = String::from_str(alloc, iri)?;
    match kept.insert(iri, key) {
        Ok(_) => Ok(()),
        Err(_) => Err(AllocError),
    }
}

/// The keys of IRIs under a context. Those that were made first are kept, so that each of them is made once.
#[derive(Debug, Drop)]
pub struct PropertyKeys<'a> {
    context: &'a Context,
    kept: BTreeMap<String, Text>,
}

impl<'a> Model for PropertyKeys<'a> {
    ghost use Rattle.std.specs.BTreeMap.{get_by_text};
    ghost use Rattle.jsonld_context.specs.Context.{ContextValue};
    ghost use Rattle.jsonld_subjects.specs.KeysKept.{AreKeysUnder};

    ghost Value = { ContextValue };

    ghost view = { λ keys. keys.context.now };

    ghost invariant = { λ keys. AreKeysUnder keys.context.now (get_by_text keys.kept) };
}

impl<'a> PropertyKeys<'a> {
    /// The keys under a context, of which none was made.
    pub fn under(alloc: Global, context: &'a Context) -> PropertyKeys<'a>
        ensures { result ≡ context.now }
    {
        PropertyKeys {
            context,
            kept: BTreeMap::new(alloc),
        }
    }

    /// The context.
    pub(crate) fn context(&self) -> &'a Context
        ensures { result.now ≡ self.now }
    {
        self.context
    }

    /// The key of an IRI, or its form as a value of `@type`.
    pub(crate) fn key(&mut self, alloc: Global, iri: &Iri) -> Result<Text, AllocError>
        ensures key { IfOk result (λ key. key ≡ compact_key self.old iri.now) }
        ensures context { self.new ≡ self.old }
    {
        if let Some(key) = self.kept.get(iri.as_str()) {
            return key.share();
        }
        let key = self.context.compact_key(alloc, iri)?;
        if self.kept.len() < KEPT_KEYS {
            keep_key(alloc, &mut self.kept, iri.as_str(), key.share()?)?;
        }
        Ok(key)
    }
}
