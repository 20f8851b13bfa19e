//! Laws of contexts. They hold for all contexts and IRIs.
ghost use Rattle.std.specs.Prelude.{◌≡◌, ◌↔◌, ℕ, List, None, Some, Ok, true, IsTrue};
ghost use Rattle.text_rules.specs.Iri.{is_absolute};
ghost use Rattle.text_rules.specs.Resolution.{resolved};
ghost use Rattle.jsonld_context.specs.ShortForms.{compact_key, compact_id, plain_id};
ghost use Rattle.jsonld_context.specs.Context.{ContextValue, IsContext, prefix_of};
ghost use Rattle.jsonld_context.specs.ContextEquality.{same_context};
ghost use Rattle.jsonld_context.specs.Expanding.{expand_key, expand_id};
ghost use Rattle.text_rules.specs.TextForms.{before_colon, is_plain, plain_end};

/// Expanding gives an IRI back that was compacted, as a key and as an id, wherever its scheme is no prefix of the context.
pub fn expanding_gives_back()
    ensures keys { (context : ContextValue) (iri : List ℕ) → IsContext context → IsTrue (is_absolute iri)
        → prefix_of context.terms (before_colon iri) ≡ None → expand_key context (compact_key context iri) ≡ Ok iri }
    ensures ids { (context : ContextValue) (iri : List ℕ) → IsContext context → IsTrue (is_absolute iri)
        → prefix_of context.terms (before_colon iri) ≡ None → expand_id context (compact_id context iri) ≡ Ok iri }
{}

/// A plain text is the plain end of what any base resolves it to, so the id of that IRI is found: no other plain text stands for it.
pub fn plain_id_is_the_end()
    ensures end { (base : List ℕ) (text : List ℕ) → IsTrue (is_plain text) → plain_end (resolved base text) ≡ text }
    ensures found { (base : List ℕ) (text : List ℕ) → IsTrue (is_plain text)
        → plain_id base (resolved base text) ≡ Some text }
{}

/// The test of contexts, `==`, tells whether they are the same.
pub fn equal_contexts_are_the_same()
    ensures { (context : ContextValue) (other : ContextValue) → (same_context context other ≡ true)
        ↔ (context ≡ other) }
{}
