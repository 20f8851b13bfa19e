//! Triples of the parts that were read, and IRIs alone.
ghost use Rattle.std.specs.Prelude.{◌≡◌, ℕ, List, IsTrue, IfOk, IfErr, MatchOption};
ghost use Rattle.rdf_terms.specs.declared.terms.Triple.{Triple};
ghost use Rattle.rdf_terms.specs.Building.{is_term_within, is_within, IsSoundTerm, IsSoundTriple, RefusesTriple};
ghost use Rattle.rdf_terms.specs.Grammar.{IsIriText, SpellsTriple, IsTripleWithin};
ghost use Rattle.rdf_terms.specs.Spelling.{triple_text};
ghost use Rattle.rdf_terms.specs.Parts.{object_value, triple_value};

use crate::faults::TripleFault;
use crate::limits::LEXICAL_LIMIT;
use crate::read::{self, ObjectParts, TripleParts, read_parts};
use crate::terms::{Iri, Literal, Term, Triple};
use std::alloc::{AllocError, Global};
use text_rules::IRI_LIMIT;

/// Whether no IRI of an object and no lexical form is too long.
fn is_object_within(object: &ObjectParts) -> bool
    ensures { result ≡ is_term_within (object_value object.now) }
{
    match object {
        ObjectParts::Iri(iri) => iri.len() <= IRI_LIMIT,
        ObjectParts::Plain(lexical) => lexical.len() <= LEXICAL_LIMIT,
        ObjectParts::Typed(lexical, datatype) => {
            lexical.len() <= LEXICAL_LIMIT && datatype.len() <= IRI_LIMIT
        }
        ObjectParts::Tagged(lexical, _) => lexical.len() <= LEXICAL_LIMIT,
    }
}

/// Whether no IRI of a triple and no lexical form is too long.
#[tactic(auto, unfolding(crate::specs::Building::is_within))]
fn is_within(parts: &TripleParts) -> bool
    ensures { result ≡ is_within (triple_value parts.now) }
{
    parts.s.len() <= IRI_LIMIT && parts.p.len() <= IRI_LIMIT && is_object_within(&parts.o)
}

/// The object of its parts.
fn build_object(object: ObjectParts) -> Term
    requires { IsSoundTerm (object_value object) }
    ensures { result ≡ object_value object }
{
    match object {
        ObjectParts::Iri(iri) => Term::Iri(Iri::from_absolute(iri)),
        ObjectParts::Plain(lexical) => Term::Literal(Literal::plain(lexical)),
        ObjectParts::Typed(lexical, datatype) => {
            Term::Literal(Literal::from_typed(lexical, Iri::from_absolute(datatype)))
        }
        ObjectParts::Tagged(lexical, tag) => Term::Literal(Literal::from_tagged(lexical, tag)),
    }
}

/// The triple of its parts.
fn build_triple(parts: TripleParts) -> Triple
    requires { IsSoundTriple (triple_value parts) }
    ensures { result ≡ triple_value parts }
{
    let TripleParts { s, p, o } = parts;
    Triple {
        s: Iri::from_absolute(s),
        p: Iri::from_absolute(p),
        o: build_object(o),
    }
}

/// Reads a triple's text, of the form `<http://d/a> <http://d/b> "c" .`, with blanks allowed before, between and after
/// the terms and the dot, to the end of the text (N-Triples 1.1, the rule `triple`, with no blank nodes). It is refused
/// with `NotTriple` where the text spells no triple, with the length of its longest front that begins one, and with
/// `TooLong` where it spells one with an IRI of more than 2,048 bytes or a lexical form of more than 1,048,576.
pub fn read_triple(alloc: Global, text: &str) -> Result<Triple, TripleFault>
    ensures spelled { IfOk result (SpellsTriple text.now) }
    ensures within { IfOk result IsTripleWithin }
    ensures refusals { IfErr result (RefusesTriple text.now) }
{
    let parts = read_parts(alloc, text)?;
    if !is_within(&parts) {
        return Err(TripleFault::TooLong);
    }
    Ok(build_triple(parts))
}

/// Reads the text of an IRI alone, of the form `<http://d/a>`, with escapes and with nothing around its angle brackets
/// (N-Triples 1.1, the rule `IRIREF`): `None` where the text spells no absolute IRI of at most 2,048 bytes.
pub fn read_iri(alloc: Global, text: &str) -> Result<Option<Iri>, AllocError>
    ensures { IfOk result
        (λ found. MatchOption found ((iri : List ℕ) → ¬ IsIriText text.now iri) (IsIriText text.now)) }
{
    match read::read_iri(alloc, text, 0) {
        Ok((iri, next)) if next == text.len() && iri.len() <= IRI_LIMIT => {
            Ok(Some(Iri::from_absolute(iri)))
        }
        Ok(_) => Ok(None),
        Err(TripleFault::NotTriple { .. }) => Ok(None),
        Err(TripleFault::TooLong) => unreachable!(),
        Err(TripleFault::NoMemory) => Err(AllocError),
    }
}
