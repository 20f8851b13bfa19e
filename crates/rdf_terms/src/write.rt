//! Triples as they are written (N-Triples 1.1, canonical form).
#![tactic(auto, using(std::proofs::lemmas::Grind::common_steps, text_rules::proofs::Appending::keeps_same, text_rules::proofs::Appending::keeps_more, text_rules::proofs::Appending::keeps_further, crate::proofs::Comparing::literal_parts))]

ghost use Rattle.std.specs.Prelude.{◌≡◌, [], ◌∷◌, ◌++◌, OnOk, OnErr};
ghost use Rattle.rdf_terms.specs.Spelling.{suffix_text, iri_text, datatype_text, literal_text, term_text, triple_text};
ghost use Rattle.rdf_terms.specs.Kept.{KeepsStart};
ghost use Rattle.text_rules.specs.Marks.{space};

use crate::terms::{Iri, Kind, Literal, Term, Triple, is_string_type};
use std::alloc::AllocError;
use text_rules::append_escaped;

/// Appends an IRI in its angle brackets.
fn append_iri(out: &mut Vec<u8>, iri: &Iri) -> Result<(), AllocError>
    ensures ok { OnOk result (out.new.items ≡ out.old.items ++ iri_text iri.now) }
    ensures err { OnErr result (KeepsStart out.old.items out.new.items) }
{
    out.push(b'<')?;
    out.extend_from_slice(iri.as_str().as_bytes())?;
    Ok(out.push(b'>')?)
}

/// Appends an IRI and a space.
fn append_spaced_iri(out: &mut Vec<u8>, iri: &Iri) -> Result<(), AllocError>
    ensures ok { OnOk result (out.new.items ≡ out.old.items ++ (iri_text iri.now ++ space ∷ [])) }
    ensures err { OnErr result (KeepsStart out.old.items out.new.items) }
{
    append_iri(out, iri)?;
    Ok(out.push(b' ')?)
}

/// Appends what is written for a datatype: nothing for xsd:string.
fn append_datatype(out: &mut Vec<u8>, datatype: &Iri) -> Result<(), AllocError>
    ensures ok { OnOk result (out.new.items ≡ out.old.items ++ datatype_text datatype.now) }
    ensures err { OnErr result (KeepsStart out.old.items out.new.items) }
{
    if is_string_type(datatype) {
        return Ok(());
    }
    out.extend_from_slice(b"^^")?;
    append_iri(out, datatype)
}

/// Appends what is written behind the quotes of a literal.
fn append_suffix(out: &mut Vec<u8>, kind: &Kind) -> Result<(), AllocError>
    ensures ok { OnOk result (out.new.items ≡ out.old.items ++ suffix_text kind.now) }
    ensures err { OnErr result (KeepsStart out.old.items out.new.items) }
{
    match kind {
        Kind::Plain => Ok(()),
        Kind::Datatype(datatype) => append_datatype(out, datatype),
        Kind::Language(tag) => {
            out.push(b'@')?;
            out.extend_from_slice(tag.as_str().as_bytes())
        }
    }
}

/// Appends a literal.
fn append_literal(out: &mut Vec<u8>, literal: &Literal) -> Result<(), AllocError>
    ensures ok { OnOk result (out.new.items ≡ out.old.items ++ literal_text literal.now) }
    ensures err { OnErr result (KeepsStart out.old.items out.new.items) }
{
    out.push(b'"')?;
    append_escaped(out, literal.lexical.as_str().as_bytes())?;
    out.push(b'"')?;
    append_suffix(out, &literal.kind)
}

/// Appends a term.
#[tactic(auto, unfolding(crate::specs::Spelling::term_text))]
fn append_term(out: &mut Vec<u8>, term: &Term) -> Result<(), AllocError>
    ensures ok { OnOk result (out.new.items ≡ out.old.items ++ term_text term.now) }
    ensures err { OnErr result (KeepsStart out.old.items out.new.items) }
{
    match term {
        Term::Iri(iri) => append_iri(out, iri),
        Term::Literal(literal) => append_literal(out, literal),
    }
}

/// Appends a triple.
#[tactic(auto, unfolding(crate::specs::Spelling::triple_text))]
fn append_triple(out: &mut Vec<u8>, triple: &Triple) -> Result<(), AllocError>
    ensures ok { OnOk result (out.new.items ≡ out.old.items ++ triple_text triple.now) }
    ensures err { OnErr result (KeepsStart out.old.items out.new.items) }
{
    append_spaced_iri(out, &triple.s)?;
    append_spaced_iri(out, &triple.p)?;
    append_term(out, &triple.o)?;
    out.push(b' ')?;
    Ok(out.push(b'.')?)
}

/// Appends a triple as it is written in canonical form: one space between its terms and before the dot, and no end of
/// line. Where memory runs out the buffer is as before. Room is made once, unless the object is long.
pub fn write_triple(out: &mut Vec<u8>, triple: &Triple) -> Result<(), AllocError>
    ensures ok { OnOk result (out.new.items ≡ out.old.items ++ triple_text triple.now) }
    ensures err { OnErr result (out.new.items ≡ out.old.items) }
{
    // Room for all of it, where the object has less than some 50 bytes.
    let (s, p) = (triple.s.as_str().len(), triple.p.as_str().len());
    out.reserve(s.saturating_add(p).saturating_add(64))?;
    let start = out.len();
    let written = append_triple(out, triple);
    if written.is_err() {
        out.truncate(start);
    }
    written
}
