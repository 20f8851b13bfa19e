//! The reader of a triple's text (N-Triples 1.1, the rule `triple`).
ghost use Rattle.std.specs.Prelude.{◌≡◌, ◌≤◌, ℕ, List, [], MatchResult, length, false, true, ◌||◌, ◌&&◌};
ghost use Rattle.std.specs.Str.{IsCharBoundary};
ghost use Rattle.text_rules.specs.Iri.{is_letter, is_digit};
ghost use Rattle.text_rules.specs.declared.spots.Spot.TheVariants.{Lexical};
ghost use Rattle.rdf_terms.specs.Grammar.{is_blank};
ghost use Rattle.rdf_terms.specs.Parts.{object_value, triple_value};
ghost use Rattle.rdf_terms.specs.TripleReading.{Slot, Subject, Object, LexicalForm, Within, Between, Before, Quoted, Hat, Tag, Closed, Spelled, run, StopsAt};
ghost use Rattle.text_rules.specs.BytePlaces.{HasByte};
ghost use Rattle.rdf_terms.specs.TripleReads.{PassesBlanks, PassesMark, MissesMark, TakesIri, NeedsIri, IsIri, IsTagEnd, EndsTag, IsObject, StopsObject, ReadsEnd};
ghost use Rattle.rdf_terms.specs.declared.terms.Term.{Term};

use crate::bodies::read_body;
use crate::faults::TripleFault;
use crate::terms::is_lang_string;
use std::alloc::Global;
use text_rules::characters::{is_digit, is_letter};
use text_rules::{Spot, Text, has_byte, lower_tag};

/// An object that was read, of any lengths: an IRI, a lexical form that names no datatype, one with its datatype, or one
/// with its tag in lower case.
#[derive(Debug, Drop)]
pub enum ObjectParts {
    /// An IRI.
    Iri(Text),
    /// A lexical form alone, whose datatype is xsd:string.
    Plain(Text),
    /// A lexical form and a datatype.
    Typed(Text, Text),
    /// A lexical form and a language tag.
    Tagged(Text, Text),
}

/// A triple that was read, of any lengths.
#[derive(Debug, Drop)]
pub struct TripleParts {
    /// The subject.
    pub s: Text,
    /// The predicate.
    pub p: Text,
    /// The object.
    pub o: ObjectParts,
}

/// The place behind the blanks at a place.
fn skip_blanks(text: &str, at: usize) -> usize
    requires { at ≤ length text.now }
    ensures { PassesBlanks text.now at result }
{
    let bytes = text.as_bytes();
    for i in at..bytes.len() {
        if !is_blank(bytes[i]) {
            return i;
        }
    }
    bytes.len()
}

/// Whether a byte is a space or a tab.
fn is_blank(byte: u8) -> bool
    ensures { result ≡ is_blank byte }
{
    byte == b' ' || byte == b'\t'
}

/// The place behind a mark that has to stand at a place.
fn pass_mark(text: &str, at: usize, mark: u8) -> Result<usize, TripleFault>
    ensures { MatchResult result (PassesMark text.now at mark) (MissesMark text.now at mark) }
{
    if has_byte(text, at, mark) {
        Ok(at + 1)
    } else {
        Err(TripleFault::NotTriple { place: at })
    }
}

/// Reads an IRI in its angle brackets.
pub fn read_iri(alloc: Global, text: &str, at: usize) -> Result<(Text, usize), TripleFault>
    requires { at ≤ length text.now }
    ensures { MatchResult result
        (λ read. IsIri text.now at read.0 read.1)
        (λ fault. (slot : Slot) → TakesIri slot → NeedsIri slot text.now at → StopsAt text.now at (Before slot) fault) }
{
    let begun = pass_mark(text, at, b'<')?;
    read_body(alloc, text, begun, Spot::SchemeStart)
}

/// The place behind the language tag at a place.
fn pass_tag(text: &str, at: usize) -> Result<usize, TripleFault>
    requires { at ≤ length text.now }
    ensures { MatchResult result (IsTagEnd text.now at) (EndsTag text.now at) }
{
    let bytes = text.as_bytes();
    let mut dashed = false;
    let mut full = false;
    for i in at..bytes.len() {
        let byte = bytes[i];
        if byte == b'-' {
            if !full {
                return Err(TripleFault::NotTriple { place: i });
            }
            dashed = true;
            full = false;
        } else if is_tag_character(byte, dashed) {
            full = true;
        } else {
            return end_of_tag(full, i);
        }
    }
    end_of_tag(full, bytes.len())
}

/// Whether a byte is a letter, or a digit behind a `-`.
fn is_tag_character(byte: u8, dashed: bool) -> bool
    ensures { result ≡ (is_letter byte || (dashed && is_digit byte)) }
{
    is_letter(char::from(byte)) || (dashed && is_digit(char::from(byte)))
}

/// The end of a language tag, where a letter or a digit stands before it.
fn end_of_tag(full: bool, place: usize) -> Result<usize, TripleFault>
    ensures { MatchResult result (λ end. (full ≡ true) × (end ≡ place))
        (λ fault. (full ≡ false) × (fault ≡ TripleFault.NotTriple place)) }
{
    if full {
        Ok(place)
    } else {
        Err(TripleFault::NotTriple { place })
    }
}

/// Reads a language tag, with no `@`.
fn read_tag(
    alloc: Global,
    text: &str,
    at: usize,
    lexical: Text,
) -> Result<(ObjectParts, usize), TripleFault>
    requires begin { at ≤ length text.now }
    requires boundary { IsCharBoundary text.now at }
    ensures { MatchResult result
        (λ read. IsObject text.now at (λ s p. Tag s p lexical false false []) (object_value read.0) read.1)
        (StopsObject text.now at (λ s p. Tag s p lexical false false [])) }
{
    let next = pass_tag(text, at)?;
    let tag = lower_tag(alloc, &text[at..next])?;
    Ok((ObjectParts::Tagged(lexical, tag), next))
}

/// Reads a datatype behind the first `^`.
fn read_datatype(
    alloc: Global,
    text: &str,
    at: usize,
    lexical: Text,
) -> Result<(ObjectParts, usize), TripleFault>
    requires { at ≤ length text.now }
    ensures { MatchResult result
        (λ read. IsObject text.now at (λ s p. Hat s p lexical) (object_value read.0) read.1)
        (StopsObject text.now at (λ s p. Hat s p lexical)) }
{
    let begun = pass_mark(text, at, b'^')?;
    let (datatype, next) = read_iri(alloc, text, begun)?;
    if is_lang_string(datatype.as_str()) {
        return Err(TripleFault::NotTriple { place: next - 1 });
    }
    Ok((ObjectParts::Typed(lexical, datatype), next))
}

/// Reads what is behind the quotes of a literal: a tag, a datatype, or nothing, which is xsd:string.
fn read_suffix(
    alloc: Global,
    text: &str,
    at: usize,
    lexical: Text,
) -> Result<(ObjectParts, usize), TripleFault>
    requires { at ≤ length text.now }
    ensures { MatchResult result
        (λ read. IsObject text.now at (λ s p. Quoted s p lexical) (object_value read.0) read.1)
        (StopsObject text.now at (λ s p. Quoted s p lexical)) }
{
    if has_byte(text, at, b'@') {
        return read_tag(alloc, text, at + 1, lexical);
    }
    if has_byte(text, at, b'^') {
        return read_datatype(alloc, text, at + 1, lexical);
    }
    Ok((ObjectParts::Plain(lexical), at))
}

/// Reads a literal behind its first quote.
fn read_literal(alloc: Global, text: &str, at: usize) -> Result<(ObjectParts, usize), TripleFault>
    requires begin { at ≤ length text.now }
    requires boundary { IsCharBoundary text.now at }
    ensures { MatchResult result
        (λ read. IsObject text.now at (λ s p. Within (LexicalForm s p) Lexical Between []) (object_value read.0) read.1)
        (StopsObject text.now at (λ s p. Within (LexicalForm s p) Lexical Between [])) }
{
    let (lexical, next) = read_body(alloc, text, at, Spot::Lexical)?;
    read_suffix(alloc, text, next, lexical)
}

/// Reads an object, where no blank stands before it.
fn read_object(alloc: Global, text: &str, at: usize) -> Result<(ObjectParts, usize), TripleFault>
    requires begin { at ≤ length text.now }
    requires unblank { (byte : ℕ) → HasByte text.now at byte → is_blank byte ≡ false }
    ensures { MatchResult result
        (λ read. IsObject text.now at (λ s p. Before (Object s p)) (object_value read.0) read.1)
        (StopsObject text.now at (λ s p. Before (Object s p))) }
{
    if has_byte(text, at, b'"') {
        return read_literal(alloc, text, at + 1);
    }
    let (iri, next) = read_iri(alloc, text, at)?;
    Ok((ObjectParts::Iri(iri), next))
}

/// Reads the end of a triple: a dot and then blanks to the end of the text.
fn read_end(text: &str, at: usize) -> Result<(), TripleFault>
    requires { at ≤ length text.now }
    ensures { MatchResult result
        (λ _. ReadsEnd text.now at)
        (λ fault. (s p : List ℕ) (o : Term) → StopsAt text.now at (Closed s p o) fault) }
{
    let dot = skip_blanks(text, at);
    let behind = pass_mark(text, dot, b'.')?;
    let place = skip_blanks(text, behind);
    if place < text.len() {
        return Err(TripleFault::NotTriple { place });
    }
    Ok(())
}

/// Reads a triple's text as its parts.
pub fn read_parts(alloc: Global, text: &str) -> Result<TripleParts, TripleFault>
    ensures { MatchResult result
        (λ parts. run text.now (Before Subject) ≡ Spelled (triple_value parts))
        (StopsAt text.now 0 (Before Subject)) }
{
    let subject = skip_blanks(text, 0);
    let (s, at) = read_iri(alloc, text, subject)?;
    let predicate = skip_blanks(text, at);
    let (p, at) = read_iri(alloc, text, predicate)?;
    let object = skip_blanks(text, at);
    let (o, at) = read_object(alloc, text, object)?;
    read_end(text, at)?;
    Ok(TripleParts { s, p, o })
}
