//! The texts by which pairs are ordered first: those of their subjects, each with its closing mark.
ghost use Rattle.std.specs.Prelude.{◌≡◌, take, drop, get_or};
ghost use Rattle.hinted_chunks.specs.ClosedTexts.{closed_text};
ghost use Rattle.hinted_chunks.specs.Leading.{leading};

use crate::bounds::Keyed;
use mld_ops::Tagged;
use rdf_terms::Iri;
use text_rules::common_len;

impl Keyed for Tagged {
    ghost use Rattle.hinted_chunks.specs.ClosedTexts.{closed_text};

    ghost key = { λ pair. closed_text pair.triple.s };

    fn shared(&self, other: &Tagged) -> usize {
        closed_shared(&self.triple.s, &other.triple.s)
    }

    fn hint(&self, place: usize) -> u64 {
        closed_hint(&self.triple.s, place)
    }
}

/// A number of bytes that the texts of two IRIs share from their starts, each text with its closing mark.
#[tactic(auto, using(crate::proofs::Closing::common_closed))]
pub fn closed_shared(a: &Iri, b: &Iri) -> usize
    ensures { take result (closed_text a.now) ≡ take result (closed_text b.now) }
{
    common_len(a.as_str().as_bytes(), b.as_str().as_bytes())
}

/// The first eight bytes of an IRI's text with its closing mark, from a place on, as a number.
pub fn closed_hint(iri: &Iri, place: usize) -> u64
    ensures { result ≡ leading 8 (drop place (closed_text iri.now)) }
{
    hint_from(iri.as_str().as_bytes(), place)
}

// The first eight bytes of a text with its closing mark, from a place on, as a number.
fn hint_from(text: &[u8], place: usize) -> u64
    ensures { result ≡ leading 8 (drop place (closed_text text.now)) }
{
    if place > text.len() {
        return 0;
    }
    first_eight(&text[place..])
}

// The first eight bytes of a text with its closing mark, as a number.
#[tactic(auto, using(crate::proofs::Closing::leading_eight))]
fn first_eight(text: &[u8]) -> u64
    ensures { result ≡ leading 8 (closed_text text.now) }
{
    u64::from_be_bytes([
        byte_at(text, 0),
        byte_at(text, 1),
        byte_at(text, 2),
        byte_at(text, 3),
        byte_at(text, 4),
        byte_at(text, 5),
        byte_at(text, 6),
        byte_at(text, 7),
    ])
}

// The byte of a text with its closing mark at a place, and 0 behind its end.
fn byte_at(text: &[u8], place: usize) -> u8
    ensures { result ≡ get_or (closed_text text.now) place 0 }
{
    if place < text.len() {
        text[place]
    } else if place == text.len() {
        b'>'
    } else {
        0
    }
}
