//! The texts by which terms are ordered first: what two share, and their first bytes from a place on, with no memory taken.
ghost use Rattle.std.specs.Prelude.{◌≡◌, ◌≤◌, ◌∷◌, ◌++◌, [], take, drop, length, get_or};
ghost use Rattle.hinted_chunks.specs.Leading.{leading};
ghost use Rattle.hinted_chunks.specs.TermFronts.{is_put_behind, plain_front, plain_length, term_front};
ghost use Rattle.text_rules.specs.Marks.{quote};

use crate::keys::closed_shared;
use rdf_terms::Term;
use text_rules::common_len;

/// A number of bytes that what is written for two terms begins with, up to what ends it or is its first escape.
#[tactic(auto, using(crate::proofs::Fronts::front_behind))]
pub fn term_shared(a: &Term, b: &Term) -> usize
    ensures { take result (term_front a.now) ≡ take result (term_front b.now) }
{
    match (a, b) {
        (Term::Iri(iri), Term::Iri(other)) => closed_shared(iri, other).saturating_add(1),
        (Term::Literal(literal), Term::Literal(other)) => {
            plain_shared(literal.lexical().as_bytes(), other.lexical().as_bytes()).saturating_add(1)
        }
        _ => 0,
    }
}

// A number of bytes that two lexical forms begin with, as they are written up to their first escapes.
#[tactic(auto, using(crate::proofs::Fronts::fronts_shared))]
fn plain_shared(a: &[u8], b: &[u8]) -> usize
    ensures { take result (plain_front a.now) ≡ take result (plain_front b.now) }
{
    common_len(a, b)
}

/// The first eight bytes of what is written for a term, up to what ends it or is its first escape, from a place on, as a number.
pub fn term_hint(term: &Term, place: usize) -> u64
    ensures { result ≡ leading 8 (drop place (term_front term.now)) }
{
    match term {
        Term::Iri(iri) => marked_hint(b'<', iri.as_str().as_bytes(), b'>', place),
        Term::Literal(literal) => plain_hint(literal.lexical().as_bytes(), place),
    }
}

// The same of a lexical form behind its quote.
fn plain_hint(lexical: &[u8], place: usize) -> u64
    ensures { result ≡ leading 8 (drop place (quote ∷ plain_front lexical.now)) }
{
    let plain = plain_len(lexical);
    marked_hint(b'"', &lexical[..plain], mark_behind(lexical, plain), place)
}

// What comes behind the plain bytes of a lexical form: a backslash, or the closing quote.
#[tactic(auto, using(crate::proofs::Fronts::plain_cut, crate::proofs::Fronts::plain_whole))]
fn mark_behind(lexical: &[u8], plain: usize) -> u8
    requires { plain ≡ plain_length lexical.now }
    ensures { plain_front lexical.now ≡ take plain lexical.now ++ result ∷ [] }
{
    if plain < lexical.len() { b'\\' } else { b'"' }
}

// How many bytes of a lexical form come before its first escape.
#[tactic(auto, using(crate::proofs::Fronts::plain_more, crate::proofs::Fronts::plain_stop, crate::proofs::Fronts::plain_end))]
fn plain_len(lexical: &[u8]) -> usize
    ensures value { result ≡ plain_length lexical.now }
    ensures bound { result ≤ length lexical.now }
{
    for i in 0..lexical.len() {
        if is_put_behind(lexical[i]) {
            return i;
        }
    }
    lexical.len()
}

// Whether a byte of a lexical form is written behind a backslash.
fn is_put_behind(byte: u8) -> bool
    ensures { result ≡ is_put_behind byte }
{
    byte == b'"' || byte == b'\\' || byte == b'\n' || byte == b'\r'
}

// The first eight bytes of a text between two marks, from a place on, as a number.
#[tactic(auto, using(crate::proofs::Closing::leading_from, crate::proofs::Closing::leading_behind))]
fn marked_hint(front: u8, text: &[u8], back: u8, place: usize) -> u64
    ensures { result ≡ leading 8 (drop place (front ∷ (text.now ++ back ∷ []))) }
{
    if place > text.len() + 1 {
        return 0;
    }
    u64::from_be_bytes([
        marked_at(front, text, back, place),
        marked_at(front, text, back, place + 1),
        marked_at(front, text, back, place + 2),
        marked_at(front, text, back, place + 3),
        marked_at(front, text, back, place + 4),
        marked_at(front, text, back, place + 5),
        marked_at(front, text, back, place + 6),
        marked_at(front, text, back, place + 7),
    ])
}

// The byte at a place of a text between two marks, and 0 behind its end.
fn marked_at(front: u8, text: &[u8], back: u8, place: usize) -> u8
    ensures { result ≡ get_or (front ∷ (text.now ++ back ∷ [])) place 0 }
{
    if place == 0 {
        front
    } else if place <= text.len() {
        text[place - 1]
    } else if place == text.len() + 1 {
        back
    } else {
        0
    }
}
