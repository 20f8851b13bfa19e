//! Which texts are absolute IRIs, and which are names of domains. No test takes memory.
ghost use Rattle.std.specs.Prelude.{◌≡◌, false, not};
ghost use Rattle.std.specs.List.{list_all};
ghost use Rattle.text_rules.specs.Domain.{is_domain, is_domain_byte};
ghost use Rattle.text_rules.specs.Iri.{is_excluded, ends_scheme, has_scheme, is_iri, is_absolute};

use crate::characters::{is_digit, is_excluded, is_letter, is_scheme_character};

/// How many bytes an IRI has at most.
pub const IRI_LIMIT: usize = 2_048;

/// How many characters the name of a domain has at most.
pub const DOMAIN_LIMIT: usize = 200;

/// Whether scheme characters and a colon come first.
fn ends_scheme(text: &[u8]) -> bool
    ensures { result ≡ ends_scheme text.now }
{
    for byte in text {
        if *byte == b':' {
            return true;
        }
        if !is_scheme_character(char::from(*byte)) {
            return false;
        }
    }
    false
}

/// Whether a scheme and a colon come first (RFC 3986, section 3.1).
pub fn has_scheme(text: &[u8]) -> bool
    ensures { result ≡ has_scheme text.now }
{
    match text {
        [] => false,
        [first, rest @ ..] => is_letter(char::from(*first)) && ends_scheme(rest),
    }
}

/// Whether a text is an absolute IRI of any length (N-Triples 1.1, IRIREF).
#[tactic(auto, unfolding(crate::specs::Iri::is_iri))]
pub fn is_iri(text: &str) -> bool
    ensures { result ≡ is_iri text.now }
{
    has_scheme(text.as_bytes()) && has_none_excluded(text)
}

/// Whether a text has no character that IRIs may not have.
fn has_none_excluded(text: &str) -> bool
    ensures { result ≡ list_all (λ byte. not (is_excluded byte)) text.now }
{
    text.as_bytes()
        .iter()
        .all(|byte| !is_excluded(char::from(*byte)))
}

/// Whether a text is an absolute IRI of at most 2,048 bytes.
pub fn is_absolute(text: &str) -> bool
    ensures { result ≡ is_absolute text.now }
{
    text.len() <= IRI_LIMIT && is_iri(text)
}

/// Whether a text is the name of a domain: 1 to 200 of `a` to `z`, `0` to `9`, `.` and `-`.
#[tactic(auto, unfolding(crate::specs::Domain::is_domain))]
pub fn is_domain(text: &str) -> bool
    ensures { result ≡ is_domain text.now }
{
    1 <= text.len() && text.len() <= DOMAIN_LIMIT && has_domain_bytes(text)
}

/// Whether names of domains may have every byte of a text.
fn has_domain_bytes(text: &str) -> bool
    ensures { result ≡ list_all is_domain_byte text.now }
{
    text.as_bytes().iter().all(|byte| is_domain_byte(*byte))
}

/// Whether names of domains have this byte.
fn is_domain_byte(byte: u8) -> bool
    ensures { result ≡ is_domain_byte byte }
{
    matches!(byte, b'a'..=b'z' | b'0'..=b'9' | b'.' | b'-')
}
