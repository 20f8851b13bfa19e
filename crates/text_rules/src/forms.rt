//! Tests of texts in JSON-LD: terms, variables, plain texts, and what may end the IRI of a prefix. None takes memory.
ghost use Rattle.std.specs.Prelude.{◌≡◌, ◌-◌, true, false, length, MatchOption};
ghost use Rattle.std.specs.List.{list_all, suffix_len};
ghost use Rattle.std.specs.Str.{IsCharBoundary};
ghost use Rattle.text_rules.specs.References.{begins_authority};
ghost use Rattle.text_rules.specs.TextForms.{has_colon, before_colon, behind_colon, is_delimiter, ends_in_delimiter, begins_as_keyword, is_name_byte, is_name, is_variable, is_term_name, is_plain_letter, is_plain, plain_end};

use crate::characters::{is_digit, is_letter};

/// Whether a text has a colon.
pub fn has_colon(text: &str) -> bool
    ensures { result ≡ has_colon text.now }
{
    text.as_bytes().contains(&b':')
}

/// What stands before the first colon, and what behind it.
pub fn cut_colon(text: &str) -> Option<(&str, &str)>
    ensures { MatchOption result (has_colon text.now ≡ false)
        (λ parts. (has_colon text.now ≡ true) × (parts.0.now ≡ before_colon text.now)
        × (parts.1.now ≡ behind_colon text.now)) }
{
    text.split_once(':')
}

/// Whether a text begins with two slashes.
pub fn begins_authority(text: &str) -> bool
    ensures { result ≡ begins_authority text.now }
{
    text.starts_with("//")
}

/// Whether this is one of the delimiters with which the IRI of a prefix ends (RFC 3986, section 2.2).
pub fn is_delimiter(byte: u8) -> bool
    ensures { result ≡ is_delimiter byte }
{
    matches!(byte, b':' | b'/' | b'?' | b'#' | b'[' | b']' | b'@')
}

/// Whether a text ends with such a delimiter.
pub fn ends_in_delimiter(text: &str) -> bool
    ensures { result ≡ ends_in_delimiter text.now }
{
    match text.as_bytes().last() {
        Some(byte) => is_delimiter(*byte),
        None => false,
    }
}

/// Whether a text begins with `@`, as keywords do.
pub fn begins_as_keyword(text: &str) -> bool
    ensures { result ≡ begins_as_keyword text.now }
{
    match text.as_bytes() {
        [] => false,
        [first, ..] => *first == b'@',
    }
}

/// Whether the name of a variable may have this byte after its first letter.
fn is_name_byte(byte: u8) -> bool
    ensures { result ≡ is_name_byte byte }
{
    is_letter(char::from(byte)) || is_digit(char::from(byte)) || byte == b'_'
}

/// Whether these are only such bytes.
fn are_name_bytes(bytes: &[u8]) -> bool
    ensures { result ≡ list_all is_name_byte bytes.now }
{
    bytes.iter().all(|byte| is_name_byte(*byte))
}

/// Whether this is the name of a variable, without its question mark.
fn is_name(bytes: &[u8]) -> bool
    ensures { result ≡ is_name bytes.now }
{
    match bytes {
        [] => false,
        [first, rest @ ..] => is_letter(char::from(*first)) && are_name_bytes(rest),
    }
}

/// Whether a text has the form of a variable: `?` and a letter, then letters, digits and `_`.
pub fn is_variable(text: &str) -> bool
    ensures { result ≡ is_variable text.now }
{
    match text.as_bytes() {
        [] => false,
        [first, rest @ ..] => *first == b'?' && is_name(rest),
    }
}

/// Whether a context may define a text.
#[tactic(auto, unfolding(crate::specs::TextForms::is_term_name))]
pub fn is_term_name(text: &str) -> bool
    ensures { result ≡ is_term_name text.now }
{
    !text.is_empty()
        && !has_colon(text)
        && !text.as_bytes().contains(&b'/')
        && !begins_as_keyword(text)
        && !is_variable(text)
}

/// Whether a plain text may have this byte.
fn is_plain_letter(byte: u8) -> bool
    ensures { result ≡ is_plain_letter byte }
{
    is_letter(char::from(byte)) || is_digit(char::from(byte)) || byte == b'_' || byte == b'-'
}

/// Whether a plain text may have these bytes.
fn are_plain_bytes(bytes: &[u8]) -> bool
    ensures { result ≡ list_all is_plain_letter bytes.now }
{
    bytes.iter().all(|byte| is_plain_letter(*byte))
}

/// Whether a text is plain: one or more letters, digits, `_` and `-`.
pub fn is_plain(text: &str) -> bool
    ensures { result ≡ is_plain text.now }
{
    !text.is_empty() && are_plain_bytes(text.as_bytes())
}

/// Where the longest plain end of a text begins.
fn plain_start(text: &str) -> usize
    ensures place { result ≡ length text.now - suffix_len is_plain_letter text.now }
    ensures boundary { IsCharBoundary text.now result }
{
    let bytes = text.as_bytes();
    let mut start = bytes.len();
    while start > 0 && is_plain_letter(bytes[start - 1]) {
        start -= 1;
    }
    start
}

/// The longest end of a text that is made of plain bytes.
pub fn plain_end(text: &str) -> &str
    ensures { result.now ≡ plain_end text.now }
{
    &text[plain_start(text)..]
}
