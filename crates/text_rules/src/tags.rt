//! Language tags (N-Triples 1.1, LANGTAG).
ghost use Rattle.std.specs.Prelude.{◌≡◌, IfOk, IsTrue, false};
ghost use Rattle.std.specs.Str.{str_to_ascii_lowercase};
ghost use Rattle.text_rules.specs.Tags.{is_subtags, is_primary, is_language_tag};

use crate::characters::{is_digit, is_letter};
use crate::texts::Text;
use std::alloc::{AllocError, Global};

/// Whether letters and digits come, and a `-` only between them.
fn is_subtags(text: &[u8]) -> bool
    ensures { result ≡ is_subtags false text.now }
{
    let mut full = false;
    for byte in text {
        if *byte == b'-' {
            if !full {
                return false;
            }
            full = false;
        } else if is_letter(char::from(*byte)) || is_digit(char::from(*byte)) {
            full = true;
        } else {
            return false;
        }
    }
    full
}

/// Whether a text is a language tag, without the `@`.
#[tactic(auto, unfolding(crate::specs::Tags::is_language_tag))]
pub fn is_language_tag(text: &str) -> bool
    ensures { result ≡ is_language_tag text.now }
{
    let bytes = text.as_bytes();
    let mut full = false;
    for (i, byte) in bytes.iter().enumerate() {
        if *byte == b'-' {
            return full && is_subtags(&bytes[i + 1..]);
        }
        if !is_letter(char::from(*byte)) {
            return false;
        }
        full = true;
    }
    full
}

/// A language tag in lower case.
#[tactic(auto, using(crate::proofs::TagLemmas::tag_small))]
pub fn lower_tag(alloc: Global, tag: &str) -> Result<Text, AllocError>
    requires { IsTrue (is_language_tag tag.now) }
    ensures { IfOk result (λ t. t ≡ str_to_ascii_lowercase tag.now) }
{
    let mut inner = String::new(alloc);
    for byte in tag.as_bytes() {
        inner.push(char::from(byte.to_ascii_lowercase()))?;
    }
    Text::from_string(inner)
}
