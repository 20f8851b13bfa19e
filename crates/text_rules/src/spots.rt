//! Where in a term's text a character stands, and what may stand there.
ghost use Rattle.std.specs.Prelude.{◌≡◌};
ghost use lib.Utf8.{scalar};
ghost use Rattle.text_rules.specs.Spots.{is_plain_byte, spot_behind, after_plain, closes, may_hold};

use crate::characters::{is_excluded, is_letter, is_scheme_character};

/// Where in a term's text a character stands.
#[derive(Clone, Copy, Debug, PartialEq, Eq)]
pub enum Spot {
    /// At the start of an IRI, where its scheme begins.
    SchemeStart,
    /// In the scheme of an IRI, behind its first letter.
    Scheme,
    /// Behind the colon of an IRI's scheme.
    IriRest,
    /// In a lexical form.
    Lexical,
}

/// Whether a byte may stand in a lexical form as it is.
fn is_plain(byte: u8) -> bool
    ensures { result ≡ is_plain_byte byte }
{
    !matches!(byte, b'"' | b'\\' | b'\n' | b'\r')
}

impl Spot {
    /// Where the next character stands behind this one, if this one may stand here.
    pub fn after(self, character: char) -> Option<Spot>
        ensures { result ≡ spot_behind self character }
    {
        match self {
            Spot::SchemeStart => is_letter(character).then_some(Spot::Scheme),
            Spot::Scheme if character == ':' => Some(Spot::IriRest),
            Spot::Scheme => is_scheme_character(character).then_some(Spot::Scheme),
            Spot::IriRest => (!is_excluded(character)).then_some(Spot::IriRest),
            Spot::Lexical => Some(Spot::Lexical),
        }
    }

    /// The same for a byte that stands for itself.
    pub fn after_plain(self, byte: u8) -> Option<Spot>
        ensures { result ≡ after_plain self byte }
    {
        match self {
            Spot::Lexical => is_plain(byte).then_some(Spot::Lexical),
            Spot::SchemeStart | Spot::Scheme | Spot::IriRest => self.after(char::from(byte)),
        }
    }

    /// Whether this byte is the mark that closes the term.
    pub fn is_closed_by(self, byte: u8) -> bool
        ensures { result ≡ closes self byte }
    {
        match self {
            Spot::SchemeStart | Spot::Scheme => false,
            Spot::IriRest => byte == b'>',
            Spot::Lexical => byte == b'"',
        }
    }

    /// Whether some character may stand here, of the codes from `low` to `high`, which are sixteen or more in a row.
    pub fn may_hold(self, low: u64, high: u64) -> bool
        ensures { result ≡ may_hold self low high }
    {
        match self {
            Spot::SchemeStart => low < 128 && 64 < high,
            Spot::Scheme => low < 128 && 32 < high,
            Spot::IriRest => is_scalar(low) && 32 < high,
            Spot::Lexical => is_scalar(low),
        }
    }
}

/// Whether a code is that of a character: at most U+10FFFF, and no surrogate.
fn is_scalar(code: u64) -> bool
    ensures { result ≡ scalar code }
{
    code < 0xD800 || (0xE000 <= code && code <= 0x10_FFFF)
}
