//! Tests of single characters. None takes memory.
ghost use Rattle.std.specs.Prelude.{◌≡◌};
ghost use Rattle.text_rules.specs.Iri.{is_letter, is_digit, is_scheme_byte, is_excluded};

/// Whether this is a letter of ASCII.
pub fn is_letter(character: char) -> bool
    ensures { result ≡ is_letter character }
{
    matches!(character, 'A'..='Z' | 'a'..='z')
}

/// Whether this is a digit of ASCII.
pub fn is_digit(character: char) -> bool
    ensures { result ≡ is_digit character }
{
    matches!(character, '0'..='9')
}

/// Whether a scheme may have this character after its first letter (RFC 3986, section 3.1).
pub fn is_scheme_character(character: char) -> bool
    ensures { result ≡ is_scheme_byte character }
{
    is_letter(character)
        || is_digit(character)
        || character == '+'
        || character == '-'
        || character == '.'
}

/// Whether no IRI has this character (N-Triples 1.1, IRIREF).
pub fn is_excluded(character: char) -> bool
    ensures { result ≡ is_excluded character }
{
    character <= ' '
        || matches!(
            character,
            '"' | '<' | '>' | '\\' | '^' | '`' | '{' | '|' | '}'
        )
}
