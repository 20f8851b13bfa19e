//! Lexical forms as they are written between quotes, with escapes (N-Triples 1.1, ECHAR).
#![tactic(auto, using(std::proofs::lemmas::Grind::common_steps, crate::proofs::Appending::keeps_same, crate::proofs::Appending::keeps_more, crate::proofs::Appending::keeps_further))]

ghost use Rattle.std.specs.Prelude.{◌≡◌, [], ◌∷◌, ◌++◌, OnOk, OnErr, MatchOption, false, true};
ghost use Rattle.text_rules.specs.Escaped.{KeepsStart, escaped, escaped_byte, is_escape_letter, letter_value};
ghost use Rattle.text_rules.specs.Marks.{backslash};

use std::alloc::AllocError;

/// The byte that stands behind a backslash for a byte that is escaped.
fn escape_code(byte: u8) -> Option<u8>
    ensures { MatchOption result (escaped_byte byte ≡ byte ∷ []) (λ code. escaped_byte byte ≡ backslash ∷ code ∷ []) }
{
    match byte {
        b'"' => Some(b'"'),
        b'\\' => Some(b'\\'),
        b'\n' => Some(b'n'),
        b'\r' => Some(b'r'),
        _ => None,
    }
}

/// Appends a piece that needs no escapes, and then an escape.
fn append_escape(out: &mut Vec<u8>, piece: &[u8], code: u8) -> Result<(), AllocError>
    ensures ok { OnOk result (out.new.items ≡ out.old.items ++ (piece.now ++ backslash ∷ code ∷ [])) }
    ensures err { OnErr result (KeepsStart out.old.items out.new.items) }
{
    out.extend_from_slice(piece)?;
    out.extend_from_slice(&[b'\\', code])
}

/// Appends a lexical form with its escapes: the pieces between them are copied whole.
pub fn append_escaped(out: &mut Vec<u8>, lexical: &[u8]) -> Result<(), AllocError>
    ensures ok { OnOk result (out.new.items ≡ out.old.items ++ escaped lexical.now) }
    ensures err { OnErr result (KeepsStart out.old.items out.new.items) }
{
    let mut start = 0;
    for (i, byte) in lexical.iter().enumerate() {
        if let Some(code) = escape_code(*byte) {
            append_escape(out, &lexical[start..i], code)?;
            start = i + 1;
        }
    }
    out.extend_from_slice(&lexical[start..])
}

/// What a letter behind a backslash stands for, in a lexical form.
pub fn letter_value(letter: u8) -> Option<char>
    ensures { MatchOption result (is_escape_letter letter ≡ false)
        (λ character. (is_escape_letter letter ≡ true) × (character ≡ letter_value letter)) }
{
    match letter {
        b't' => Some('\t'),
        b'b' => Some('\u{8}'),
        b'n' => Some('\n'),
        b'r' => Some('\r'),
        b'f' => Some('\u{C}'),
        b'"' | b'\'' | b'\\' => Some(char::from(letter)),
        _ => None,
    }
}
