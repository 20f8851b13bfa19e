//! The reader of escapes (N-Triples 1.1, ECHAR and UCHAR).
ghost use Rattle.std.specs.Prelude.{◌≡◌, ◌≤◌, ◌<◌, ◌^◌, MatchOption, MatchResult, length, false, true};
ghost use Rattle.std.specs.Bool.{OnTrue};
ghost use Rattle.rdf_terms.specs.TripleReading.{Behind, Digits, may_begin};
ghost use Rattle.rdf_terms.specs.TripleReads.{HasDigit, HasNoDigit, HasLetter, HasNoLetter, IsEscape, StopsBehind};

use crate::faults::TripleFault;
use text_rules::{Spot, byte_at, letter_value};

/// An escape that was read: its character, where the next one stands, and the place behind it.
#[derive(Clone, Copy, Debug)]
pub struct Escape {
    /// The character.
    pub character: char,
    /// Where the next character stands.
    pub spot: Spot,
    /// The place behind the escape.
    pub next: usize,
}

/// How many codes begin with the same digits, where so many digits are to come.
#[tactic(auto, using(crate::proofs::EscapeLemmas::width_within))]
fn width(digits: u32) -> u64
    requires { digits < 8 }
    ensures width { result ≡ 16 ^ digits }
    ensures some { 1 ≤ result }
    ensures small { result ≤ 268435456 }
{
    16_u64.pow(digits)
}

/// Whether some character whose code begins with this one, with so many digits to come, may stand here.
fn may_begin(spot: Spot, digits: u32, code: u32) -> bool
    requires digits { digits < 8 }
    requires code { code < 17825792 }
    ensures answer { result ≡ may_begin spot digits code }
    // A code that passes is not above U+10FFFF.
    ensures small { OnTrue result (code < 1114112) }
{
    let width = width(digits);
    let low = u64::from(code) * width;
    spot.may_hold(low, low + (width - 1))
}

/// The value of the hexadecimal digit at a place.
fn digit_at(text: &str, place: usize) -> Option<u32>
    requires { place ≤ length text.now }
    ensures { MatchOption result (HasNoDigit text.now place) (HasDigit text.now place) }
{
    let byte = byte_at(text, place)?;
    char::from(byte).to_digit(16)
}

/// Reads so many hexadecimal digits, which name a character that may stand here.
fn read_digits(text: &str, at: usize, spot: Spot, count: u32) -> Result<Escape, TripleFault>
    requires some { 1 ≤ count }
    requires most { count ≤ 8 }
    requires begin { at ≤ length text.now }
    ensures { MatchResult result
        (IsEscape text.now at spot (Digits count 0))
        (StopsBehind text.now at spot (Digits count 0)) }
{
    let mut code = 0;
    let mut digits = count;
    let mut next = at;
    while digits > 1 {
        let Some(digit) = digit_at(text, next) else {
            return Err(TripleFault::NotTriple { place: next });
        };
        code = code * 16 + digit;
        digits -= 1;
        if !may_begin(spot, digits, code) {
            return Err(TripleFault::NotTriple { place: next });
        }
        next += 1;
    }
    read_last_digit(text, next, spot, code)
}

/// Reads the last hexadecimal digit of a character's code.
fn read_last_digit(text: &str, at: usize, spot: Spot, code: u32) -> Result<Escape, TripleFault>
    requires small { code < 1114112 }
    requires begin { at ≤ length text.now }
    ensures { MatchResult result
        (IsEscape text.now at spot (Digits 1 code))
        (StopsBehind text.now at spot (Digits 1 code)) }
{
    let fault = TripleFault::NotTriple { place: at };
    let Some(digit) = digit_at(text, at) else {
        return Err(fault);
    };
    let Some(character) = char::from_u32(code * 16 + digit) else {
        return Err(fault);
    };
    let Some(spot) = spot.after(character) else {
        return Err(fault);
    };
    let next = at + 1;
    Ok(Escape {
        character,
        spot,
        next,
    })
}

/// What a letter behind a backslash stands for at a spot: only lexical forms have such letters.
fn letter_here(letter: u8, spot: Spot) -> Option<char>
    ensures { MatchOption result (HasNoLetter spot letter) (HasLetter spot letter) }
{
    match spot {
        Spot::Lexical => letter_value(letter),
        Spot::SchemeStart | Spot::Scheme | Spot::IriRest => None,
    }
}

/// Reads an escape behind its backslash.
pub fn read_escape(text: &str, at: usize, spot: Spot) -> Result<Escape, TripleFault>
    requires { at ≤ length text.now }
    ensures { MatchResult result (IsEscape text.now at spot Behind) (StopsBehind text.now at spot Behind) }
{
    let fault = TripleFault::NotTriple { place: at };
    let Some(byte) = byte_at(text, at) else {
        return Err(fault);
    };
    let next = at + 1;
    match byte {
        b'u' => read_digits(text, next, spot, 4),
        b'U' => read_digits(text, next, spot, 8),
        _ => match letter_here(byte, spot) {
            Some(character) => Ok(Escape {
                character,
                spot,
                next,
            }),
            None => Err(fault),
        },
    }
}
