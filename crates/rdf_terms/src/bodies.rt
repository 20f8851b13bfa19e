//! The reader of what stands between the marks of a term: an IRI, or a lexical form.
ghost use Rattle.std.specs.Prelude.{◌≡◌, ◌≤◌, [], MatchResult, length};
ghost use Rattle.std.specs.Str.{IsCharBoundary};
ghost use Rattle.std.specs.String.{string_bytes};
ghost use Rattle.rdf_terms.specs.TripleReads.{PassesPlain, IsBody, StopsWithin};

use crate::escapes::read_escape;
use crate::faults::TripleFault;
use std::alloc::Global;
use text_rules::{Spot, Text, byte_at};

/// Passes bytes that stand for themselves: the place of the first other byte, or of the end, and where that one stands.
fn pass_plain(text: &str, at: usize, spot: Spot) -> (usize, Spot)
    requires { at ≤ length text.now }
    ensures { PassesPlain text.now at spot result.0 result.1 }
{
    let bytes = text.as_bytes();
    let mut spot = spot;
    for i in at..bytes.len() {
        let byte = bytes[i];
        if byte == b'\\' {
            return (i, spot);
        }
        if spot.is_closed_by(byte) {
            return (i, spot);
        }
        match spot.after_plain(byte) {
            Some(next) => spot = next,
            None => return (i, spot),
        }
    }
    (bytes.len(), spot)
}

/// Reads what stands between the marks of a term behind a value, up to and with the closing mark: the place behind it.
fn read_pieces(value: &mut String, text: &str, at: usize, spot: Spot) -> Result<usize, TripleFault>
    requires begin { at ≤ length text.now }
    requires boundary { IsCharBoundary text.now at }
    ensures { MatchResult result
        (IsBody text.now at spot (string_bytes value.old) (string_bytes value.new))
        (StopsWithin text.now at spot (string_bytes value.old)) }
{
    let mut spot = spot;
    let mut begun = at;
    'pieces: loop {
        let (stop, here) = pass_plain(text, begun, spot);
        let Some(byte) = byte_at(text, stop) else {
            return Err(TripleFault::NotTriple { place: stop });
        };
        if byte == b'\\' {
            value.push_str(&text[begun..stop])?;
            let escape = read_escape(text, stop + 1, here)?;
            value.push(escape.character)?;
            spot = escape.spot;
            begun = escape.next;
        } else if here.is_closed_by(byte) {
            value.push_str(&text[begun..stop])?;
            return Ok(stop + 1);
        } else {
            return Err(TripleFault::NotTriple { place: stop });
        }
    }
}

/// Reads what stands between the marks of a term, behind the first one: its value, with the escapes replaced, and the
/// place behind the closing mark. The text is gone over once, and only the value takes memory.
pub fn read_body(
    alloc: Global,
    text: &str,
    at: usize,
    spot: Spot,
) -> Result<(Text, usize), TripleFault>
    requires begin { at ≤ length text.now }
    requires boundary { IsCharBoundary text.now at }
    ensures { MatchResult result
        (λ read. IsBody text.now at spot [] read.0 read.1)
        (StopsWithin text.now at spot []) }
{
    let mut value = String::new(alloc);
    let next = read_pieces(&mut value, text, at, spot)?;
    Ok((Text::from_string(value)?, next))
}
