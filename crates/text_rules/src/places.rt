//! Bytes at places of a text.
ghost use Rattle.std.specs.Prelude.{◌≡◌, ◌≤◌, MatchBool, MatchOption, length};
ghost use Rattle.text_rules.specs.BytePlaces.{HasByte, LacksByte};

/// The byte at a place, if the text doesn't end there.
pub fn byte_at(text: &str, place: usize) -> Option<u8>
    ensures { MatchOption result (length text.now ≤ place) (HasByte text.now place) }
{
    text.as_bytes().get(place).copied()
}

/// Whether such a byte stands at a place.
pub fn has_byte(text: &str, place: usize, byte: u8) -> bool
    ensures { MatchBool result (HasByte text.now place byte) (LacksByte text.now place byte) }
{
    match byte_at(text, place) {
        Some(found) => found == byte,
        None => false,
    }
}
