//! What differs is written, with the name of the file that says otherwise.
use crate::comparing::{Difference, first_difference};
use crate::ends::RunEnd;
use crate::reading::Transcript;
use std::io::{self, Print};

/// Whether what was written is what the transcript says. The first line that differs is written.
pub fn has_text<R: Print>(
    rt: &R,
    name: &str,
    transcript: &Transcript<'_>,
    written: &[u8],
) -> io::Result<bool> {
    let Ok(text) = str::from_utf8(written) else {
        println!(rt; "{name}: what was written is no text")?;
        return Ok(false);
    };
    match first_difference(transcript, text) {
        None => Ok(true),
        Some(found) => {
            tell_difference(rt, name, found)?;
            Ok(false)
        }
    }
}

/// Writes a line that differs.
fn tell_difference<R: Print>(rt: &R, name: &str, found: Difference<'_>) -> io::Result<()> {
    let place = found.place;
    let wanted = found.wanted;
    match found.got {
        Some(got) => println!(rt; "{name}:{place}: wanted `{wanted}`, got `{got}`"),
        None => println!(rt; "{name}:{place}: wanted `{wanted}`, got nothing more"),
    }
}

/// Whether a run ended as is wanted. What differs is written.
pub fn has_end<R: Print>(rt: &R, name: &str, wanted: RunEnd, got: RunEnd) -> io::Result<bool> {
    if wanted == got {
        return Ok(true);
    }
    println!(rt; "{name}: wanted {wanted}, got {got}")?;
    Ok(false)
}
