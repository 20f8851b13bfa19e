//! How what was written differs from a transcript.
use crate::reading::{Transcript, is_given};

/// A line of the text that isn't as wanted.
#[derive(Clone, Copy)]
pub struct Difference<'a> {
    /// The number of the line in the file.
    pub place: u64,
    /// What it says there.
    pub wanted: &'a str,
    /// What was written; `None` where nothing more was.
    pub got: Option<&'a str>,
}

/// The first line of what was written that isn't as wanted: behind the first line that is given each line that isn't given is a reply, and
/// nothing follows the LF of the last one.
pub fn first_difference<'a>(
    transcript: &Transcript<'a>,
    written: &'a str,
) -> Option<Difference<'a>> {
    let mut rest = Some(written);
    let mut place = 0u64;
    let mut is_begun = false;
    for line in transcript.front.split('\n') {
        place = place.saturating_add(1);
        if is_given(line) {
            is_begun = true;
        } else if is_begun {
            let (got, behind) = first_line(rest);
            if got != Some(line) {
                return Some(Difference {
                    place,
                    wanted: line,
                    got,
                });
            }
            rest = behind;
        }
    }
    if rest == Some("") {
        return None;
    }
    Some(Difference {
        place: place.saturating_add(1),
        wanted: "",
        got: rest,
    })
}

/// The first line of a text and what is behind its LF; `None` where there is no LF.
fn first_line(text: Option<&str>) -> (Option<&str>, Option<&str>) {
    match text {
        None => (None, None),
        Some(text) => match text.split_once('\n') {
            None => (Some(text), None),
            Some((line, behind)) => (Some(line), Some(behind)),
        },
    }
}
