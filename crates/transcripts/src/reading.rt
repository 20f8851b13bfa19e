//! Transcripts: the lines that a run is given, each with the replies that belong to it, and how the run ends.
use crate::ends::{RunEnd, read_end};
use crate::hexadecimal::put_hexadecimal;
use std::alloc::AllocError;
use thiserror::Error;

/// What stands before a line that a run is given.
const GIVEN: &str = "> ";

/// What stands before bytes that a run is given, with no LF of their own.
const BYTES: &str = ">> ";

/// What a file says.
#[derive(Clone, Copy)]
pub struct Transcript<'a> {
    /// The lines between the first one, which says what the transcript shows, and the first that the run is given.
    pub head: &'a str,
    /// All lines before the one that says how the run ends, the first one and the head among them.
    pub front: &'a str,
    /// How the run ends.
    pub end: RunEnd,
    /// The lines behind the one that says so.
    pub behind: &'a str,
}

/// Why a file is no transcript.
#[derive(Clone, Copy, Debug, Error)]
pub enum TranscriptFault {
    /// The first line doesn't say what the transcript shows.
    #[error("line 1 doesn't begin with `# `")]
    NoTitle,
    /// No line says how the run ends, or the last one has no LF.
    #[error("no line begins with `= `, or the last has no line end")]
    NoEnd,
    /// The line that is to say how the run ends can't be read.
    #[error("behind `= ` stands no `STATUS` or `STATUS line K`")]
    BadEnd,
}

/// Reads the text of a file.
pub fn read_transcript(text: &str) -> Result<Transcript<'_>, TranscriptFault> {
    if !text.starts_with("# ") {
        return Err(TranscriptFault::NoTitle);
    }
    let Some((front, rest)) = text.split_once("\n= ") else {
        return Err(TranscriptFault::NoEnd);
    };
    let Some(rest) = rest.strip_suffix('\n') else {
        return Err(TranscriptFault::NoEnd);
    };
    let (told, behind) = rest.split_once('\n').unwrap_or((rest, ""));
    match read_end(told) {
        Some(end) => Ok(Transcript {
            head: head_of(front),
            front,
            end,
            behind,
        }),
        None => Err(TranscriptFault::BadEnd),
    }
}

/// The lines between the first one and the first that a run is given.
fn head_of(front: &str) -> &str {
    let first = match front.split_once("\n>") {
        Some((first, _)) => first,
        None => front,
    };
    match first.split_once('\n') {
        Some((_, head)) => head,
        None => "",
    }
}

/// Whether a line is given to a run.
pub fn is_given(line: &str) -> bool {
    line.starts_with(GIVEN) || line.starts_with(BYTES)
}

/// Puts what a run is given behind these bytes.
pub fn put_given(bytes: &mut Vec<u8>, transcript: &Transcript<'_>) -> Result<(), AllocError> {
    for line in transcript.front.split('\n') {
        put_line(bytes, line)?;
    }
    Ok(())
}

/// Puts what one line gives to a run behind these bytes.
fn put_line(bytes: &mut Vec<u8>, line: &str) -> Result<(), AllocError> {
    if let Some(told) = line.strip_prefix(BYTES) {
        return put_hexadecimal(bytes, told);
    }
    if let Some(given) = line.strip_prefix(GIVEN) {
        bytes.extend_from_slice(given.as_bytes())?;
        bytes.push(b'\n')?;
    }
    Ok(())
}
