//! Transcripts in which more lines stand between two of those that are given, as those by which a clone stops and opens again.
use crate::reading::is_given;
use std::alloc::{AllocError, Global};

/// Whether a line may have others before it: it is given, or says how the run ends.
pub fn is_stop(line: &str) -> bool {
    is_given(line) || line.starts_with("= ")
}

/// The text of a transcript with more lines behind so many given ones and their replies; `None` where there are fewer.
pub fn with_lines(
    alloc: Global,
    text: &str,
    given: u64,
    lines: &str,
) -> Result<Option<String>, AllocError> {
    let mut made = String::new(alloc);
    let is_there = put_with_lines(&mut made, text, given, lines)?;
    Ok(if is_there { Some(made) } else { None })
}

/// Puts such a text at the end of another; whether there are so many given lines.
fn put_with_lines(
    made: &mut String,
    text: &str,
    given: u64,
    lines: &str,
) -> Result<bool, AllocError> {
    let mut count = 0u64;
    let mut is_there = false;
    for line in text.split_inclusive('\n') {
        if is_stop(line) {
            if count == given {
                made.push_str(lines)?;
                is_there = true;
            }
            count = count.saturating_add(1);
        }
        made.push_str(line)?;
    }
    Ok(is_there)
}

/// How many lines a run is given.
pub fn count_given(text: &str) -> u64 {
    let mut count = 0u64;
    for line in text.lines() {
        if is_given(line) {
            count = count.saturating_add(1);
        }
    }
    count
}
