//! Lines: what a table is about, and its rows.
use mld_io::Leave;

/// A row: the call is stopped, and this is what has to come of it.
#[derive(Clone, Copy)]
pub struct Row<'a> {
    /// The first word of the call.
    pub word: &'a str,
    /// How many calls of the device are still done.
    pub calls: u32,
    /// What the crash leaves of writes that aren't synced.
    pub leave: Leave,
    /// How the call ends.
    pub ended: &'a str,
    /// How many of its durable steps stand.
    pub steps: usize,
}

/// A line.
#[derive(Clone, Copy)]
pub enum Line<'a> {
    /// `made STEPS`: what is made before the call. A new table begins.
    Made(&'a str),
    /// `call STEP`: the call that is stopped.
    Call(&'a str),
    /// `left STEPS`: these make what stands after no durable step of the call; on the next such line, after one; and so on.
    Left(&'a str),
    /// `WORD CALLS LEAVE => ENDED STEPS`.
    Row(Row<'a>),
    /// An empty line, or a comment.
    Nothing,
    /// Any other line.
    Amiss,
}

/// What a line says.
pub fn line_of(text: &str) -> Line<'_> {
    if text.is_empty() || text.starts_with('#') {
        return Line::Nothing;
    }
    let (word, rest) = cut_word(text);
    match word {
        "made" => Line::Made(rest),
        "call" => Line::Call(rest),
        "left" => Line::Left(rest),
        _ => match row_of(word, rest) {
            Some(row) => Line::Row(row),
            None => Line::Amiss,
        },
    }
}

/// The row of a word and what stands behind it.
fn row_of<'a>(word: &'a str, rest: &'a str) -> Option<Row<'a>> {
    let (given, wanted) = rest.split_once(" => ")?;
    let (calls, leave) = cut_word(given);
    let (ended, steps) = cut_word(wanted);
    Some(Row {
        word,
        calls: calls.parse().ok()?,
        leave: leave_of(leave)?,
        ended,
        steps: steps.parse().ok()?,
    })
}

/// The way to crash of a word.
fn leave_of(word: &str) -> Option<Leave> {
    match word {
        "lose" => Some(Leave::Lose),
        "keep" => Some(Leave::Keep),
        "torn" => Some(Leave::Torn),
        _ => None,
    }
}

/// The first word of a text, and what stands behind its space.
pub fn cut_word(text: &str) -> (&str, &str) {
    match text.split_once(' ') {
        Some(parts) => parts,
        None => (text, ""),
    }
}
