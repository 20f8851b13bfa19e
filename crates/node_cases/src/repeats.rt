//! Lines of a session that stand for many.
use std::alloc::{AllocError, Global};
use std::fmt::Write;
use transcripts::parted;

/// A line that stands for one line for each number from `first` to the one before `end`.
#[derive(Clone, Copy)]
struct Repeated<'a> {
    first: u32,
    end: u32,
    line: &'a str,
}

/// The text of a session in which each line `each FIRST END LINE` is written out: LINE once for each number from FIRST to the one before
/// END, with its eight hexadecimal digits in place of each `%`.
pub fn written_out(alloc: Global, text: &str) -> Result<String, AllocError> {
    let mut out = String::new(alloc);
    put_lines(&mut out, text)?;
    Ok(out)
}

/// Puts the lines of a session at the end of a text, written out.
fn put_lines(out: &mut String, text: &str) -> Result<(), AllocError> {
    for line in text.split_inclusive('\n') {
        match repeated_of(line) {
            Some(repeated) => put_repeated(out, repeated)?,
            None => out.push_str(line)?,
        }
    }
    Ok(())
}

/// What a line of the form `each FIRST END LINE` says.
fn repeated_of(line: &str) -> Option<Repeated<'_>> {
    let (first, rest) = parted(line.strip_prefix("each ")?);
    let (end, line) = parted(rest);
    Some(Repeated {
        first: first.parse::<u32>().ok()?,
        end: end.parse::<u32>().ok()?,
        line,
    })
}

/// Puts the lines that one stands for at the end of a text.
fn put_repeated(out: &mut String, repeated: Repeated<'_>) -> Result<(), AllocError> {
    for number in repeated.first..repeated.end {
        put_numbered(out, repeated.line, number)?;
    }
    Ok(())
}

/// Puts a line at the end of a text, with a number in place of each `%`.
fn put_numbered(out: &mut String, line: &str, number: u32) -> Result<(), AllocError> {
    let mut is_behind = false;
    for part in line.split('%') {
        if is_behind {
            write!(out, "{number:08x}")?;
        }
        out.push_str(part)?;
        is_behind = true;
    }
    Ok(())
}
