//! What stands between the first line of a transcript and the first line that is given: the words of the shell, the bytes of both sides
//! of its device, and the calls that fail.
use disk_model::MemoryBanks;
use mld_io::{MemorySink, MemorySource};
use std::alloc::{AllocError, Global};
use transcripts::{Transcript, is_side, parted, put_given, side_bytes};

/// What stands before the words, where they aren't `folder` alone.
const WORDS: &str = "words";

/// What stands before the numbers of reads of the input that fail, counted from 0.
const READS: &str = "fails reads ";

/// What stands before the numbers of writes of the output that fail.
const WRITES: &str = "fails writes ";

/// What stands before the numbers of calls of the device that fail.
const CALLS: &str = "fails calls ";

/// Whether each of these lines sets something.
pub fn are_settings(head: &str) -> bool {
    head.lines()
        .all(|line| is_side(line) || is_words(line) || is_failing(line))
}

/// Whether each of these lines tells bytes of a side.
pub fn are_sides(behind: &str) -> bool {
    behind.lines().all(|line| is_side(line))
}

/// Whether a line says the words.
fn is_words(line: &str) -> bool {
    parted(line).0 == WORDS
}

/// Whether a line says calls that fail.
fn is_failing(line: &str) -> bool {
    let numbers = line
        .strip_prefix(READS)
        .or(line.strip_prefix(WRITES))
        .or(line.strip_prefix(CALLS));
    match numbers {
        Some(numbers) => numbers
            .split(' ')
            .all(|number| number.parse::<u64>().is_ok()),
        None => false,
    }
}

/// The words of the shell.
pub fn words_of(alloc: Global, head: &str) -> Result<Box<Vec<String>>, AllocError> {
    let mut words = Vec::new(alloc);
    put_words(alloc, &mut words, told_words(head))?;
    Ok(Box::new(alloc, words)?)
}

/// What stands behind the mark of the words; `folder` where there is none.
fn told_words(head: &str) -> &str {
    for line in head.lines() {
        if is_words(line) {
            return parted(line).1;
        }
    }
    "folder"
}

/// Puts words that are parted by spaces behind these; none where nothing stands there.
fn put_words(alloc: Global, words: &mut Vec<String>, told: &str) -> Result<(), AllocError> {
    if told.is_empty() {
        return Ok(());
    }
    for word in told.split(' ') {
        words.push(String::from_str(alloc, word)?)?;
    }
    Ok(())
}

/// The numbers of the calls of a kind that fail.
fn fails_of(alloc: Global, head: &str, kind: &str) -> Result<Vec<u64>, AllocError> {
    let mut fails = Vec::new(alloc);
    for line in head.lines() {
        if let Some(numbers) = line.strip_prefix(kind) {
            put_numbers(&mut fails, numbers)?;
        }
    }
    Ok(fails)
}

/// Puts numbers that are parted by spaces behind these.
fn put_numbers(fails: &mut Vec<u64>, numbers: &str) -> Result<(), AllocError> {
    for number in numbers.split(' ') {
        if let Ok(number) = number.parse::<u64>() {
            fails.push(number)?;
        }
    }
    Ok(())
}

/// What gives the lines of a transcript.
pub fn source_of(
    alloc: Global,
    transcript: &Transcript<'_>,
) -> Result<Box<MemorySource>, AllocError> {
    let mut given = Vec::new(alloc);
    put_given(&mut given, transcript)?;
    source_over(alloc, given.as_slice(), transcript.head)
}

/// What gives these bytes.
fn source_over(alloc: Global, given: &[u8], head: &str) -> Result<Box<MemorySource>, AllocError> {
    let fails = fails_of(alloc, head, READS)?;
    Ok(Box::new(alloc, MemorySource::new(alloc, given, fails.as_slice())?)?)
}

/// What takes the replies.
pub fn sink_of(alloc: Global, head: &str) -> Result<Box<MemorySink>, AllocError> {
    let fails = fails_of(alloc, head, WRITES)?;
    Ok(Box::new(alloc, MemorySink::new(alloc, fails.as_slice())?)?)
}

/// The device at first; a side that isn't told has nothing.
pub fn banks_of(alloc: Global, head: &str) -> Result<MemoryBanks, AllocError> {
    let a = side_bytes(alloc, head, "a")?;
    let b = side_bytes(alloc, head, "b")?;
    let mut banks = MemoryBanks::with_bytes(alloc, a.as_slice(), b.as_slice())?;
    fail_calls(alloc, &mut banks, head)?;
    Ok(banks)
}

/// Makes the calls of a device fail that are told.
fn fail_calls(alloc: Global, banks: &mut MemoryBanks, head: &str) -> Result<(), AllocError> {
    for call in &fails_of(alloc, head, CALLS)? {
        banks.fail_call(*call)?;
    }
    Ok(())
}
