//! What a node is given in one run: the words, the calls that fail, the device, and the events.
use crate::lines::{Failing, Line, Section, crash_of, line_of};
use disk_model::MemoryBanks;
use mld_io::{CrashBanks, Event, Piece, Side};
use std::alloc::{AllocError, Global};
use transcripts::put_hexadecimal;

/// The words of a node, each behind a space in the first line.
pub fn words_of(alloc: Global, section: Section<'_>) -> Result<Box<Vec<String>>, AllocError> {
    let (first, _) = section.text.split_once('\n').unwrap_or((section.text, ""));
    let mut words = Vec::new(alloc);
    if let Some(told) = first.strip_prefix(' ') {
        put_words(alloc, &mut words, told)?;
    }
    Ok(Box::new(alloc, words)?)
}

/// Puts words that are parted by spaces behind these.
fn put_words(alloc: Global, words: &mut Vec<String>, told: &str) -> Result<(), AllocError> {
    for word in told.split(' ') {
        words.push(String::from_str(alloc, word)?)?;
    }
    Ok(())
}

/// The numbers of the calls that fail so.
pub fn fails_of(
    alloc: Global,
    section: Section<'_>,
    failing: Failing,
) -> Result<Vec<u64>, AllocError> {
    let mut fails = Vec::new(alloc);
    for line in section.text.split('\n') {
        put_fails(&mut fails, line, failing)?;
    }
    Ok(fails)
}

/// Puts the numbers of a line behind these, where it tells calls that fail so.
fn put_fails(fails: &mut Vec<u64>, line: &str, failing: Failing) -> Result<(), AllocError> {
    match line_of(line) {
        Some(Line::Fails(how, told)) if how == failing => put_numbers(fails, told),
        _ => Ok(()),
    }
}

/// Puts numbers that are parted by spaces behind these.
fn put_numbers(fails: &mut Vec<u64>, told: &str) -> Result<(), AllocError> {
    for number in told.split(' ') {
        if let Ok(number) = number.parse::<u64>() {
            fails.push(number)?;
        }
    }
    Ok(())
}

/// The device of a run: it has what reads of this one give, and its calls are counted from here and fail or stop as the run says.
pub fn device_of(
    alloc: Global,
    section: Section<'_>,
    banks: &MemoryBanks,
) -> Result<MemoryBanks, AllocError> {
    let a = banks.bytes(Side::A);
    let b = banks.bytes(Side::B);
    let mut device = MemoryBanks::with_bytes(alloc, a, b)?;
    fail_calls(alloc, &mut device, section)?;
    if let Some((call, leave)) = crash_of(section) {
        device.arm(call, leave);
    }
    Ok(device)
}

/// Makes the calls of a device fail that a run tells.
fn fail_calls(
    alloc: Global,
    device: &mut MemoryBanks,
    section: Section<'_>,
) -> Result<(), AllocError> {
    for call in &fails_of(alloc, section, Failing::Device)? {
        device.fail_call(*call)?;
    }
    Ok(())
}

/// The events, pieces of two bytes or more cut in two where that is wanted.
pub fn events_of(
    alloc: Global,
    section: Section<'_>,
    is_cut: bool,
) -> Result<Vec<Event>, AllocError> {
    let mut events = Vec::new(alloc);
    for line in section.text.split('\n') {
        put_event(alloc, &mut events, line, is_cut)?;
    }
    Ok(events)
}

/// Puts the events of a line behind these.
fn put_event(
    alloc: Global,
    events: &mut Vec<Event>,
    line: &str,
    is_cut: bool,
) -> Result<(), AllocError> {
    match line_of(line) {
        Some(Line::Opened(number)) => events.push(Event::Opened(number))?,
        Some(Line::Shut(number)) => events.push(Event::Shut(number))?,
        Some(Line::End) => events.push(Event::End)?,
        Some(Line::Bytes(number, told)) => put_bytes(alloc, events, number, told, is_cut)?,
        _ => {}
    }
    Ok(())
}

/// Puts the events of bytes that come on a connection behind these.
fn put_bytes(
    alloc: Global,
    events: &mut Vec<Event>,
    number: u32,
    told: &str,
    is_cut: bool,
) -> Result<(), AllocError> {
    let mut bytes = Vec::new(alloc);
    put_hexadecimal(&mut bytes, told)?;
    put_pieces(alloc, events, number, bytes.as_slice(), is_cut)
}

/// Puts bytes that come on a connection behind these, as one piece or as two.
fn put_pieces(
    alloc: Global,
    events: &mut Vec<Event>,
    number: u32,
    bytes: &[u8],
    is_cut: bool,
) -> Result<(), AllocError> {
    let middle = if is_cut { bytes.len() / 2 } else { 0 };
    push_piece(alloc, events, number, &bytes[..middle])?;
    push_piece(alloc, events, number, &bytes[middle..])
}

/// Puts some bytes as an event behind these, where there are any.
fn push_piece(
    alloc: Global,
    events: &mut Vec<Event>,
    number: u32,
    bytes: &[u8],
) -> Result<(), AllocError> {
    if !bytes.is_empty() {
        events.push(Event::Bytes(number, Piece::copy_in(alloc, bytes)?))?;
    }
    Ok(())
}

/// The connections that a run speaks of, each once.
pub fn connections_of(alloc: Global, section: Section<'_>) -> Result<Vec<u32>, AllocError> {
    let mut numbers = Vec::new(alloc);
    for line in section.text.split('\n') {
        if let Some(number) = number_in(line) {
            if !numbers.contains(&number) {
                numbers.push(number)?;
            }
        }
    }
    Ok(numbers)
}

/// The connection that a line speaks of.
fn number_in(line: &str) -> Option<u32> {
    line_of(line)?.connection()
}
