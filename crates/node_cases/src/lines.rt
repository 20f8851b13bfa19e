//! The lines of a session.
use mld_io::{Leave, Side};
use transcripts::{is_hexadecimal, is_side, parted, uncommented};

/// How a run is to end.
#[derive(Clone, Copy)]
pub struct End {
    /// The status.
    pub status: u8,
    /// How many events are taken.
    pub turns: u64,
    /// Where the device is damaged.
    pub damaged: Option<(Side, u64)>,
}

/// Which calls fail, and how.
#[derive(Clone, Copy, PartialEq, Eq)]
pub enum Failing {
    /// The wire fails.
    Wire,
    /// The wire finds no memory.
    Memory,
    /// The device fails.
    Device,
}

/// What a line of a run says.
#[derive(Clone, Copy)]
pub enum Line<'a> {
    /// Calls that fail.
    Fails(Failing, &'a str),
    /// The call at which the device stops, and what the crash behind the run leaves.
    Crash(u32, Leave),
    /// A connection was opened.
    Opened(u32),
    /// Bytes came on a connection.
    Bytes(u32, &'a str),
    /// A connection was shut from the other end.
    Shut(u32),
    /// The events end.
    End,
    /// Bytes are sent on a connection.
    Sent(u32, &'a str),
    /// The node shuts a connection.
    Closed(u32),
    /// How the run ends.
    Status(End),
    /// The bytes that a side has behind the run.
    Side,
}

impl Line<'_> {
    /// The connection that a line speaks of.
    pub fn connection(self) -> Option<u32> {
        match self {
            Line::Opened(number)
            | Line::Bytes(number, _)
            | Line::Shut(number)
            | Line::Sent(number, _)
            | Line::Closed(number) => Some(number),
            _ => None,
        }
    }
}

/// What a line of a run says; `None` where it can't be read.
pub fn line_of(line: &str) -> Option<Line<'_>> {
    let (word, rest) = parted(line);
    match word {
        "fails" => told_if(are_numbers(rest), Line::Fails(Failing::Wire, rest)),
        "lacks" => told_if(are_numbers(rest), Line::Fails(Failing::Memory, rest)),
        "breaks" => told_if(are_numbers(rest), Line::Fails(Failing::Device, rest)),
        "crash" => read_crash(rest),
        "end" => told_if(rest.is_empty(), Line::End),
        "status" => Some(Line::Status(read_end(rest)?)),
        "side" => told_if(is_side(line), Line::Side),
        _ => line_on(word, rest),
    }
}

/// What a line says of a connection, whose number stands behind its first word.
fn line_on<'a>(word: &str, rest: &'a str) -> Option<Line<'a>> {
    let (number, told) = parted(rest);
    let number = number.parse::<u32>().ok()?;
    let bytes = uncommented(told);
    match word {
        "opened" => told_if(told.is_empty(), Line::Opened(number)),
        "shut" => told_if(told.is_empty(), Line::Shut(number)),
        "closed" => told_if(told.is_empty(), Line::Closed(number)),
        "bytes" => told_if(are_bytes(bytes), Line::Bytes(number, bytes)),
        "sent" => told_if(is_hexadecimal(bytes), Line::Sent(number, bytes)),
        _ => None,
    }
}

/// Whether a text says bytes, and one at least.
fn are_bytes(told: &str) -> bool {
    !told.is_empty() && is_hexadecimal(told)
}

/// What a line says, where that is so.
fn told_if(is_so: bool, line: Line<'_>) -> Option<Line<'_>> {
    if is_so { Some(line) } else { None }
}

/// Whether these are numbers, parted by spaces.
fn are_numbers(told: &str) -> bool {
    told.split(' ').all(|number| number.parse::<u64>().is_ok())
}

/// A crash, by what stands behind `crash`: the number of a call, and what is left.
fn read_crash<'a>(told: &str) -> Option<Line<'a>> {
    let (call, leave) = parted(told);
    Some(Line::Crash(call.parse::<u32>().ok()?, read_leave(leave)?))
}

/// What a crash leaves, by its word.
fn read_leave(word: &str) -> Option<Leave> {
    match word {
        "lose" => Some(Leave::Lose),
        "keep" => Some(Leave::Keep),
        "torn" => Some(Leave::Torn),
        _ => None,
    }
}

/// How a run is to end, by what stands behind `status`: the status, `turns` and how many, and where it is told `damaged`, the side and
/// the place.
fn read_end(told: &str) -> Option<End> {
    let (status, told) = parted(told);
    let (word, told) = parted(told);
    let (turns, told) = parted(told);
    if word != "turns" {
        return None;
    }
    Some(End {
        status: status.parse::<u8>().ok()?,
        turns: turns.parse::<u64>().ok()?,
        damaged: if told.is_empty() {
            None
        } else {
            Some(read_damaged(told)?)
        },
    })
}

/// Where a device is damaged.
fn read_damaged(told: &str) -> Option<(Side, u64)> {
    if let Some(place) = told.strip_prefix("damaged a ") {
        return Some((Side::A, place.parse::<u64>().ok()?));
    }
    let place = told.strip_prefix("damaged b ")?;
    Some((Side::B, place.parse::<u64>().ok()?))
}

/// One run of a session: its first line is what stands behind `serve`.
#[derive(Clone, Copy)]
pub struct Section<'a> {
    /// Its text.
    pub text: &'a str,
    /// The number of its first line.
    pub place: u64,
}

/// The number of the first line behind the first one of a run that says something and can't be read.
pub fn bad_line(section: Section<'_>) -> Option<u64> {
    let mut place = section.place;
    for line in section.text.split('\n') {
        if place > section.place && !line.is_empty() && line_of(line).is_none() {
            return Some(place);
        }
        place = place.saturating_add(1);
    }
    None
}

/// How a run is to end, where that is told.
pub fn end_of(section: Section<'_>) -> Option<End> {
    let mut found = None;
    for line in section.text.split('\n') {
        if let Some(Line::Status(end)) = line_of(line) {
            found = Some(end);
        }
    }
    found
}

/// The crash of a run, where there is one: the call at which the device stops, and what is left.
pub fn crash_of(section: Section<'_>) -> Option<(u32, Leave)> {
    let mut found = None;
    for line in section.text.split('\n') {
        if let Some(Line::Crash(call, leave)) = line_of(line) {
            found = Some((call, leave));
        }
    }
    found
}

/// Whether the node is to shut a connection.
pub fn is_closed(section: Section<'_>, number: u32) -> bool {
    for line in section.text.split('\n') {
        if let Some(Line::Closed(closed)) = line_of(line) {
            if closed == number {
                return true;
            }
        }
    }
    false
}

/// How many lines a part of a text has.
pub fn count_lines(text: &str) -> u64 {
    let mut count = 0u64;
    for _ in text.split('\n') {
        count = count.saturating_add(1);
    }
    count
}
