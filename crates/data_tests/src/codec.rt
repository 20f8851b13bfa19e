//! Messages as bytes: each kind, and the places where reading them stops.
use mld_ops::Message;
use op_codec::{CodecFault, is_short_message, read_message, write_message};
use std::alloc::{AllocError, Global};
use std::test::Fail;

// Numbers: how many items a list has, or a tick.
const ZERO: &[u8] = b"\x00\x00\x00\x00";

const ONE: &[u8] = b"\x00\x00\x00\x01";

const TWO: &[u8] = b"\x00\x00\x00\x02";

// The begin of a message with an entry of the root's first tick, and the clock that it stands for; the same of its second tick.
const FIRST: &[u8] = b"\x01\x00\x00\x00\x00\x01\x00\x00\x00\x01";

const TIME: &[u8] = b"\x00\x00\x00\x01\x00\x00\x00\x00\x01";

const SECOND: &[u8] = b"\x01\x00\x00\x00\x00\x02\x00\x00\x00\x02";

const LATER: &[u8] = b"\x00\x00\x00\x01\x00\x00\x00\x00\x02";

// The dot of the root's first tick.
const DOT: &[u8] = b"\x00\x00\x00\x00\x01";

// A triple.
const TRIPLE: &[u8] = b"\x00\x00\x00\x20<http://d/a> <http://d/#p> \"x\" .";

// A clock of the root with 3 ticks, of `0` with 2 and of `011` with 1.
const CLOCK: &[u8] =
    b"\x00\x00\x00\x03\x00\x00\x00\x00\x03\x01\x00\x00\x00\x00\x02\x03\x60\x00\x00\x00\x01";

// The triple with the dot of the root's third tick, and with that of the first tick of `011`.
const PAIRS: &[u8] =
    b"\x00\x00\x00\x02\x00\x00\x00\x20<http://d/a> <http://d/#p> \"x\" .\x00\x00\x00\x00\x03\x00\x00\x00\x20<http://d/a> <http://d/#p> \"x\" .\x03\x60\x00\x00\x00\x01";

// An id.
const ID: &[u8] = b"0123456789abcdef";

// Messages of each kind, empty and filled, in pieces.
const MESSAGES: &[&[&[u8]]] = &[
    // The first operation of the root inserts the triple, and the second one deletes it.
    &[FIRST, TIME, ZERO, ONE, TRIPLE, ONE],
    &[SECOND, LATER, ONE, TRIPLE, DOT, ZERO],
    &[b"\x02", ZERO],
    &[b"\x02", CLOCK],
    &[b"\x03", ZERO, ZERO],
    &[b"\x03", CLOCK, PAIRS],
    &[b"\x04", ID],
    &[b"\x05", ID, b"\x00", ZERO, ZERO],
    &[b"\x05", ID, b"\x02\x40", CLOCK, PAIRS],
];

// What is amiss in a message, the message in pieces, and the place where reading it stops.
type Refused = (&'static str, &'static [&'static [u8]], usize);

const FAULTS: &[Refused] = &[
    ("no byte", &[], 0),
    ("a kind that there isn't", &[b"\x07"], 0),
    (
        "more paths than there are bytes",
        &[b"\x02\xff\xff\xff\xff"],
        5,
    ),
    ("a count that is cut short", &[b"\x02\x00\x00\x00"], 1),
    (
        "paths that descend",
        &[b"\x02\x00\x00\x00\x02\x01\x80\x00\x00\x00\x01\x01\x00\x00\x00\x00\x01"],
        11,
    ),
    (
        "a path with an unused bit set",
        &[b"\x02\x00\x00\x00\x01\x01\x40\x00\x00\x00\x01"],
        5,
    ),
    (
        "a clock with a tick of 0",
        &[b"\x02\x00\x00\x00\x01\x01\x80\x00\x00\x00\x00"],
        7,
    ),
    (
        "a path of 65 letters",
        &[b"\x02\x00\x00\x00\x01\x41\x00\x00\x00\x00\x01"],
        5,
    ),
    ("an id that is cut short", &[b"\x04\x00\x00\x00"], 1),
    (
        "two blanks between terms",
        &[
            b"\x03\x00\x00\x00\x00\x00\x00\x00\x01\x00\x00\x00\x21<http://d/a>  <http://d/#p> \"x\" .\x00\x00\x00\x00\x03",
        ],
        13,
    ),
    (
        "a text that is no UTF-8",
        &[b"\x03\x00\x00\x00\x00\x00\x00\x00\x01\x00\x00\x00\x01\xff\x00\x00\x00\x00\x03"],
        13,
    ),
    (
        "a text that is cut short",
        &[b"\x03\x00\x00\x00\x00\x00\x00\x00\x01\x00\x00\x00\x21<http://d/a> "],
        13,
    ),
    (
        "a pair that isn't covered, behind one of 41 bytes",
        &[b"\x03\x00\x00\x00\x01\x00\x00\x00\x00\x03", PAIRS],
        14 + 41,
    ),
    (
        "a delete of 41 bytes that stands twice",
        &[SECOND, LATER, TWO, TRIPLE, DOT, TRIPLE, DOT, ZERO],
        23 + 41,
    ),
    (
        "an insert of 40 bytes that stands twice",
        &[FIRST, TIME, ZERO, TWO, TRIPLE, ONE, TRIPLE, ONE],
        27 + 40,
    ),
    // Parts that are none of an entry.
    (
        "a first tick of 0",
        &[b"\x01\x00", ZERO, ONE, TIME, ZERO, ZERO],
        1,
    ),
    (
        "a first tick above the last",
        &[b"\x01\x00", TWO, ONE, TIME, ZERO, ZERO],
        1,
    ),
    (
        "a time without the last tick",
        &[b"\x01\x00", ONE, TWO, TIME, ZERO, ZERO],
        1,
    ),
    (
        "a delete that the time doesn't cover",
        &[FIRST, TIME, PAIRS, ZERO],
        1,
    ),
    (
        "a delete of the range",
        &[FIRST, TIME, ONE, TRIPLE, DOT, ZERO],
        1,
    ),
    (
        "an insert before the range",
        &[SECOND, LATER, ZERO, ONE, TRIPLE, ONE],
        1,
    ),
    (
        "an insert behind the range",
        &[FIRST, TIME, ZERO, ONE, TRIPLE, TWO],
        1,
    ),
];

// These pieces joined.
fn joined(alloc: Global, pieces: &[&[u8]]) -> Result<Box<Vec<u8>>, AllocError> {
    let mut all = Box::new(alloc, Vec::new(alloc))?;
    for piece in pieces {
        all.extend_from_slice(piece)?;
    }
    Ok(all)
}

// Whether reading this message stops at this place.
fn stops_at(alloc: Global, input: &[u8], place: usize) -> bool {
    read_message(alloc, input, 0).err() == Some(CodecFault::NotInGrammar { place })
}

#[test]
fn faults_have_their_places(rt: HostRuntime) -> Result<(), Fail> {
    for (what, pieces, place) in FAULTS {
        let input = joined(rt.alloc(), pieces)?;
        assert!(rt; stops_at(rt.alloc(), &input, *place), "{what}");
    }
    Ok(())
}

// Whether these bytes are written for a copy of a message.
fn is_written_as(alloc: Global, message: &Message, wanted: &[u8]) -> Result<bool, AllocError> {
    let copy = Box::new(alloc, message.copy_in(alloc)?)?;
    if !is_short_message(&copy) {
        return Ok(false);
    }
    let mut out = Box::new(alloc, Vec::new(alloc))?;
    write_message(&mut out, &copy)?;
    Ok(out.as_slice() == wanted)
}

// Whether this message is read up to its end, and a copy of it is written as it was.
fn is_written_again(alloc: Global, input: &[u8]) -> Result<bool, CodecFault> {
    let (message, next) = read_message(alloc, input, 0)?;
    Ok(next == input.len() && is_written_as(alloc, &message, input)?)
}

#[test]
fn each_kind_of_message_is_read_copied_and_written(rt: HostRuntime) -> Result<(), Fail> {
    for pieces in MESSAGES {
        let input = joined(rt.alloc(), pieces)?;
        assert!(rt; is_written_again(rt.alloc(), &input)?);
    }
    Ok(())
}
