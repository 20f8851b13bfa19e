//! Streams that are read in pieces: their frames, and their faults.
use crate::frame_vectors::{GREETING, MESSAGE, SECOND, node_id};
use crate::made::boxed;
use mld_io::Piece;
use mld_ops::Message;
use std::alloc::{AllocError, Global};
use std::test::Fail;
use wire_frames::{Assembled, Assembly, AssemblyFault, Frame, FrameFault, Frames};

/// Whether this is the Hello of the node.
fn is_hello(frame: &Frame) -> bool {
    match frame {
        Frame::Hello(format, id, domain) => {
            *format == 1 && *id == node_id() && domain.as_str() == "d"
        }
        _other => false,
    }
}

/// Whether this message is the node's question for a leaf.
fn asks(message: &Message) -> bool {
    match message {
        Message::JoinAsk(id) => *id == node_id(),
        _other => false,
    }
}

/// Whether what an assembly gave is the question.
fn is_asked(added: &Result<Assembled, AssemblyFault>) -> bool {
    match added {
        Ok(Assembled::Whole(message)) => asks(message),
        _other => false,
    }
}

/// Whether an assembly makes the question of this frame.
fn is_question(alloc: Global, frame: &Frame) -> Result<bool, AllocError> {
    let Frame::Part(number, index, count, piece) = frame else {
        return Ok(false);
    };
    if piece.as_slice() != &GREETING[MESSAGE..] {
        return Ok(false);
    }
    let mut assembly = boxed(alloc, Assembly::new(alloc))?;
    let piece = Piece::copy_in(alloc, piece.as_slice())?;
    let added = boxed(alloc, assembly.add(*number, *index, *count, piece))?;
    Ok(is_asked(&added))
}

/// How many frames a stream gave, and whether they are the first ones of the greeting.
#[derive(Clone, Copy)]
struct Given {
    count: usize,
    greets: bool,
}

/// A stream that gave nothing yet.
const NOTHING: Given = Given {
    count: 0,
    greets: true,
};

/// Whether a frame is the one of this place in the greeting, which is a Hello and the question.
fn is_of_greeting(alloc: Global, place: usize, frame: &Frame) -> Result<bool, AllocError> {
    match place {
        0 => Ok(is_hello(frame)),
        1 => is_question(alloc, frame),
        _ => Ok(false),
    }
}

/// Counts the frames that a stream gave, and looks whether each is the next one of the greeting.
fn count_frames(alloc: Global, frames: &[Frame], given: &mut Given) -> Result<(), AllocError> {
    for frame in frames {
        let is_next = is_of_greeting(alloc, given.count, frame)?;
        given.greets &= is_next;
        given.count = given.count.saturating_add(1);
    }
    Ok(())
}

/// Reads a piece more, and counts its frames: what fault is behind them.
fn read_on(
    alloc: Global,
    reader: &mut Frames,
    piece: &[u8],
    given: &mut Given,
) -> Result<Option<FrameFault>, Fail> {
    if !reader.is_good() {
        return Err("a piece behind a fault".into());
    }
    let fed = boxed(alloc, reader.feed(piece)?)?;
    count_frames(alloc, &fed.frames, given)?;
    Ok(fed.fault)
}

/// Whether a reader gives the frames of the greeting where that is cut at a place, and behind it in pieces of so many bytes. Each frame
/// comes with its last byte.
fn reads_in(alloc: Global, reader: &mut Frames, at: usize, size: usize) -> Result<bool, Fail> {
    let (first, rest) = GREETING.split_at(at.min(GREETING.len()));
    let mut given = NOTHING;
    let mut fine = read_on(alloc, reader, first, &mut given)?.is_none();
    let due = usize::from(at >= SECOND) + usize::from(at >= GREETING.len());
    fine &= given.count == due;
    for piece in rest.chunks(size.max(1)) {
        fine &= read_on(alloc, reader, piece, &mut given)?.is_none();
    }
    Ok(fine && given.count == 2 && given.greets)
}

/// The same of a new reader.
fn is_read_in(alloc: Global, at: usize, size: usize) -> Result<bool, Fail> {
    let mut reader = boxed(alloc, Frames::new(alloc))?;
    reads_in(alloc, &mut reader, at, size)
}

#[test]
fn a_stream_may_be_cut_anywhere(rt: HostRuntime) -> Result<(), Fail> {
    for at in 0..62 {
        assert!(rt; is_read_in(rt.alloc(), at, 61)?, "{at}");
    }
    Ok(())
}

#[test]
fn a_stream_may_come_byte_by_byte(rt: HostRuntime) -> Result<(), Fail> {
    assert!(rt; is_read_in(rt.alloc(), 0, 1)?);
    Ok(())
}

/// A Hello, and then a frame of no kind.
const BAD_BEHIND: &[u8] = b"\x01\x00\x00\x00\x16\x01\
    \x00\x00\x00\x00\x00\x00\x40\x00\x80\x00\x00\x00\x00\x00\x00\x07\x00\x00\x00\x01d\
    \x09\x00\x00\x00\x00";

/// The fault of a bad frame at the front of a stream.
const IS_BAD: Option<FrameFault> = Some(FrameFault::BadFrame { place: 0 });

/// The fault of one that is too long there.
const IS_LONG: Option<FrameFault> = Some(FrameFault::TooLong { place: 0 });

/// What a stream is, its bytes, how many frames come first, whether they are those of the greeting, and the fault behind them.
type Stream = (&'static str, &'static [u8], usize, bool, Option<FrameFault>);

const STREAMS: &[Stream] = &[
    (
        "a Hello, and a frame of no kind",
        BAD_BEHIND,
        1,
        true,
        Some(FrameFault::BadFrame { place: 27 }),
    ),
    (
        "a frame of kind 0",
        b"\x00\x00\x00\x00\x01\x01",
        0,
        true,
        IS_BAD,
    ),
    (
        "a Hello of one byte",
        b"\x01\x00\x00\x00\x01\x01",
        0,
        true,
        IS_BAD,
    ),
    (
        "a Hello whose text is cut short",
        b"\x01\x00\x00\x00\x16\x010123456789abcdef\x00\x00\x00\x02d",
        0,
        true,
        IS_BAD,
    ),
    (
        "a Hello with a byte behind its text",
        b"\x01\x00\x00\x00\x16\x010123456789abcdef\x00\x00\x00\x00d",
        0,
        true,
        IS_BAD,
    ),
    (
        "a Hello whose text is no UTF-8",
        b"\x01\x00\x00\x00\x16\x010123456789abcdef\x00\x00\x00\x01\xff",
        0,
        true,
        IS_BAD,
    ),
    (
        "a part without bytes of a message",
        b"\x02\x00\x00\x00\x0c\x00\x00\x00\x00\x00\x00\x00\x00\x00\x00\x00\x01",
        0,
        true,
        IS_BAD,
    ),
    (
        "a refusal without a code",
        b"\x06\x00\x00\x00\x00",
        0,
        true,
        IS_BAD,
    ),
    (
        "a refusal with two codes",
        b"\x06\x00\x00\x00\x02\x01\x01",
        0,
        true,
        IS_BAD,
    ),
    (
        "a Hello of 1,048,589 bytes",
        b"\x01\x00\x10\x00\x0d",
        0,
        true,
        IS_LONG,
    ),
    (
        "a frame of no kind that is too long",
        b"\x09\xff\xff\xff\xff",
        0,
        true,
        IS_LONG,
    ),
    (
        "a Hello of another format",
        b"\x01\x00\x00\x00\x16\x020123456789abcdef\x00\x00\x00\x01d",
        1,
        false,
        None,
    ),
    (
        "a Hello whose text is no name of a domain",
        b"\x01\x00\x00\x00\x16\x010123456789abcdef\x00\x00\x00\x01/",
        1,
        false,
        None,
    ),
    (
        "a request and replies without bytes",
        b"\x03\x00\x00\x00\x00\x04\x00\x00\x00\x00\x05\x00\x00\x00\x00",
        3,
        false,
        None,
    ),
    (
        "the header of a request that is as long as may be",
        b"\x03\x00\x10\x00\x0c",
        0,
        true,
        None,
    ),
];

/// Whether a reader gives so many frames, and then this fault, which the stream's last byte tells; or none.
fn gives(
    alloc: Global,
    reader: &mut Frames,
    (_what, bytes, count, greets, wanted): Stream,
) -> Result<bool, Fail> {
    let (front, last) = bytes.split_at(bytes.len().saturating_sub(1));
    let mut given = NOTHING;
    let early = read_on(alloc, reader, front, &mut given)?;
    let fault = read_on(alloc, reader, last, &mut given)?;
    let told = early.is_none() && fault == wanted && reader.is_good() == wanted.is_none();
    Ok(told && given.count == count && given.greets == greets)
}

/// The same of a new reader.
fn is_given(alloc: Global, stream: Stream) -> Result<bool, Fail> {
    let mut reader = boxed(alloc, Frames::new(alloc))?;
    gives(alloc, &mut reader, stream)
}

#[test]
fn streams_have_frames_and_then_a_fault(rt: HostRuntime) -> Result<(), Fail> {
    for stream in STREAMS {
        let what = stream.0;
        assert!(rt; is_given(rt.alloc(), *stream)?, "{what}");
    }
    Ok(())
}
