//! Lines, sources and sinks, tried by fakes.
use crate::made::boxed;
use mld_io::{
    IoFault, LineFault, Lines, MemorySink, MemorySource, Piece, Sink, Source, StdSink, StdSource,
    WriteFault, write_all,
};
use std::alloc::{AllocError, Global};
use std::io;
use std::io::Read;
use std::test::Fail;

/// Whether a reader of lines gave this line, or told the end where none is wanted.
fn is_line(next: &Result<Option<Piece>, LineFault>, wanted: Option<&[u8]>) -> bool {
    match next {
        Ok(Some(line)) => wanted == Some(line.as_slice()),
        Ok(None) => wanted.is_none(),
        Err(_) => false,
    }
}

/// Whether the next line is this one, or there is none.
fn is_next<S: Source>(lines: &mut Lines, source: &mut S, wanted: Option<&[u8]>) -> bool {
    if !lines.is_good() {
        return false;
    }
    is_line(&lines.next(source), wanted)
}

/// Whether there is no next line for this fault.
fn stops<S: Source>(lines: &mut Lines, source: &mut S, wanted: LineFault) -> bool {
    if !lines.is_good() {
        return false;
    }
    let told = matches!(&lines.next(source), Err(fault) if *fault == wanted);
    told && !lines.is_good()
}

/// Whether these are the lines, and behind them is the end, also when asked again, or this fault.
fn are_lines<S: Source>(
    lines: &mut Lines,
    source: &mut S,
    wanted: &[&[u8]],
    fault: Option<LineFault>,
) -> bool {
    for line in wanted {
        if !is_next(lines, source, Some(line)) {
            return false;
        }
    }
    match fault {
        None => is_next(lines, source, None) && is_next(lines, source, None),
        Some(fault) => stops(lines, source, fault),
    }
}

/// The bytes of a source and the call that fails; the limits of a line and of the input; the lines, and the fault behind them.
type Reading = (
    &'static [u8],
    u64,
    usize,
    u64,
    &'static [&'static [u8]],
    Option<LineFault>,
);

const READINGS: &[Reading] = &[
    (b"a\r\n\nb", 100, 2, 5, &[b"a\r", b"", b"b"], None),
    // Calls 0 and 1 give bytes, call 2 the end, and no call comes behind it.
    (b"ab", 3, 10, 10, &[b"ab"], None),
    // A read fails in mid-line.
    (b"ab\ncd\n", 4, 10, 10, &[b"ab"], Some(LineFault::ReadFault)),
    // A line and an input that are as long as may be, and one byte longer.
    (b"abc\n", 100, 3, 4, &[b"abc"], None),
    (b"abcd\n", 100, 3, 100, &[], Some(LineFault::TooLarge)),
    (b"abc\n", 100, 3, 3, &[], Some(LineFault::TooLarge)),
];

/// A reader of lines, with these limits of a line and of the input.
fn reader(alloc: Global, line: usize, all: u64) -> Result<Box<Lines>, AllocError> {
    boxed(alloc, Lines::new(alloc, line, all)?)
}

/// Whether a source of these bytes is read so.
fn is_read_so(
    alloc: Global,
    (bytes, failing, line, all, wanted, fault): Reading,
) -> Result<bool, AllocError> {
    let mut lines = reader(alloc, line, all)?;
    let mut source = boxed(alloc, MemorySource::new(alloc, bytes, &[failing])?)?;
    Ok(are_lines(&mut lines, &mut *source, wanted, fault))
}

#[test]
fn lines_are_read_up_to_the_end_or_a_fault(rt: HostRuntime) -> Result<(), Fail> {
    for reading in READINGS {
        assert!(rt; is_read_so(rt.alloc(), *reading)?);
    }
    Ok(())
}

/// A reader that gives three bytes by its first and its third read, fails at its second one, and
/// then is at its end.
#[derive(Debug, Drop)]
struct Pieces {
    reads: usize,
}

impl Read for Pieces {
    fn read(&mut self, out: &mut [u8]) -> io::Result<usize> {
        let read = self.reads;
        self.reads = read.saturating_add(1);
        let piece = match read {
            0 => b"a\nb",
            1 => return Err(io::Error::from(io::ErrorKind::Other)),
            2 => b"cd\n",
            _ => return Ok(0),
        };
        if out.len() < 3 {
            return Ok(0);
        }
        out[..3].copy_from_slice(piece);
        Ok(3)
    }
}

/// Whether the lines of a reader of the standard library are read.
fn reads_lines(alloc: Global) -> Result<bool, AllocError> {
    let mut lines = reader(alloc, 10, 10)?;
    let mut source = StdSource::new(b"x\ny".as_slice());
    Ok(is_next(&mut lines, &mut source, Some(b"x")) && is_next(&mut lines, &mut source, Some(b"y")))
}

/// Whether there is no line of a reader that fails.
fn stops_at_once(alloc: Global) -> Result<bool, AllocError> {
    let mut lines = reader(alloc, 10, 10)?;
    let mut source = StdSource::new(Pieces { reads: 1 });
    Ok(stops(&mut lines, &mut source, LineFault::ReadFault))
}

#[test]
fn readers_of_std_are_sources(rt: HostRuntime) -> Result<(), Fail> {
    assert!(rt; reads_lines(rt.alloc())?);
    assert!(rt; stops_at_once(rt.alloc())?);
    Ok(())
}

/// Whether one read gives these bytes, or fails.
fn gives<S: Source>(source: &mut S, wanted: Option<&[u8]>) -> bool {
    let mut out = [0u8; 9];
    match source.read(&mut out) {
        Ok(count) => wanted == Some(&out[..count]),
        Err(_) => wanted.is_none(),
    }
}

// What the reader gives behind its first line, where it fails once.
const BEHIND: &[Option<&[u8]>] = &[Some(b"b"), None, Some(b"cd\n"), Some(b"")];

/// Whether a source gives these pieces, or fails.
fn gives_each<S: Source>(source: &mut S, wanted: &[Option<&[u8]>]) -> bool {
    for piece in wanted {
        if !gives(source, *piece) {
            return false;
        }
    }
    true
}

/// Whether a line is read from the reader, and then what is behind it.
fn reads_ahead(alloc: Global) -> Result<bool, AllocError> {
    let mut lines = reader(alloc, 10, 10)?;
    let mut source = StdSource::new(Pieces { reads: 0 });
    Ok(is_next(&mut lines, &mut source, Some(b"a")) && gives_each(&mut source, BEHIND))
}

#[test]
fn what_was_read_ahead_is_given_before_a_reader_is_read_again(rt: HostRuntime) -> Result<(), Fail> {
    assert!(rt; reads_ahead(rt.alloc())?);
    Ok(())
}

/// A sink that takes at most two bytes of a piece.
#[derive(Debug, Drop)]
struct Short {
    inner: MemorySink,
}

impl Sink for Short {
    ghost use Rattle.std.specs.Prelude.{None};

    ghost held = { λ s. None };

    ghost faults = { λ s. s.inner.faults };

    fn write(&mut self, piece: &[u8]) -> Result<usize, IoFault> {
        let count = piece.len().min(2);
        self.inner.write(&piece[..count])
    }
}

/// Whether the sink takes a piece, and fails at another.
fn takes_one<K: Sink>(sink: &mut K, piece: &[u8], refused: &[u8]) -> bool {
    write_all(sink, b"").is_ok()
        && write_all(sink, piece).is_ok()
        && matches!(write_all(sink, refused), Err(WriteFault::Failed))
}

/// Whether a sink takes a piece by one call, and fails at its second one.
fn takes_whole(alloc: Global) -> Result<bool, AllocError> {
    let mut sink = boxed(alloc, MemorySink::new(alloc, &[1])?)?;
    Ok(takes_one(&mut *sink, b"one piece", b"x") && sink.bytes() == b"one piece".as_slice())
}

/// Whether a sink takes pieces in parts, and fails at its fourth call.
fn takes_parts(alloc: Global) -> Result<bool, AllocError> {
    let inner = MemorySink::new(alloc, &[3])?;
    let mut sink = boxed(alloc, Short { inner })?;
    Ok(takes_one(&mut *sink, b"abc", b"defgh") && sink.inner.bytes() == b"abcde".as_slice())
}

/// Whether a writer of the standard library takes pieces until it is full.
fn takes_until_full() -> bool {
    let mut room = [0u8; 3];
    let taken = takes_one(&mut StdSink::new(room.as_mut_slice()), b"ab", b"cd");
    taken && room == *b"abc"
}

#[test]
fn sinks_take_pieces_and_fail(rt: HostRuntime) -> Result<(), Fail> {
    assert!(rt; takes_whole(rt.alloc())?);
    assert!(rt; takes_parts(rt.alloc())?);
    assert!(rt; takes_until_full());
    Ok(())
}

/// Whether a piece tells its length, and has its bytes.
fn has_bytes(alloc: Global) -> Result<bool, AllocError> {
    let piece = Piece::copy_in(alloc, b"abc")?;
    let sized = piece.len() == 3 && !piece.is_empty();
    let bytes = piece.into_vec();
    Ok(sized && bytes.as_slice() == b"abc".as_slice())
}

#[test]
fn a_piece_has_its_bytes(rt: HostRuntime) -> Result<(), Fail> {
    assert!(rt; has_bytes(rt.alloc())?);
    Ok(())
}
