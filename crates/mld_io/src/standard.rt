//! Sources and sinks over the readers and writers of std.
ghost use Rattle.std.specs.Prelude.{◌≡◌, ◌≢◌, []};
ghost use Rattle.std.specs.Io.{ReadsAtMost};
ghost use Rattle.std.specs.Io.KnownBytes.{ReadConsumes};
ghost use Rattle.mld_io.specs.Faults.{HasCause, HasSinkCause};
ghost use Rattle.mld_io.specs.Standard.{source_reader, bytes_ahead, reader_left, reader_faults, writer_held, writer_faults, TellsRead, TellsWrite};

use crate::faults::{Failed, IoFault};
use crate::read_ahead::ReadAhead;
use crate::sinks::Sink;
use crate::sources::Source;
use std::io;
use std::io::{Read, Write};

/// The source over a reader, which need not be buffered: the source reads ahead as many bytes as
/// the reader gives at once. It tells the bytes that the reader tells.
#[derive(Debug, Drop)]
pub struct StdSource<R> {
    reader: R,
    ahead: ReadAhead,
    faults: u64,
}

impl<R: Read + Drop> StdSource<R> {
    /// The source over this reader, with nothing read and no fault so far.
    pub fn new(reader: R) -> StdSource<R>
        ensures left { reader_left R.remaining result ≡ R.remaining reader }
        ensures faults { reader_faults result ≡ 0 }
    {
        StdSource {
            reader,
            ahead: ReadAhead::new(),
            faults: 0,
        }
    }
}

impl<R: Read + Drop> Source for StdSource<R> {
    ghost left = { reader_left R.remaining };

    ghost faults = { reader_faults };

    /// Gives bytes that were read ahead, and reads only where there are none.
    #[inline(always)]
    fn read(&mut self, out: &mut [u8]) -> Result<usize, Failed>
        ensures bound { ReadsAtMost result out.new }
        ensures bytes { ReadConsumes (reader_left R.remaining self.old) (reader_left R.remaining self.new)
            result out.new }
        ensures cause { HasCause (reader_faults self.old) (reader_faults self.new) result }
        ensures frugal { bytes_ahead self.old ≢ [] → source_reader self.new ≡ source_reader self.old }
    {
        if self.ahead.is_empty() {
            self.ahead.fill(&mut self.reader, &mut self.faults)?;
        }
        Ok(self.ahead.give(out))
    }
}

/// Tells a read of std: the count that it answered, where 0 is the end, or its failure, which is
/// counted.
pub fn tell_read(answer: io::Result<usize>, faults: &mut u64) -> Result<usize, Failed>
    ensures told { TellsRead answer faults.old result faults.new }
    ensures cause { HasCause faults.old faults.new result }
{
    match answer {
        Ok(count) => Ok(count),
        Err(_) => {
            *faults = faults.saturating_add(1);
            Err(Failed)
        }
    }
}

/// The sink over a writer, which should not be buffered. It tells the bytes that the writer tells.
#[derive(Debug, Drop)]
pub struct StdSink<W> {
    writer: W,
    faults: u64,
}

impl<W: Write + Drop> StdSink<W> {
    /// The sink over this writer, with no fault so far.
    pub fn new(writer: W) -> StdSink<W>
        ensures held { writer_held W.contents result ≡ W.contents writer }
        ensures faults { writer_faults result ≡ 0 }
    {
        StdSink { writer, faults: 0 }
    }
}

impl<W: Write + Drop> Sink for StdSink<W> {
    ghost held = { writer_held W.contents };

    ghost faults = { writer_faults };

    /// Gives the writer the whole piece, and answers how much of it the writer took.
    fn write(&mut self, piece: &[u8]) -> Result<usize, IoFault> {
        let answer = self.writer.write(piece);
        tell_write(answer, piece.len(), &mut self.faults)
    }
}

/// Tells a write of std of so many bytes: the count that it answered, or its failure, which is
/// counted. A writer that took none of a piece that is not empty has failed.
fn tell_write(answer: io::Result<usize>, size: usize, faults: &mut u64) -> Result<usize, IoFault>
    ensures told { TellsWrite answer size faults.old result faults.new }
    ensures cause { HasSinkCause faults.old faults.new result }
{
    match answer {
        Ok(count) if count > 0 || size == 0 => Ok(count),
        _ => {
            *faults = faults.saturating_add(1);
            Err(IoFault::Failed)
        }
    }
}
