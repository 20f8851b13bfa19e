//! The lines of a source.
ghost use Rattle.std.specs.Prelude.{◌≡◌, ℕ, ◌+◌, ◌-◌, ◌≤◌, List, length, true, false, None, Some, Ok, IsTrue, IfOk, IfSome, is_ok};
ghost use Rattle.mld_io.specs.Faults.{HasCause, HasLineCause};
ghost use Rattle.mld_io.specs.Lines.{NextLine, Progresses, TakesAtMost};
ghost use Rattle.mld_io.specs.Lines.{FirstOfLines};
ghost use Rattle.mld_io.specs.Reads.{TakesByte};

use crate::faults::{Failed, LineFault};
use crate::pieces::Piece;
use crate::sources::Source;
use std::alloc::{AllocError, Global};
use std::marker::Model;

/// The byte that ends a line.
const LF: u8 = b'\n';

/// The room that a line has from the start, where its limit allows it: most lines fit it.
const LINE_ROOM: usize = 128;

/// A reader of lines, under a limit in bytes of each line and one of the whole input.
#[derive(Debug, Drop)]
pub struct Lines {
    alloc: Global,
    line: usize,
    all: u64,
    taken: u64,
    good: bool,
    ended: bool,
}

impl Model for Lines {
    ghost use Rattle.std.specs.Prelude.{◌≤◌};
    ghost use Rattle.mld_io.specs.Lines.{LinesValue};

    ghost Value = { LinesValue };

    ghost view = { λ l. record { line = l.line; all = l.all; taken = l.taken; good = l.good; ended = l.ended } };

    ghost invariant = { λ l. l.taken ≤ l.all };
}

impl Lines {
    /// A reader of lines of at most `line` bytes, an LF not counted, of an input of at most `all`
    /// bytes, each LF counted.
    pub fn new(alloc: Global, line: usize, all: u64) -> Result<Lines, AllocError>
        ensures { IfOk result (λ l. l ≡ record { line = line; all = all; taken = 0; good = true; ended = false }) }
    {
        Ok(Lines {
            alloc,
            line,
            all,
            taken: 0,
            good: true,
            ended: false,
        })
    }

    /// Whether no call has failed so far.
    pub fn is_good(&self) -> bool
        ensures { result ≡ self.now.good }
    {
        self.good
    }

    /// Takes the next line from the source, its LF included, and gives it without that LF. The
    /// last line may lack one. `None` says that the input is at its end. Nothing past that LF is
    /// taken, and one byte at most past the limit of the input. Once the source has told its end,
    /// by an answer of 0, it is not read again.
    ///
    /// # Errors
    ///
    /// `TooLarge` where the line is longer than the limit of a line, or ends past the limit of the
    /// input, `ReadFault` where a read failed, and `NoMemory`. No call may follow.
    pub fn next<S: Source>(&mut self, source: &mut S) -> Result<Option<Piece>, LineFault>
        requires { IsTrue self.old.good }
        ensures line_limit { self.new.line ≡ self.old.line }
        ensures all_limit { self.new.all ≡ self.old.all }
        ensures good { self.new.good ≡ is_ok result }
        ensures progress { Progresses result self.old.taken self.new.taken self.old.all }
        ensures short { IfOk result (λ next. IfSome next (λ piece. length piece ≤ self.old.line)) }
        ensures line { self.old.ended ≡ false → (bytes : List ℕ) → S.left source.old ≡ Some bytes
            → NextLine self.old bytes result self.new.taken self.new.ended (S.left source.new) }
        ensures end { IfOk result (λ next. next ≡ None → IsTrue self.new.ended) }
        ensures ended { IsTrue self.old.ended → (result ≡ Ok None) × (source.new ≡ source.old) × (self.new ≡ self.old) }
        ensures frugal { (bytes : List ℕ) → S.left source.old ≡ Some bytes
            → TakesAtMost bytes (S.left source.new) ((self.old.all - self.old.taken) + 1) }
        ensures cause { HasLineCause (S.faults source.old) (S.faults source.new) result }
    {
        if self.ended {
            return Ok(None);
        }
        let next = take_line(
            self.alloc,
            source,
            self.line,
            self.all,
            &mut self.taken,
            &mut self.ended,
        );
        self.good = next.is_ok();
        next
    }
}

/// Takes the next line from the source, and counts its bytes where it fits the limits. `ended` is
/// set where the source told its end.
fn take_line<S: Source>(
    alloc: Global,
    source: &mut S,
    line: usize,
    all: u64,
    taken: &mut u64,
    ended: &mut bool,
) -> Result<Option<Piece>, LineFault>
    requires within { taken.old ≤ all }
    requires goes_on { ended.old ≡ false }
    ensures progress { Progresses result taken.old taken.new all }
    ensures short { IfOk result (λ next. IfSome next (λ piece. length piece ≤ line)) }
    ensures line { (bytes : List ℕ) → S.left source.old ≡ Some bytes
        → NextLine (record { line = line; all = all; taken = taken.old; good = true; ended = false })
        bytes result taken.new ended.new (S.left source.new) }
    ensures end { IfOk result (λ next. next ≡ None → IsTrue ended.new) }
    ensures frugal { (bytes : List ℕ) → S.left source.old ≡ Some bytes
        → TakesAtMost bytes (S.left source.new) ((all - taken.old) + 1) }
    ensures cause { HasLineCause (S.faults source.old) (S.faults source.new) result }
{
    let room = all - *taken;
    let mut bytes = Vec::with_capacity(alloc, line.min(LINE_ROOM))?;
    let mut size = 0u64;
    while let Some(byte) = take_byte(source)? {
        if size == room {
            return Err(LineFault::TooLarge);
        }
        size += 1;
        if byte == LF {
            *taken += size;
            return Ok(Some(Piece::from_vec(bytes)));
        }
        if bytes.len() == line {
            return Err(LineFault::TooLarge);
        }
        bytes.push(byte)?;
    }
    *ended = true;
    if size == 0 {
        return Ok(None);
    }
    *taken += size;
    Ok(Some(Piece::from_vec(bytes)))
}

/// Takes one byte from the source, or finds its end.
fn take_byte<S: Source>(source: &mut S) -> Result<Option<u8>, Failed>
    ensures byte { (bytes : List ℕ) → S.left source.old ≡ Some bytes → TakesByte bytes result (S.left source.new) }
    ensures cause { HasCause (S.faults source.old) (S.faults source.new) result }
{
    let mut byte = [0u8; 1];
    match source.read(&mut byte) {
        Ok(0) => Ok(None),
        Ok(_) => Ok(Some(byte[0])),
        Err(fault) => Err(fault),
    }
}

/// The law of lines: the first line, and then the lines of what follows it.
pub fn first_of_lines()
    ensures { FirstOfLines }
{}
