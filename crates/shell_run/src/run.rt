//! The run: all that the shell does, over the words, the source, the sink and the banks that it is handed.
ghost use Rattle.std.specs.Prelude.{◌≡◌, ◌≢◌, map, Some};
ghost use Rattle.std.specs.String.{string_bytes};
ghost use Rattle.input_lines.specs.InputFaults.{RoseJustWhere};
ghost use Rattle.input_lines.specs.Taken.{WhereTold};
ghost use Rattle.input_lines.specs.Untouched.{AreUntouched};
ghost use Rattle.shell_run.specs.FolderWords.{AreRefusedWords};
ghost use Rattle.shell_session.specs.SessionLines.{Meters};
ghost use Rattle.shell_session.specs.RunEnds.{TellsUsage, IfFound};
ghost use Rattle.shell_run.specs.Inputs.{IsReadSo};
ghost use Rattle.shell_run.specs.ShellEnds.{ShellEnds};
ghost use Rattle.shell_run.specs.ShellStatuses.{shell_status, fault_of_words, fault_of_line, shell_fault_of_input, shell_fault_of_write};

use crate::faults::FolderFault;
use crate::folder::read_folder;
use input_lines::{INPUT_LIMIT, InputFault, LINE_LIMIT, next_line};
use mld_io::{Banks, Lines, Sink, Source, WriteFault, write_all};
use shell_session::{Session, SessionFault};
use std::alloc::{AllocError, Global};
use std::thread::Threads;
use thiserror::Error;

/// Why a run of the shell ended before its input did.
#[derive(Clone, Copy, Debug, PartialEq, Eq, Error)]
pub enum ShellFault {
    /// The words don't name a folder.
    #[error("usage")]
    Usage,
    /// The source failed.
    #[error("read fault")]
    ReadFault,
    /// The sink failed.
    #[error("write fault")]
    WriteFault,
    /// No memory was found.
    #[error("no memory")]
    NoMemory,
    /// The banks failed.
    #[error("device fault")]
    Device,
    /// The line of this number is too large.
    #[error("line {0}: too large")]
    TooLarge(u64),
}

/// How a run of the shell ended.
#[derive(Drop)]
pub struct ShellRan<B> {
    /// The status of the program.
    pub status: u8,
    /// Why it isn't 0.
    pub fault: Option<ShellFault>,
    /// The banks; no clone is live on them.
    pub banks: B,
}

/// Does all that the program does: over banks that keep at most one clone it reads lines from the source, and writes the reply of each to
/// the sink. The words name the folder of the banks; where they don't, nothing is done.
///
/// # Statuses
/// 0: the source was read to its end. 1: the words don't name one folder; nothing is read or written, and no bank is called. 2: the
/// source failed; the lines whose LF was read are done. 3: the sink failed. 5: no memory. 6: the banks failed. 7: a line is too large. A
/// line outside the grammar is answered as such. Each line is answered before the next is read. A clone that is live at the end is
/// stopped.
pub fn shell<R: Threads + Sync, S: Source, K: Sink, B: Banks>(
    rt: &R,
    alloc: Global,
    words: &Vec<String>,
    source: &mut S,
    sink: &mut K,
    banks: B,
) -> ShellRan<B>
    ensures status { result.status ≡ shell_status result.fault }
    ensures usage { TellsUsage ShellFault.Usage ShellFault.NoMemory result.fault
        (AreRefusedWords (map (λ w. string_bytes w) words.now.items)) }
    // At 1 nothing is read or written, and no bank is called.
    ensures untouched { result.fault ≡ Some ShellFault.Usage → AreUntouched source.old source.new sink.old sink.new }
    ensures same_banks { result.fault ≡ Some ShellFault.Usage → result.banks ≡ banks }
    // How far a source that tells its bytes was read, whatever the banks tell. 0: to its end, and no line is too large. 7: the line of the
    // number is the first that is, and nothing was read behind the byte that makes it so. 2: no more than a part of one line was read
    // behind those whose LF was, and that isn't too large so far. 3 and 6: the line under way is the last that was read, and what is behind it is left. 5: either of these. 1: none was.
    ensures input { WhereTold (S.left source.old) (IsReadSo result.fault (S.left source.new)) }
    // How the run ended over banks that tell their log: the lines that it did are a run of the model's shell over what was found on the banks
    // at first, and where the source tells its bytes they are these.
    //
    // 0: all, and the source is at its end. 7: those before the first that is too large. 2: those whose LF was read. The text of all of
    // them was written, and the banks keep what they led to. 6: those before the one under way, whose text was written. 3: the line under
    // way was done too, and of its reply a front was written. 5: any of these.
    //
    // Where the same was found on all that a crash might have left at first, so it is at each moment of what a front of the run's durable
    // steps makes of that; and in the end of what all steps of the lines that were answered make, and a front of those under way.
    ensures ends { IfFound (B.log banks) (λ found. ShellEnds result.fault found (S.left source.new) (record {
      given = S.left source.old;
      before = K.held sink.old;
      after = K.held sink.new;
      old = B.log banks;
      now = B.log result.banks;
    })) }
    // 6 comes just where the banks had a fault, which was a real one if they aren't armed.
    ensures meter { Meters (B.meter banks) (B.meter result.banks) (result.fault ≡ Some ShellFault.Device) }
    // 2 comes just where the source had a fault, and 3 where the sink had one.
    ensures reads { RoseJustWhere (result.fault ≡ Some ShellFault.ReadFault)
        (S.faults source.old) (S.faults source.new) }
    ensures writes { RoseJustWhere (result.fault ≡ Some ShellFault.WriteFault)
        (K.faults sink.old) (K.faults sink.new) }
{
    if let Err(fault) = read_folder(alloc, words) {
        return end_run(Some(words_fault(fault)), banks);
    }
    do_lines(rt, alloc, source, sink, banks)
}

/// Ends a run by this fault, or well, and gives back these banks.
fn end_run<B>(fault: Option<ShellFault>, banks: B) -> ShellRan<B>
    ensures status { result.status ≡ shell_status fault }
    ensures fault { result.fault ≡ fault }
    ensures banks { result.banks ≡ banks }
{
    ShellRan {
        status: status_of(fault),
        fault,
        banks,
    }
}

/// The status of the program for the way in which a run ended.
fn status_of(fault: Option<ShellFault>) -> u8
    ensures { result ≡ shell_status fault }
{
    match fault {
        None => 0,
        Some(ShellFault::Usage) => 1,
        Some(ShellFault::ReadFault) => 2,
        Some(ShellFault::WriteFault) => 3,
        Some(ShellFault::NoMemory) => 5,
        Some(ShellFault::Device) => 6,
        Some(ShellFault::TooLarge(_)) => 7,
    }
}

/// Why words were not read.
fn words_fault(fault: FolderFault) -> ShellFault
    ensures { result ≡ fault_of_words fault }
{
    match fault {
        FolderFault::Usage => ShellFault::Usage,
        FolderFault::NoMemory => ShellFault::NoMemory,
    }
}

/// Does the lines of the source, one after another.
fn do_lines<R: Threads + Sync, S: Source, K: Sink, B: Banks>(
    rt: &R,
    alloc: Global,
    source: &mut S,
    sink: &mut K,
    banks: B,
) -> ShellRan<B>
    ensures status { result.status ≡ shell_status result.fault }
    ensures begun { result.fault ≢ Some ShellFault.Usage }
    ensures input { WhereTold (S.left source.old) (IsReadSo result.fault (S.left source.new)) }
    ensures ends { IfFound (B.log banks) (λ found. ShellEnds result.fault found (S.left source.new) (record {
      given = S.left source.old;
      before = K.held sink.old;
      after = K.held sink.new;
      old = B.log banks;
      now = B.log result.banks;
    })) }
    ensures meter { Meters (B.meter banks) (B.meter result.banks) (result.fault ≡ Some ShellFault.Device) }
    ensures reads { RoseJustWhere (result.fault ≡ Some ShellFault.ReadFault)
        (S.faults source.old) (S.faults source.new) }
    ensures writes { RoseJustWhere (result.fault ≡ Some ShellFault.WriteFault)
        (K.faults sink.old) (K.faults sink.new) }
{
    let mut session = Session::new(banks);
    let mut lines = match Lines::new(alloc, LINE_LIMIT, INPUT_LIMIT) {
        Ok(lines) => lines,
        Err(AllocError) => return end_run(Some(ShellFault::NoMemory), session.into_banks()),
    };
    let mut reply = Vec::new(alloc);
    let mut done = 0;
    loop {
        let line = match next_line(&mut lines, source, done + 1) {
            Ok(Some(line)) => line,
            Ok(None) => return end_run(None, session.into_banks()),
            Err(fault) => return end_run(Some(input_fault(fault)), session.into_banks()),
        };
        done += 1;
        reply.clear();
        session = match session.line(rt, alloc, line.as_slice(), &mut reply) {
            Ok(session) => session,
            Err((fault, banks)) => return end_run(Some(line_fault(fault)), banks),
        };
        if let Err(fault) = write_all(sink, reply.as_slice()) {
            return end_run(Some(write_fault(fault)), session.into_banks());
        }
    }
}

/// Why a line was not done.
fn line_fault(fault: SessionFault) -> ShellFault
    ensures { result ≡ fault_of_line fault }
{
    match fault {
        SessionFault::Device => ShellFault::Device,
        SessionFault::NoMemory => ShellFault::NoMemory,
    }
}

/// Why there is no next line.
fn input_fault(fault: InputFault) -> ShellFault
    ensures { result ≡ shell_fault_of_input fault }
{
    match fault {
        InputFault::ReadFault => ShellFault::ReadFault,
        InputFault::TooLarge(line) => ShellFault::TooLarge(line),
        InputFault::NoMemory => ShellFault::NoMemory,
    }
}

/// Why a reply was not written whole.
fn write_fault(fault: WriteFault) -> ShellFault
    ensures { result ≡ shell_fault_of_write fault }
{
    match fault {
        WriteFault::Failed => ShellFault::WriteFault,
        WriteFault::NoMemory => ShellFault::NoMemory,
    }
}
