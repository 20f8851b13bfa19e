//! One run of the shell over a transcript, from memory into memory.
ghost use Rattle.std.specs.Prelude.{◌≡◌};

use crate::settings::{are_settings, are_sides, banks_of, sink_of, source_of, words_of};
use disk_model::MemoryBanks;
use mld_io::{MemorySink, MemorySource, Side};
use shell_run::run::{ShellFault, ShellRan, shell};
use std::alloc::{Alloc, AllocError, Global};
use std::io::{self, Print};
use std::thread::Threads;
use transcripts::{RunEnd, Transcript, has_end, has_side, has_text, read_transcript};

/// Runs the transcript of a text; whether its run is as it says. What differs is written.
pub fn does<R: Print + Threads + Sync + Alloc<A = Global>>(
    rt: &R,
    name: &str,
    text: &str,
) -> io::Result<bool> {
    match read_transcript(text) {
        Ok(transcript) => is_as_wanted(rt, name, &transcript),
        Err(fault) => {
            println!(rt; "{name}: {fault}")?;
            Ok(false)
        }
    }
}

/// Gives the lines of a transcript to the shell; whether all is as it says. What differs is written.
fn is_as_wanted<R: Print + Threads + Sync + Alloc<A = Global>>(
    rt: &R,
    name: &str,
    transcript: &Transcript<'_>,
) -> io::Result<bool> {
    if !are_settings(transcript.head) || !are_sides(transcript.behind) {
        println!(rt; "{name}: a line before what is given or behind the end can't be read")?;
        return Ok(false);
    }
    let mut sink = sink_of(rt.alloc(), transcript.head)?;
    let ran = shell_ran(rt, rt.alloc(), transcript, &mut sink)?;
    compare(rt, name, transcript, sink.bytes(), &ran)
}

/// Runs the shell over the lines and the device of a transcript, into a sink.
fn shell_ran<R: Threads + Sync>(
    rt: &R,
    alloc: Global,
    transcript: &Transcript<'_>,
    sink: &mut MemorySink,
) -> Result<Box<ShellRan<MemoryBanks>>, AllocError> {
    let mut source = source_of(alloc, transcript)?;
    let words = words_of(alloc, transcript.head)?;
    ran_over(rt, alloc, &words, &mut source, sink, transcript.head)
}

/// Runs the shell with these words over this source and the device that is told.
fn ran_over<R: Threads + Sync>(
    rt: &R,
    alloc: Global,
    words: &Vec<String>,
    source: &mut MemorySource,
    sink: &mut MemorySink,
    head: &str,
) -> Result<Box<ShellRan<MemoryBanks>>, AllocError> {
    let banks = banks_of(alloc, head)?;
    Ok(Box::new(alloc, shell(rt, alloc, words, source, sink, banks))?)
}

/// Whether a run did as its transcript says. What differs is written.
fn compare<R: Print + Alloc<A = Global>>(
    rt: &R,
    name: &str,
    transcript: &Transcript<'_>,
    written: &[u8],
    ran: &ShellRan<MemoryBanks>,
) -> io::Result<bool> {
    let text = has_text(rt, name, transcript, written)?;
    let ends = has_end(rt, name, transcript.end, end_of_run(ran.status, ran.fault))?;
    let a = has_side(rt, name, transcript.behind, "a", ran.banks.bytes(Side::A))?;
    let b = has_side(rt, name, transcript.behind, "b", ran.banks.bytes(Side::B))?;
    Ok(text && ends && a && b)
}

/// How a run ended that has this status and this fault.
fn end_of_run(status: u8, fault: Option<ShellFault>) -> RunEnd
    ensures status { result.status ≡ status }
{
    RunEnd {
        status,
        line: match fault {
            Some(ShellFault::TooLarge(line)) => Some(line),
            _ => None,
        },
    }
}
