//! One run of a transcript's schedule, from memory into memory.
ghost use Rattle.std.specs.Prelude.{◌≡◌};

use crate::agreeing::clones_agree;
use disk_model::{MemoryBanks, blank_banks};
use mld_io::{MemorySink, MemorySource};
use mld_model::CLONE_COUNT;
use mld_replay::run::{Ran, RunFault, run};
use std::alloc::{Alloc, AllocError, Global};
use std::io::{self, Print};
use std::thread::Threads;
use transcripts::{RunEnd, Transcript, has_end, has_text, put_given, read_transcript};

/// Replays the transcript of a text; whether its run is as it says. What differs is written.
pub fn replays<R: Print + Threads + Sync + Alloc<A = Global>>(
    rt: &R,
    name: &str,
    text: &str,
) -> io::Result<bool> {
    match read_transcript(text) {
        Ok(transcript) => is_as_wanted(rt, name, &transcript),
        Err(fault) => {
            println!(rt; "{name}: {fault}")?;
            Ok(false)
        }
    }
}

/// Runs a transcript's schedule; whether all is as it says. What differs is written.
fn is_as_wanted<R: Print + Threads + Sync + Alloc<A = Global>>(
    rt: &R,
    name: &str,
    transcript: &Transcript<'_>,
) -> io::Result<bool> {
    if !transcript.head.is_empty() || !transcript.behind.is_empty() {
        println!(rt; "{name}: lines stand before what is given, or behind the end")?;
        return Ok(false);
    }
    let mut sink = Box::new(rt.alloc(), MemorySink::new(rt.alloc(), &[])?)?;
    let ran = replayed(rt, rt.alloc(), transcript, &mut sink)?;
    compare(rt, name, transcript, sink.bytes(), &ran)
}

/// Replays a schedule into a sink.
fn replayed<R: Threads + Sync>(
    rt: &R,
    alloc: Global,
    transcript: &Transcript<'_>,
    sink: &mut MemorySink,
) -> Result<Box<Ran<MemoryBanks>>, AllocError> {
    let mut source = source_of(alloc, transcript)?;
    let words = replay_words(alloc)?;
    let banks = blank_banks(alloc, usize::from(CLONE_COUNT))?;
    Ok(Box::new(alloc, run(rt, alloc, &words, &mut *source, sink, banks))?)
}

/// What gives a transcript's schedule.
fn source_of(alloc: Global, transcript: &Transcript<'_>) -> Result<Box<MemorySource>, AllocError> {
    let mut given = Vec::new(alloc);
    put_given(&mut given, transcript)?;
    Ok(Box::new(alloc, MemorySource::new(alloc, given.as_slice(), &[])?)?)
}

/// The words of a program that replays.
fn replay_words(alloc: Global) -> Result<Box<Vec<String>>, AllocError> {
    let mut words = Vec::new(alloc);
    words.push(String::from_str(alloc, "replay")?)?;
    Ok(Box::new(alloc, words)?)
}

/// Whether a run did as its transcript says. What differs is written.
fn compare<R: Print>(
    rt: &R,
    name: &str,
    transcript: &Transcript<'_>,
    written: &[u8],
    ran: &Ran<MemoryBanks>,
) -> io::Result<bool> {
    let text = has_text(rt, name, transcript, written)?;
    let ends = has_end(rt, name, transcript.end, end_of_run(ran.status, ran.fault))?;
    let agrees = has_agreement(rt, name, ran)?;
    Ok(text && ends && agrees)
}

/// How a run ended that has this status and this fault.
fn end_of_run(status: u8, fault: Option<RunFault>) -> RunEnd
    ensures status { result.status ≡ status }
{
    RunEnd {
        status,
        line: match fault {
            Some(RunFault::BadLine(line) | RunFault::TooLarge(line)) => Some(line),
            _ => None,
        },
    }
}

/// Whether clones that know the same dots have the same pairs. Where they don't, that is written.
fn has_agreement<R: Print>(rt: &R, name: &str, ran: &Ran<MemoryBanks>) -> io::Result<bool> {
    let Some(summary) = &ran.world else {
        return Ok(true);
    };
    if clones_agree(summary) {
        return Ok(true);
    }
    println!(rt; "{name}: clones that know the same dots have different pairs")?;
    Ok(false)
}
