//! `mld replay` reads a schedule of one shared graph and its clones from standard input, and writes the replies. `mld gen SEED N` runs the
//! schedule that a seed gives, and writes counts of it.
#![tactic(auto)]

use disk_model::{MemoryBanks, blank_banks};
use mld_io::{StdSink, StdSource};
use mld_model::CLONE_COUNT;
use mld_replay::run::{Ran, RunFault, end_run, run};
use std::alloc::{Alloc, Global};
use std::env::{self, Env};
use std::io::{self, ErrorKind, Input, Print};
use std::mem;
use std::process::ExitCode;
use std::thread::Threads;

fn main(rt: HostRuntime) -> ExitCode {
    let ran = match run_on_standard(&rt) {
        Ok(ran) => ran,
        Err(error) => end_run(Some(fault_before(&error)), Vec::new(rt.alloc()), None),
    };
    if let Some(fault) = &ran.fault {
        // Where standard error fails too, the status still tells.
        let _ = eprintln!(rt; "{fault}");
    }
    let status = ran.status;
    // The process ends here, and gives all memory back at once.
    mem::forget(ran);
    ExitCode::from(status)
}

/// The run over the words of the process, its standard input and its standard output.
fn run_on_standard<R: Alloc<A = Global> + Env + Input + Print + Threads + Sync>(
    rt: &R,
) -> io::Result<Ran<MemoryBanks>> {
    let mut words = Vec::new(rt.alloc());
    for word in env::args(rt)?.skip(1) {
        words.push(word)?;
    }
    let mut source = StdSource::new(rt.reader());
    let mut sink = StdSink::new(io::writer(rt));
    let banks = blank_banks(rt.alloc(), usize::from(CLONE_COUNT))?;
    Ok(run(rt, rt.alloc(), &words, &mut source, &mut sink, banks))
}

/// Why there was no run: memory ran out, or the words are not text.
fn fault_before(error: &io::Error) -> RunFault {
    match error.kind() {
        ErrorKind::OutOfMemory => RunFault::NoMemory,
        _ => RunFault::Usage,
    }
}
