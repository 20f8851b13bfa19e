//! `mld_shell DIR` keeps one clone in a folder: it reads lines from standard input, and writes the reply of each before it reads the
//! next.
#![tactic(auto)]

use mld_io::{FileBanks, StdSink, StdSource};
use shell_run::run::shell;
use shell_run::{FolderFault, read_folder};
use std::alloc::{Alloc, AllocError, Global};
use std::env::{self, Env};
use std::fs::{File, Files};
use std::io::{self, ErrorKind, Input, Print};
use std::process::ExitCode;
use std::thread::Threads;

/// The status of a run that ended for want of memory.
const NO_MEMORY: u8 = 5;

/// The status of a run that didn't begin, since its words are none that the program knows.
const USAGE: u8 = 1;

fn main(rt: HostRuntime) -> ExitCode {
    let status = match run_on_standard(&rt) {
        Ok(status) => status,
        Err(error) => status_before(&error),
    };
    if status != 0 {
        // Where standard error fails too, the status still tells.
        let _ = eprintln!(rt; "mld_shell: status {status}");
    }
    ExitCode::from(status)
}

/// The status of the shell over the words of the process, its standard input and its standard output.
fn run_on_standard<
    R: Alloc<A = Global> + Env + Files<File = File> + Input + Print + Threads + Sync + Clone + Drop,
>(rt: &R) -> io::Result<u8> {
    let mut words = Vec::new(rt.alloc());
    for word in env::args(rt)?.skip(1) {
        words.push(word)?;
    }
    let mut source = StdSource::new(rt.reader());
    let mut sink = StdSink::new(io::writer(rt));
    let banks = banks_of(rt, &words)?;
    Ok(shell(rt, rt.alloc(), &words, &mut source, &mut sink, banks).status)
}

/// The banks in the folder that the words name; where they name none, banks of which each call fails.
fn banks_of<R: Alloc<A = Global> + Files<File = File> + Clone + Drop>(
    rt: &R,
    words: &Vec<String>,
) -> Result<FileBanks<R>, AllocError> {
    match read_folder(rt.alloc(), words) {
        Ok(folder) => FileBanks::new(rt.clone()?, rt.alloc(), folder.as_str()),
        Err(FolderFault::Usage) => FileBanks::new(rt.clone()?, rt.alloc(), ""),
        Err(FolderFault::NoMemory) => Err(AllocError),
    }
}

/// The status where there was no run: memory ran out, or the words are not text.
fn status_before(error: &io::Error) -> u8 {
    match error.kind() {
        ErrorKind::OutOfMemory => NO_MEMORY,
        _ => USAGE,
    }
}
