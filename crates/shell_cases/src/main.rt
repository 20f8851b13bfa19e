//! Gives each transcript of the folder where it runs to the shell, and writes where a run differs from what its transcript says.
#![tactic(auto)]

mod restarts;
mod runs;
mod settings;
#[cfg(test)]
mod shell_banks;
#[cfg(test)]
mod shell_given;

use restarts::{RESTART, may_restart};
use runs::does;
use std::alloc::{Alloc, Global};
use std::fs::{self, Files};
use std::io::{self, Print};
use std::process::ExitCode;
use std::thread::Threads;
use transcripts::{Count, count_given, names_of_files, with_lines};

fn main(rt: HostRuntime) -> io::Result<ExitCode> {
    let mut sessions = Count::new();
    let mut restarts = Count::new();
    for name in &names_of_files(&rt, ".txt")? {
        do_file(&rt, name.as_str(), &mut sessions, &mut restarts)?;
    }
    println!(rt; "{} sessions, {} differ", sessions.runs, sessions.differ)?;
    println!(rt; "{} restarts, {} differ", restarts.runs, restarts.differ)?;
    let is_so = sessions.is_well() && restarts.is_well();
    Ok(ExitCode::from(if is_so { 0 } else { 1 }))
}

/// Runs the transcript of a file, and again with restarts.
fn do_file<R: Files + Print + Threads + Sync + Alloc<A = Global>>(
    rt: &R,
    name: &str,
    sessions: &mut Count,
    restarts: &mut Count,
) -> io::Result<()> {
    let text = fs::read_to_string(rt, name)?;
    sessions.add(does(rt, name, text.as_str())?);
    restart_each(rt, name, text.as_str(), restarts)
}

/// Runs a transcript once more for each place between two of its lines where its clone is live, which stops and opens there.
fn restart_each<R: Print + Threads + Sync + Alloc<A = Global>>(
    rt: &R,
    name: &str,
    text: &str,
    restarts: &mut Count,
) -> io::Result<()> {
    for given in 1..=count_given(text) {
        if may_restart(text, given) {
            if let Some(other) = with_lines(rt.alloc(), text, given, RESTART)? {
                restarts.add(does(rt, name, other.as_str())?);
            }
        }
    }
    Ok(())
}
