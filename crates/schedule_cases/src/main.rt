//! Replays each transcript of the folder where it runs, and writes where a run differs from what its transcript says.
#![tactic(auto)]

mod agreeing;
mod restarts;
mod runs;

use restarts::{first_clones, places_of, restart_of};
use runs::replays;
use std::alloc::{Alloc, Global};
use std::fs::{self, Files};
use std::io::{self, Print};
use std::process::ExitCode;
use std::thread::Threads;
use transcripts::{Count, names_of_files, with_lines};

fn main(rt: HostRuntime) -> io::Result<ExitCode> {
    let mut schedules = Count::new();
    let mut restarts = Count::new();
    for name in &names_of_files(&rt, ".txt")? {
        replay_file(&rt, name.as_str(), &mut schedules, &mut restarts)?;
    }
    println!(rt; "{} schedules, {} differ", schedules.runs, schedules.differ)?;
    println!(rt; "{} restarts, {} differ", restarts.runs, restarts.differ)?;
    let is_so = schedules.is_well() && restarts.is_well();
    Ok(ExitCode::from(if is_so { 0 } else { 1 }))
}

/// Replays the transcript of a file, and again with restarts.
fn replay_file<R: Files + Print + Threads + Sync + Alloc<A = Global>>(
    rt: &R,
    name: &str,
    schedules: &mut Count,
    restarts: &mut Count,
) -> io::Result<()> {
    let text = fs::read_to_string(rt, name)?;
    schedules.add(replays(rt, name, text.as_str())?);
    restart_each(rt, name, text.as_str(), restarts)
}

/// Replays a transcript once more for each place between two of its lines, where its first clone stops and opens, and for each where its
/// second one does.
fn restart_each<R: Print + Threads + Sync + Alloc<A = Global>>(
    rt: &R,
    name: &str,
    text: &str,
    restarts: &mut Count,
) -> io::Result<()> {
    let Some(places) = places_of(text) else {
        return Ok(());
    };
    for clone in 0..first_clones(text) {
        for given in places.first..places.end {
            if let Some(other) = with_lines(rt.alloc(), text, given, restart_of(clone))? {
                restarts.add(replays(rt, name, other.as_str())?);
            }
        }
    }
    Ok(())
}
