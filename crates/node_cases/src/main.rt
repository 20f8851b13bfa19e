//! Gives each session of the folder where it runs to a node in memory, and writes where a run differs from what its session says. Sessions
//! in which something is changed have to differ.
#![tactic(auto)]

mod comparing;
mod given;
mod lines;
mod repeats;
mod runs;
mod wires;

use repeats::written_out;
use runs::{Way, plays};
use std::alloc::{Alloc, Global};
use std::fs::{self, Files};
use std::io::{self, Print};
use std::process::ExitCode;
use std::thread::Threads;
use transcripts::{Count, names_of_files};

fn main(rt: HostRuntime) -> io::Result<ExitCode> {
    let mut whole = Count::new();
    let mut cut = Count::new();
    for name in &names_of_files(&rt, ".session")? {
        play_file(&rt, name.as_str(), &mut whole, &mut cut)?;
    }
    let changed = play_changed(&rt)?;
    println!(rt; "{} sessions, {} differ", whole.runs, whole.differ)?;
    println!(rt;
        "{} with each piece cut in two, {} differ",
        cut.runs, cut.differ
    )?;
    println!(rt; "{} with a change, {} differ", changed.runs, changed.differ)?;
    let is_so = whole.is_well() && cut.is_well() && changed.runs == changed.differ;
    Ok(ExitCode::from(if is_so { 0 } else { 1 }))
}

/// Goes through the sessions in which something is changed; how many there are, and how many differ.
fn play_changed<R: Files + Print + Threads + Sync + Alloc<A = Global> + Clone + Drop>(
    rt: &R,
) -> io::Result<Count> {
    let mut changed = Count::new();
    for name in &names_of_files(rt, ".changed")? {
        play_as_it_is(rt, name.as_str(), &mut changed)?;
    }
    Ok(changed)
}

/// Goes through the session of a file, in which each line stands for itself.
fn play_as_it_is<R: Files + Print + Threads + Sync + Alloc<A = Global>>(
    rt: &R,
    name: &str,
    changed: &mut Count,
) -> io::Result<()> {
    let text = fs::read_to_string(rt, name)?;
    let way = Way {
        name,
        is_cut: false,
    };
    changed.add(plays(rt, way, text.as_str())?);
    Ok(())
}

/// Goes through the session of a file, and once more with each piece cut in two where that may be.
fn play_file<R: Files + Print + Threads + Sync + Alloc<A = Global>>(
    rt: &R,
    name: &str,
    whole: &mut Count,
    cut: &mut Count,
) -> io::Result<()> {
    let told = fs::read_to_string(rt, name)?;
    let text = written_out(rt.alloc(), told.as_str())?;
    play_text(rt, name, text.as_str(), whole, cut)
}

/// Goes through the session of a text, and once more where its pieces may be cut.
fn play_text<R: Print + Threads + Sync + Alloc<A = Global>>(
    rt: &R,
    name: &str,
    text: &str,
    whole: &mut Count,
    cut: &mut Count,
) -> io::Result<()> {
    whole.add(plays(
        rt,
        Way {
            name,
            is_cut: false,
        },
        text,
    )?);
    if may_be_cut(text) {
        cut.add(plays(rt, Way { name, is_cut: true }, text)?);
    }
    Ok(())
}

/// Whether the calls of the wire and the turns don't count in a session, so that its pieces may be cut.
fn may_be_cut(text: &str) -> bool {
    !text.contains("\nfails ") && !text.contains("\nlacks ") && !text.contains(" --turns ")
}
