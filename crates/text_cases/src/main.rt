//! Runs the cases of each file of the folder where it runs, and writes each of them that gives something else than it has to give.
#![tactic(auto)]

mod answers;
mod contexts;
mod faults;
mod held;
mod kinds;
mod pairs;
mod parts;
mod queries;
mod slots;
mod subjects;
mod terms;
mod texts;
mod written;

use held::Held;
use std::io;
use std::process::ExitCode;
use transcripts::try_cases;

fn main(rt: HostRuntime) -> io::Result<ExitCode> {
    let mut held = Held::new(rt.alloc());
    let is_so = try_cases(&rt, &mut held)?;
    Ok(ExitCode::from(if is_so { 0 } else { 1 }))
}
