//! Asks graphs of many pairs, changes them and asks again, and writes how much each call found, and whether a plain list has just that.
#![tactic(auto)]

mod answers;
mod asking;
mod lists;
mod parts;
mod rows;

use answers::tell;
use parts::{cuts, many, tags};
use std::io;
use std::process::ExitCode;

fn main(rt: HostRuntime) -> io::Result<ExitCode> {
    let alloc = rt.alloc();
    let many = tell(&rt, "100000 pairs", many(alloc))?;
    let all = tell(&rt, "50000 pairs of one triple", tags(alloc, false))?;
    let half = tell(&rt, "half of them", tags(alloc, true))?;
    let cuts = tell(&rt, "400 cuts", cuts(alloc))?;
    Ok(ExitCode::from(many.max(all).max(half).max(cuts)))
}
