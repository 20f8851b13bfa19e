//! `measure_journals` mounts, makes and appends to a journal in memory, as its words say, so that the difference of two runs is
//! what a part costs.
#![tactic(auto)]

mod faults;
mod parts;
mod plain_banks;
mod work;

use faults::CostFault;
use parts::{Parts, parts_of};
use plain_banks::PlainBanks;
use std::alloc::{Alloc, Global};
use std::env::{self, Env};
use std::io::{self, BufReader, Input, Print, Read};
use std::process::ExitCode;
use work::{OnBanks, do_parts, find, find_again};

fn main(rt: HostRuntime) -> io::Result<ExitCode> {
    let mut words = Vec::new(rt.alloc());
    for word in env::args(&rt)?.skip(1) {
        words.push(word)?;
    }
    match measured(&rt, &words) {
        Ok(()) => Ok(ExitCode::from(0)),
        Err(fault) => {
            eprintln!(rt; "measure_journals: {fault}")?;
            Ok(ExitCode::from(1))
        }
    }
}

/// Reads a side from standard input, and does with it what the words say. Without words it is read and no more.
fn measured<R: Alloc<A = Global> + Input + Print>(
    rt: &R,
    words: &[String],
) -> Result<(), CostFault> {
    let Some(parts) = parts_of(words) else {
        return Err(CostFault::Usage);
    };
    let bytes = read_side(rt)?;
    if words.is_empty() {
        return Ok(());
    }
    let found = found_at_end(rt.alloc(), parts, bytes)?;
    match tell(rt, &found) {
        Ok(()) => Ok(()),
        Err(_) => Err(CostFault::Output),
    }
}

/// What stands on banks whose side A has these bytes, once the parts are done.
fn found_at_end(alloc: Global, parts: Parts, bytes: Vec<u8>) -> Result<OnBanks, CostFault> {
    let mut found = find(alloc, PlainBanks::new(alloc, bytes))?;
    do_parts(alloc, parts, &mut found)?;
    find_again(alloc, parts.again, found)
}

/// Writes what stands on banks.
fn tell<R: Print>(rt: &R, found: &OnBanks) -> io::Result<()> {
    let pairs = found.head.tagged.len();
    let entries = found.entries.len();
    let path = found.head.path;
    println!(rt; "{pairs} pairs, {entries} entries, path {path}")
}

/// The bytes of standard input.
fn read_side<R: Alloc<A = Global> + Input>(rt: &R) -> Result<Vec<u8>, CostFault> {
    let mut bytes = Vec::new(rt.alloc());
    let Ok(mut reader) = BufReader::new(rt.alloc(), rt.reader()) else {
        return Err(CostFault::NoMemory);
    };
    match reader.read_to_end(&mut bytes) {
        Ok(_size) => Ok(bytes),
        Err(_) => Err(CostFault::Input),
    }
}
