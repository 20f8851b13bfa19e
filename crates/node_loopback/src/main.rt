//! Two nodes on loopback. With words it is a node, as `mld_node` is. With none it starts itself
//! twice, once to begin a domain and once to join it, adds a triple at the first, asks the second
//! until the triple is there, and halts both.
#![tactic(auto)]

mod client;
mod nodes;
mod places;

use client::ask;
use nodes::{call, end, halt, spawn};
use places::random_number;
use std::alloc::{Alloc, Global};
use std::env::{self, Env};
use std::fs::Files;
use std::io::{self, ErrorKind, Print};
use std::net::{Net, TcpStream};
use std::process::{Child, ExitCode, Processes};
use std::random::RandomSource;
use std::thread;
use std::time::{Clock, Duration};
use tcp_node::run_process;

/// The triple that is found at the second node.
const TRIPLE: &str = "<http://d/a> <http://d/#p> \"x\" .";

/// The line that adds it at the first one.
const ADD: &str = "add <http://d/a> <http://d/#p> \"x\" .";

/// How often both nodes are started at most, each time at other addresses.
const STARTS: u32 = 5;

/// How often the second node is asked at most.
const ASKS: u32 = 2_000;

/// How many milliseconds there are between two times that something is tried.
pub const PAUSE: u64 = 20;

fn main(rt: HostRuntime) -> ExitCode {
    if has_words(&rt) {
        return ExitCode::from(run_process(&rt));
    }
    match run_both(&rt) {
        Ok(()) => ExitCode::SUCCESS,
        Err(error) => {
            // Where standard error fails too, the status still tells.
            let _ = eprintln!(rt; "node_loopback: {error}");
            ExitCode::FAILURE
        }
    }
}

/// Whether the program was given words. Words that are no text are the node's to refuse.
fn has_words<R: Alloc<A = Global> + Env>(rt: &R) -> bool {
    match env::args(rt) {
        Ok(words) => words.count() > 1,
        Err(_) => true,
    }
}

/// Runs two nodes of a domain that no other run has, and again where the address of one wasn't its own.
fn run_both<
    R: Alloc<A = Global>
        + Clock
        + Env
        + Files
        + Net<Stream = TcpStream>
        + Print
        + Processes
        + RandomSource,
>(rt: &R) -> io::Result<()> {
    for _ in 0..STARTS {
        let domain = random_number(rt)?;
        let first = random_number(rt)?;
        let second = random_number(rt)?;
        if run_first(rt, domain, first, second)? {
            return Ok(());
        }
    }
    Err(ErrorKind::AddrInUse.into())
}

/// Runs the first node, which begins the domain, and ends it however the rest ended; whether each node had an address of its own.
fn run_first<
    R: Alloc<A = Global> + Clock + Env + Files + Net<Stream = TcpStream> + Print + Processes,
>(rt: &R, domain: u128, first: u128, second: u128) -> io::Result<bool> {
    let mut child = spawn(rt, domain, first, None)?;
    let is_run = match call(rt, first, &mut child) {
        Ok(Some(mut near)) => run_second(rt, domain, first, second, &mut child, &mut near),
        Ok(None) => Ok(false),
        Err(error) => Err(error),
    };
    end(rt, &mut child, first, is_run)
}

/// Runs the second node, which joins the first, and ends it however the rest ended; whether it had an address of its own.
fn run_second<
    R: Alloc<A = Global> + Clock + Env + Files + Net<Stream = TcpStream> + Print + Processes,
>(
    rt: &R,
    domain: u128,
    first: u128,
    second: u128,
    begun: &mut Child<R::Started>,
    near: &mut TcpStream,
) -> io::Result<bool> {
    let mut child = spawn(rt, domain, second, Some(first))?;
    let is_run = match call(rt, second, &mut child) {
        Ok(Some(mut far)) => lead_both(rt, begun, near, &mut child, &mut far),
        Ok(None) => Ok(false),
        Err(error) => Err(error),
    };
    end(rt, &mut child, second, is_run)
}

/// Adds the triple at the first node, finds it at the second, and halts both.
fn lead_both<R: Alloc<A = Global> + Clock + Print + Processes>(
    rt: &R,
    first: &mut Child<R::Started>,
    near: &mut TcpStream,
    second: &mut Child<R::Started>,
    far: &mut TcpStream,
) -> io::Result<bool> {
    let mut reply = Vec::new(rt.alloc());
    pass_triple(rt, near, far, &mut reply)?;
    let first = halt(rt, first, near, &mut reply)?;
    let second = halt(rt, second, far, &mut reply)?;
    println!(rt; "halted {first} {second}")?;
    Ok(true)
}

/// Adds the triple at a node, and finds it at another.
fn pass_triple<R: Clock + Print>(
    rt: &R,
    near: &mut TcpStream,
    far: &mut TcpStream,
    reply: &mut Vec<u8>,
) -> io::Result<()> {
    ask(near, reply, ADD)?;
    if !reply.starts_with(b"did ") {
        return Err(ErrorKind::InvalidData.into());
    }
    find(rt, far, reply)?;
    println!(rt; "found {TRIPLE}")
}

/// Asks a node for what its peers know until it shows the triple.
fn find<R: Clock>(rt: &R, far: &mut TcpStream, reply: &mut Vec<u8>) -> io::Result<()> {
    for _ in 0..ASKS {
        ask(far, reply, "ask")?;
        ask(far, reply, "show")?;
        if shows_triple(reply) {
            return Ok(());
        }
        thread::sleep(rt, Duration::from_millis(PAUSE));
    }
    Err(ErrorKind::TimedOut.into())
}

/// Whether a line of what a node showed ends with the triple.
fn shows_triple(shown: &[u8]) -> bool {
    let Ok(text) = str::from_utf8(shown) else {
        return false;
    };
    for line in text.lines() {
        if line.ends_with(TRIPLE) {
            return true;
        }
    }
    false
}
