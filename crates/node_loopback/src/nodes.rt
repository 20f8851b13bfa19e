//! Nodes that this program starts as processes of its own.

use crate::PAUSE;
use crate::client::{ask, is_greeted};
use crate::places::{port_of, put_address, put_folder, put_number};
use std::alloc::{Alloc, AllocError, Global};
use std::env::Env;
use std::fs::{self, Files};
use std::io::{self, ErrorKind};
use std::net::{IpAddr, Ipv4Addr, Net, SocketAddr, TcpStream};
use std::process::{Child, Command, OpenProcess, Processes};
use std::thread;
use std::time::{Clock, Duration};

/// This program itself.
const PROGRAM: &str = "/proc/self/exe";

/// How often a node that was started is called at most, or is looked at whether it ended.
const TRIES: u32 = 3_000;

/// How many seconds a connection and one read wait.
const PATIENCE: u64 = 60;

/// Starts the node with an id in a domain, as one that joins the node with another id, or else as one that begins the domain.
pub fn spawn<R: Alloc<A = Global> + Env + Processes>(
    rt: &R,
    domain: u128,
    id: u128,
    peer: Option<u128>,
) -> io::Result<Child<R::Started>> {
    let mut words = String::new(rt.alloc());
    put_words(&mut words, domain, id, peer)?;
    put_folder(rt, &mut words, id)?;
    start(rt, words.as_str())
}

/// Puts the words that a node is started with, each a line, but for its folder, which is named last.
fn put_words(
    words: &mut String,
    domain: u128,
    id: u128,
    peer: Option<u128>,
) -> Result<(), AllocError> {
    words.push_str("--id\n")?;
    put_number(words, id)?;
    words.push_str("\n--domain\nd")?;
    put_number(words, domain)?;
    words.push_str("\n--listen\n")?;
    put_address(words, id)?;
    match peer {
        Some(peer) => {
            words.push_str("\n--role\njoin\n--peer\n")?;
            put_address(words, peer)?;
        }
        None => words.push_str("\n--role\ngenesis")?,
    }
    words.push_str("\n--dir\n")?;
    Ok(())
}

/// Starts this program with words, each a line.
fn start<R: Alloc<A = Global> + Processes>(rt: &R, words: &str) -> io::Result<Child<R::Started>> {
    let command = Command::new(rt.alloc(), PROGRAM)?;
    let mut command = Box::new(rt.alloc(), command)?;
    give(&mut command, words)?;
    command.spawn(rt)
}

/// Gives a command words, each a line.
fn give(command: &mut Command<Global>, words: &str) -> Result<(), AllocError> {
    for word in words.lines() {
        command.arg(word)?;
    }
    Ok(())
}

/// A connection to a node that was started, or none where the node ended before.
pub fn call<R: Alloc<A = Global> + Clock + Net<Stream = TcpStream>, P: OpenProcess>(
    rt: &R,
    id: u128,
    child: &mut Child<P>,
) -> io::Result<Option<TcpStream>> {
    for _ in 0..TRIES {
        if child.try_wait()?.is_some() {
            return Ok(None);
        }
        if let Some(stream) = connect(rt, id)? {
            return Ok(Some(stream));
        }
        thread::sleep(rt, Duration::from_millis(PAUSE));
    }
    Err(ErrorKind::TimedOut.into())
}

/// A connection to the node with this id, or none where nobody or another one is there.
fn connect<R: Alloc<A = Global> + Net<Stream = TcpStream>>(
    rt: &R,
    id: u128,
) -> io::Result<Option<TcpStream>> {
    let address = SocketAddr::new(IpAddr::V4(Ipv4Addr::LOCALHOST), port_of(id));
    match TcpStream::connect_timeout(rt, &address, Duration::from_secs(PATIENCE)) {
        Ok(mut stream) => {
            if greets(rt.alloc(), &mut stream, id)? {
                Ok(Some(stream))
            } else {
                Ok(None)
            }
        }
        Err(_) => Ok(None),
    }
}

/// Whether the node with this id is at the other end. That it says nothing for long is an error.
fn greets(alloc: Global, stream: &mut TcpStream, id: u128) -> io::Result<bool> {
    stream.set_read_timeout(Some(Duration::from_secs(PATIENCE)))?;
    let mut frame = Vec::new(alloc);
    match is_greeted(stream, &mut frame, id) {
        Ok(is_so) => Ok(is_so),
        Err(error) => match error.kind() {
            ErrorKind::TimedOut | ErrorKind::WouldBlock => Err(error),
            _ => Ok(false),
        },
    }
}

/// Halts a node, and gives the status by which it ended.
pub fn halt<R: Clock, P: OpenProcess>(
    rt: &R,
    child: &mut Child<P>,
    stream: &mut TcpStream,
    reply: &mut Vec<u8>,
) -> io::Result<i32> {
    ask(stream, reply, "halt")?;
    if reply.as_slice() != b"stopped\n".as_slice() {
        return Err(ErrorKind::InvalidData.into());
    }
    for _ in 0..TRIES {
        if let Some(status) = child.try_wait()? {
            return status.code().ok_or(ErrorKind::InvalidData.into());
        }
        thread::sleep(rt, Duration::from_millis(PAUSE));
    }
    Err(ErrorKind::TimedOut.into())
}

/// Ends a node in whatever state it is, removes its folder, and hands on what its run gave, or else the first error.
pub fn end<R: Alloc<A = Global> + Env + Files, P: OpenProcess>(
    rt: &R,
    child: &mut Child<P>,
    id: u128,
    given: io::Result<bool>,
) -> io::Result<bool> {
    // One that has ended stays so, and where one can't be ended there is nothing else to be done.
    let _ = child.kill();
    let _ = child.wait();
    let removed = remove_folder(rt, id);
    let is_run = given?;
    removed?;
    Ok(is_run)
}

/// Removes the folder of the node with this id, where it is there.
fn remove_folder<R: Alloc<A = Global> + Env + Files>(rt: &R, id: u128) -> io::Result<()> {
    let mut folder = String::new(rt.alloc());
    put_folder(rt, &mut folder, id)?;
    match fs::remove_dir_all(rt, folder.as_str()) {
        Err(error) if error.kind() != ErrorKind::NotFound => Err(error),
        _ => Ok(()),
    }
}
