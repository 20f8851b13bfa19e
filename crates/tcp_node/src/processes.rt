//! The run of a node over the words, the sockets and the files of its process.
ghost use Rattle.std.specs.Prelude.{◌≡◌, IfOk};
ghost use Rattle.tcp_node.specs.TcpWires.{count_of_taken};

use crate::wire::TcpWire;
use mld_io::FileBanks;
use node_run::{NodeWordsFault, read_words, serve};
use std::alloc::{Alloc, AllocError, Global};
use std::env::{self, Env};
use std::fs::{File, Files};
use std::io::{self, ErrorKind};
use std::net::Net;
use std::thread::Threads;
use std::time::{Clock, CpuClock};
use text_rules::Text;

/// The status of a run that ended for want of memory.
const NO_MEMORY: u8 = 5;

/// The status of a run that didn't begin, since its words are no text.
const USAGE: u8 = 1;

/// Runs a node over the words of the process, and gives its status. A status other than 0 is told
/// on standard error.
pub fn run_process<
    R: Alloc<A = Global>
        + Clock
        + Clone
        + CpuClock
        + Drop
        + Env
        + Eprint
        + Files<File = File>
        + Net
        + Threads
        + Sync,
>(rt: &R) -> u8 {
    let status = match run_on_words(rt) {
        Ok(status) => status,
        Err(error) if error.kind() == ErrorKind::OutOfMemory => NO_MEMORY,
        Err(_) => USAGE,
    };
    if status != 0 {
        // Where standard error fails too, the status still tells.
        let _ = eprintln!(rt; "mld_node: status {status}");
    }
    status
}

/// The status of the node over the words of the process, TCP and the files of its folder. What it
/// sent last goes out before it ends.
fn run_on_words<
    R: Alloc<A = Global>
        + Clock
        + Clone
        + CpuClock
        + Drop
        + Env
        + Files<File = File>
        + Net
        + Threads
        + Sync,
>(rt: &R) -> io::Result<u8> {
    let mut words = Vec::new(rt.alloc());
    for word in env::args(rt)?.skip(1) {
        words.push(word)?;
    }
    let (mut wire, banks) = ends_of(rt, &words)?;
    let status = serve(rt, rt.alloc(), &words, &mut wire, banks).status;
    wire.finish();
    Ok(status)
}

/// The sockets and the banks that the words name; where they name none, those of empty texts, each
/// call of which would fail.
fn ends_of<R: Alloc<A = Global> + Clock + Clone + CpuClock + Drop + Files<File = File> + Net>(
    rt: &R,
    words: &Vec<String>,
) -> Result<(TcpWire<R>, FileBanks<R>), AllocError>
    ensures { IfOk result (λ ends. count_of_taken ends.0 ≡ 0) }
{
    match read_words(rt.alloc(), words) {
        Ok(node) => {
            let peer = node.peer.as_ref().map(Text::as_str);
            ends_at(rt, node.dir.as_str(), node.listen.as_str(), peer)
        }
        Err(NodeWordsFault::Usage) => ends_at(rt, "", "", None),
        Err(NodeWordsFault::NoMemory) => Err(AllocError),
    }
}

/// The sockets at these addresses and the banks in this folder.
fn ends_at<R: Alloc<A = Global> + Clock + Clone + CpuClock + Drop + Files<File = File> + Net>(
    rt: &R,
    folder: &str,
    listen: &str,
    peer: Option<&str>,
) -> Result<(TcpWire<R>, FileBanks<R>), AllocError>
    ensures { IfOk result (λ ends. count_of_taken ends.0 ≡ 0) }
{
    let wire = TcpWire::new(rt.clone()?, rt.alloc(), listen, peer)?;
    let banks = FileBanks::new(rt.clone()?, rt.alloc(), folder)?;
    Ok((wire, banks))
}
