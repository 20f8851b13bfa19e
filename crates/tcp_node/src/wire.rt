//! The wire over TCP.
ghost use Rattle.std.specs.Prelude.{◌≡◌, ◌-◌, ◌^◌, ◌<◌, None, IfOk};
ghost use Rattle.mld_io.specs.Faults.{HasSinkCause};
ghost use Rattle.mld_io.specs.Wires.{CountsEvent};
ghost use Rattle.tcp_node.specs.TcpWires.{IsSizedEvent, faults_of, count_of_taken};

use crate::sockets::Sockets;
use mld_io::{Event, IoFault, Wire};
use std::alloc::{AllocError, Global};
use std::marker::Model;
use std::net::Net;
use std::time::{Clock, CpuClock};

/// Connections over TCP: those that others open on an address, and one to a peer. It opens its
/// sockets at the first call of `next` or `send`, and tries again at the next one where that
/// failed. It tells nothing of what its sockets give and take, and counts each failure. Memory can be wanting to
/// it only where it opens its sockets, and then it is as it was.
///
/// Connections are numbered from 1 in the order in which they come up. Behind 2^32-2 comes the least
/// number that none has.
#[derive(Drop)]
pub struct TcpWire<R> {
    ends: Ends<R>,
    taken: u64,
    faults: u64,
}

impl<R> Model for TcpWire<R> {
    ghost use Rattle.tcp_node.specs.TcpWires.{TcpCounts};

    ghost Value = { TcpCounts };

    ghost view = { λ w. record { taken = w.taken; faults = w.faults } };
}

impl<R: Net + Clock + CpuClock + Drop> TcpWire<R> {
    /// A wire that listens on an address and calls a peer, with no event and no fault so far. Each
    /// is a host's name or an IP address, a colon and a port. A peer that isn't there, or whose
    /// connection ends, is called again behind a pause of 250 milliseconds, which grows up to 30
    /// seconds.
    pub fn new(
        rt: R,
        alloc: Global,
        listen: &str,
        peer: Option<&str>,
    ) -> Result<TcpWire<R>, AllocError>
        ensures taken { IfOk result (λ wire. count_of_taken wire ≡ 0) }
        ensures faults { IfOk result (λ wire. faults_of wire ≡ 0) }
    {
        Ok(TcpWire {
            ends: Ends {
                rt,
                alloc,
                listen: format!(in alloc; "{listen}")?,
                peer: match peer {
                    Some(address) => Some(format!(in alloc; "{address}")?),
                    None => None,
                },
                sockets: None,
            },
            taken: 0,
            faults: 0,
        })
    }

    /// Sends what still waits on the connections, and drops what comes. Ends once nothing is left to do,
    /// nothing was reported for a second, or ten seconds are over. Called before the wire is dropped.
    pub fn finish(&mut self)
        ensures { self.new ≡ self.old }
    {
        if let Some(sockets) = &mut self.ends.sockets {
            sockets.finish(&self.ends.rt);
        }
    }
}

impl<R: Net + Clock + CpuClock + Drop> Wire for TcpWire<R> {
    ghost log = { λ _. None };

    ghost taken = { count_of_taken };

    ghost faults = { faults_of };

    fn next(&mut self) -> Result<Event, IoFault> {
        let told = tell(self.ends.next(), &mut self.faults);
        count(&told, &mut self.taken);
        told
    }

    fn send(&mut self, conn: u32, piece: &[u8]) -> Result<(), IoFault> {
        tell(self.ends.send(conn, piece), &mut self.faults)
    }

    fn shut(&mut self, conn: u32) {
        if let Some(sockets) = &mut self.ends.sockets {
            sockets.table.shut(conn);
        }
    }
}

/// Counts an event that was taken.
fn count(told: &Result<Event, IoFault>, taken: &mut u64)
    requires { taken.old < 2 ^ 64 - 1 }
    ensures { CountsEvent taken.old told.now taken.new }
{
    match told {
        Ok(_) => *taken += 1,
        Err(_) => {}
    }
}

/// Tells an answer as it is. A failure is counted.
fn tell<T: Drop>(answer: Result<T, IoFault>, faults: &mut u64) -> Result<T, IoFault>
    ensures same { result ≡ answer }
    ensures cause { HasSinkCause faults.old faults.new result }
{
    if let Err(IoFault::Failed) = &answer {
        *faults = faults.saturating_add(1);
    }
    answer
}

/// The addresses, and the sockets once they are open.
#[derive(Drop)]
struct Ends<R> {
    rt: R,
    alloc: Global,
    listen: String,
    peer: Option<String>,
    sockets: Option<Sockets>,
}

impl<R: Net + Clock + CpuClock + Drop> Ends<R> {
    fn next(&mut self) -> Result<Event, IoFault>
        ensures sized { IfOk result IsSizedEvent }
    {
        self.open()?;
        match &mut self.sockets {
            Some(sockets) => sockets.next(&self.rt),
            None => Err(IoFault::Failed),
        }
    }

    fn send(&mut self, conn: u32, piece: &[u8]) -> Result<(), IoFault> {
        self.open()?;
        match &mut self.sockets {
            Some(sockets) => {
                sockets.table.send(conn, piece);
                Ok(())
            }
            None => Err(IoFault::Failed),
        }
    }

    /// Opens the sockets where they aren't open.
    fn open(&mut self) -> Result<(), IoFault> {
        if self.sockets.is_none() {
            let peer = self.peer.as_ref().map(|address| address.as_str());
            let listen = self.listen.as_str();
            self.sockets = Some(Sockets::open(&self.rt, self.alloc, listen, peer)?);
        }
        Ok(())
    }
}
