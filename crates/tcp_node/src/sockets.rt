//! The sockets, once they are open.
ghost use Rattle.std.specs.Prelude.{IfOk};
ghost use Rattle.tcp_node.specs.TcpWires.{IsSizedEvent};

use crate::peer::Peer;
use crate::table::{LISTENER, Table, both_ways, token};
use mio::net::TcpListener;
use mio::{Events, Poll};
use mld_io::{Event, IoFault};
use std::alloc::Global;
use std::io::{self, ErrorKind};
use std::net::{Net, ToSocketAddrs};
use std::time::{Clock, CpuClock, Duration, Instant};

/// How many sockets one wait tells of.
const EVENTS: usize = 256;

/// How many seconds the end waits until something comes.
const QUIET: u64 = 1;

/// How many seconds the end lasts at most.
const FAREWELL: u64 = 10;

/// A listener, the connections, and what waits for them.
#[derive(Drop)]
pub(crate) struct Sockets {
    poll: Poll,
    events: Events,
    pub(crate) table: Table,
}

impl Sockets {
    /// Listens on the first of the addresses that the text names and that can be listened on. The
    /// text of a peer has to be a name and a port; the name may be one that nobody knows yet.
    pub(crate) fn open<R: Net>(
        rt: &R,
        alloc: Global,
        listen: &str,
        peer: Option<&str>,
    ) -> Result<Sockets, IoFault> {
        let events = Events::with_capacity(alloc, EVENTS)?;
        let peer = match peer {
            Some(address) => Some(peer_at(rt, Peer::new(alloc, format!(in alloc; "{address}")?))?),
            None => None,
        };
        let poll = Poll::new(rt).map_err(failed)?;
        let mut listener = listen_on(rt, listen).map_err(failed)?;
        let registry = poll.registry().try_clone().map_err(failed)?;
        registry
            .register(&mut listener, token(LISTENER), both_ways())
            .map_err(failed)?;
        Ok(Sockets {
            poll,
            events,
            table: Table::new(alloc, registry, listener, peer)?,
        })
    }

    /// Waits for the next event.
    pub(crate) fn next<R: Net + Clock + CpuClock>(&mut self, rt: &R) -> Result<Event, IoFault>
        ensures sized { IfOk result IsSizedEvent }
    {
        self.table.settle(rt);
        for _ in 0..u64::MAX {
            self.table.call_peer(rt);
            let timeout = self.table.timeout();
            self.wait(timeout).map_err(failed)?;
            self.table.look(rt);
            if let Some(event) = self.table.take_turns(rt) {
                return Ok(event);
            }
        }
        Err(IoFault::Failed)
    }

    /// Waits until there is something to do, or the time is up.
    fn wait(&mut self, timeout: Option<Duration>) -> io::Result<()> {
        self.poll.poll(&mut self.events, timeout)?;
        for event in &self.events {
            if let Ok(number) = u32::try_from(event.token().0) {
                self.table.queue(number);
            }
        }
        Ok(())
    }

    /// Sends what still waits, for as long as it is taken, and drops what comes.
    pub(crate) fn finish<R: Clock>(&mut self, rt: &R) {
        let Ok(start) = Instant::now(rt) else {
            return;
        };
        for _ in 0..u64::MAX {
            if self.table.part() || self.wait(Some(Duration::from_secs(QUIET))).is_err() {
                return;
            }
            let late = start
                .elapsed(rt)
                .map_or(true, |elapsed| elapsed.as_secs() >= FAREWELL);
            if late || self.events.is_empty() {
                return;
            }
        }
    }
}

/// A node whose name was looked up, be it with success or not. A text that is none is a failure.
fn peer_at<R: Net>(rt: &R, peer: Peer) -> Result<Peer, IoFault> {
    let mut peer = peer;
    match peer.look_up(rt, 0) {
        Err(error) if error.kind() == ErrorKind::InvalidInput => Err(failed(error)),
        Ok(()) | Err(_) => Ok(peer),
    }
}

/// A listener on the first of these addresses that can be listened on.
fn listen_on<R: Net>(rt: &R, listen: &str) -> io::Result<TcpListener> {
    let mut listener = Err(ErrorKind::NotFound.into());
    for address in listen.to_socket_addrs(rt)? {
        if listener.is_err() {
            listener = TcpListener::bind(rt, address);
        }
    }
    listener
}

/// A failure of the wire.
fn failed(_error: io::Error) -> IoFault {
    IoFault::Failed
}
