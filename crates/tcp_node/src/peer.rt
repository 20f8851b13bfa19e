//! The node that is called.

use mio::net::TcpStream;
use std::alloc::Global;
use std::io::{self, ErrorKind};
use std::net::{Net, SocketAddr, ToSocketAddrs};

/// How many milliseconds there are between two calls at first. Each pause is twice the one before.
const PAUSE: u64 = 250;

/// How many there are at most.
const LONGEST_PAUSE: u64 = 30_000;

/// How many milliseconds behind a call the pauses begin anew, where its connection is there.
const STEADY: u64 = 20_000;

/// How many milliseconds a call may take.
const CALL: u64 = 10_000;

/// How many milliseconds there are between two times that the name is looked up, which may take a while.
const LOOKUP_PAUSE: u64 = 60_000;

/// A node that is called until it answers.
#[derive(Drop)]
pub(crate) struct Peer {
    alloc: Global,
    address: String,
    /// The addresses that its name had when some were found last.
    found: Vec<SocketAddr>,
    /// When its name was looked up last.
    looked_up: u64,
    /// How often it was called.
    calls: usize,
    /// When it was called last.
    called: u64,
    /// How long the next call waits from then on.
    pause: u64,
    /// The call that is under way.
    pub(crate) stream: Option<TcpStream>,
    /// The number of the connection that came of the last call that was answered.
    pub(crate) connection: Option<u32>,
}

impl Peer {
    /// A node that wasn't called yet, and whose name wasn't looked up.
    pub(crate) fn new(alloc: Global, address: String) -> Peer {
        Peer {
            alloc,
            address,
            found: Vec::new(alloc),
            looked_up: 0,
            calls: 0,
            called: 0,
            pause: 0,
            stream: None,
            connection: None,
        }
    }

    /// Looks up its name. Where nothing is found, what was found before serves on.
    ///
    /// # Errors
    ///
    /// `InvalidInput` where its text is no name and port, and what the system answers.
    pub(crate) fn look_up<R: Net>(&mut self, rt: &R, now: u64) -> io::Result<()> {
        self.looked_up = now;
        let mut found = Vec::new(self.alloc);
        for address in self.address.as_str().to_socket_addrs(rt)? {
            found.push(address)?;
        }
        if !found.is_empty() {
            self.found = found;
        }
        Ok(())
    }

    /// When it may be called, where there is no connection to it. A call that takes too long is given up then.
    pub(crate) fn due(&self) -> u64 {
        let pause = if self.stream.is_some() {
            CALL
        } else {
            self.pause
        };
        self.called.saturating_add(pause)
    }

    /// The address at which it is called now, where there is one. The addresses that its name has take turns.
    pub(crate) fn begin_call<R: Net>(&mut self, rt: &R, now: u64) -> Option<SocketAddr> {
        self.pause = self.pause.saturating_mul(2).clamp(PAUSE, LONGEST_PAUSE);
        self.stream = None;
        self.called = now;
        if now.saturating_sub(self.looked_up) >= LOOKUP_PAUSE {
            // Where this fails, the addresses that were found before serve on.
            let _ = self.look_up(rt, now);
        }
        let place = self.calls.checked_rem(self.found.len()).unwrap_or(0);
        self.calls = self.calls.wrapping_add(1);
        self.found.get(place).copied()
    }

    /// The stream of the call, once it is answered. A call that failed, or that reached itself, is
    /// over.
    pub(crate) fn take_answer(&mut self) -> Option<TcpStream> {
        let stream = self.stream.take()?;
        if !matches!(stream.take_error(), Ok(None)) {
            return None;
        }
        match (stream.local_addr(), stream.peer_addr()) {
            (Ok(near), Ok(far)) if near != far => Some(stream),
            (_, Err(error)) if error.kind() == ErrorKind::NotConnected => {
                self.stream = Some(stream);
                None
            }
            _ => None,
        }
    }

    /// The connection is there.
    pub(crate) fn stay_up(&mut self, now: u64) {
        if now.saturating_sub(self.called) >= STEADY {
            self.pause = 0;
        }
    }
}
