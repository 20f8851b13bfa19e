//! The connections, each under its number, and whose turn it is.
ghost use Rattle.std.specs.Prelude.{IfOk, IfSome};
ghost use Rattle.tcp_node.specs.TcpWires.{IsSizedEvent};

use crate::choosing::{idlest_one, largest_one, late_one};
use crate::connection::Connection;
use crate::keepalive::watch_over;
use crate::limits::{GROWTH, LOOK, PLACES};
use crate::peer::Peer;
use mio::net::{TcpListener, TcpStream};
use mio::{Interest, Registry, Token};
use mld_io::Event;
use std::alloc::{AllocError, Global};
use std::collections::BTreeMap;
use std::io::{self, ErrorKind};
use std::net::{Net, SocketAddr};
use std::time::{Clock, CpuClock, Duration};
use wire_rules::{Kind, PIECE_LIMIT, Turns, Watch, worked};

/// The number under which the listener stands.
pub(crate) const LISTENER: u32 = 0;

/// The number under which the call of the peer stands.
const CALL: u32 = u32::MAX;

/// How much waits for its turn beside connections: the listener and the call.
const BESIDE: usize = 2;

/// The listener, the peer and the connections. What may have something to tell waits for its turn,
/// and each turn reads once or accepts one connection, so none keeps the others waiting.
#[derive(Drop)]
pub(crate) struct Table {
    alloc: Global,
    registry: Registry,
    listener: TcpListener,
    /// Whether a connection couldn't be accepted, and no other one could go for it.
    held_up: bool,
    peer: Option<Peer>,
    connections: BTreeMap<u32, Connection>,
    /// What waits for its turn.
    turns: Turns,
    /// The number whose event was given last, and what the node had worked then, where it isn't settled yet.
    given: Option<(u32, u64)>,
    /// The number that was given last.
    last: u32,
    watch: Watch,
    /// When it was looked last for those that are late.
    looked: u64,
    /// How many bytes more than at the last look all connections may hold.
    grown: usize,
}

impl Table {
    /// A table with no connection. The listener is registered.
    pub(crate) fn new(
        alloc: Global,
        registry: Registry,
        listener: TcpListener,
        peer: Option<Peer>,
    ) -> Result<Table, AllocError> {
        let mut turns = Turns::new(alloc);
        turns.reserve(BESIDE)?;
        Ok(Table {
            alloc,
            registry,
            listener,
            held_up: false,
            peer,
            connections: BTreeMap::new(alloc),
            turns,
            given: None,
            last: 0,
            watch: Watch::new(),
            looked: 0,
            grown: 0,
        })
    }

    /// How long to wait for what comes.
    pub(crate) fn timeout(&self) -> Option<Duration> {
        if let Some(due) = self.turns.due(self.watch.micros()) {
            return Some(Duration::from_micros(due));
        }
        let now = self.watch.now();
        let due = match &self.peer {
            Some(peer) if !self.has_peer() => peer.due().saturating_sub(now),
            Some(_) => LOOK,
            None if self.held_up || !self.connections.is_empty() => LOOK,
            None => return None,
        };
        Some(Duration::from_millis(due.min(LOOK)))
    }

    /// Whether there is a connection to the peer.
    fn has_peer(&self) -> bool {
        self.peer
            .as_ref()
            .and_then(|peer| peer.connection)
            .and_then(|number| self.connections.get(&number))
            .is_some_and(|connection| connection.is_open())
    }

    /// The event that was given last is done. What the node worked since is what it cost.
    pub(crate) fn settle<R: Clock + CpuClock>(&mut self, rt: &R) {
        let Some((number, before)) = self.given.take() else {
            return;
        };
        let spent = worked(rt).saturating_sub(before);
        self.watch.turn(rt);
        self.turns.settle(spent, self.watch.micros());
        if let Some(connection) = self.connections.get_mut(&number) {
            connection.note_cost(spent);
        }
    }

    /// Calls the peer where that is due.
    pub(crate) fn call_peer<R: Net>(&mut self, rt: &R) {
        let now = self.watch.now();
        let has_peer = self.has_peer();
        let Some(peer) = &mut self.peer else {
            return;
        };
        if has_peer {
            peer.stay_up(now);
        } else if peer.due() <= now
            && let Some(address) = peer.begin_call(rt, now)
        {
            self.call(rt, address);
        }
    }

    /// Calls the peer at an address. Where no descriptor is left, a connection goes for it.
    fn call<R: Net>(&mut self, rt: &R, address: SocketAddr) {
        let called = match TcpStream::connect(rt, address) {
            Err(error) if lacks_descriptors(&error) => {
                self.make_place();
                TcpStream::connect(rt, address)
            }
            called => called,
        };
        if let Ok(mut stream) = called
            && self
                .registry
                .register(&mut stream, token(CALL), both_ways())
                .is_ok()
            && let Some(peer) = &mut self.peer
        {
            peer.stream = Some(stream);
        }
    }

    /// Reads the clock. Once in a second, breaks off the connections that are late, and accepts again where that
    /// was held up.
    pub(crate) fn look<R: Clock>(&mut self, rt: &R) {
        self.watch.turn(rt);
        let now = self.watch.now();
        if now.saturating_sub(self.looked) < LOOK {
            return;
        }
        self.looked = now;
        if self.held_up {
            self.held_up = false;
            self.queue(LISTENER);
        }
        for _ in 0..self.connections.len() {
            match late_one(&self.connections, &self.turns, now) {
                Some(number) => self.break_off(number),
                None => break,
            }
        }
    }

    /// What stands under this number waits for its turn.
    pub(crate) fn queue(&mut self, number: u32) {
        let kind = match self.connections.get(&number) {
            Some(connection) => connection.kind(),
            None => Kind::New,
        };
        self.turns.add(number, kind, self.watch.micros());
    }

    /// Gives the turn to each that waits for it now, until one has an event.
    pub(crate) fn take_turns<R: CpuClock>(&mut self, rt: &R) -> Option<Event>
        ensures sized { IfSome result IsSizedEvent }
    {
        for _ in 0..self.turns.len() {
            let number = self.turns.next(self.watch.micros())?;
            let event = match number {
                LISTENER => self.accept(),
                CALL => self.answer(),
                _ => self.read(number),
            };
            if event.is_some() {
                self.given = Some((number, worked(rt)));
                return event;
            }
        }
        None
    }

    /// Accepts one connection, once there is a place for it.
    fn accept(&mut self) -> Option<Event>
        ensures sized { IfSome result IsSizedEvent }
    {
        if self.connections.len() >= PLACES {
            self.make_way();
            return None;
        }
        match self.listener.accept() {
            Ok((stream, _)) => {
                self.queue(LISTENER);
                let number = self.free_number();
                return self.add(number, stream, false);
            }
            Err(error) if error.kind() == ErrorKind::WouldBlock => {}
            Err(error) if lacks_descriptors(&error) => self.make_way(),
            Err(_) => self.held_up = true,
        }
        None
    }

    /// Has a connection go for one that comes, which is accepted behind that, or later where none goes.
    fn make_way(&mut self) {
        if self.make_place() {
            self.queue(LISTENER);
        } else {
            self.held_up = true;
        }
    }

    /// Breaks off the connection that goes for another one, and tells whether there was one.
    fn make_place(&mut self) -> bool {
        match idlest_one(&self.connections) {
            Some(number) => {
                self.break_off(number);
                true
            }
            None => false,
        }
    }

    /// Takes the connection to the peer, where the call is answered.
    fn answer(&mut self) -> Option<Event>
        ensures sized { IfSome result IsSizedEvent }
    {
        let number = self.free_number();
        let peer = self.peer.as_mut()?;
        let stream = peer.take_answer()?;
        peer.connection = Some(number);
        self.add(number, stream, true)
    }

    /// Adds a connection. Where it can't be watched or memory is wanting it is closed.
    fn add(&mut self, number: u32, mut stream: TcpStream, called: bool) -> Option<Event>
        ensures sized { IfSome result IsSizedEvent }
    {
        let watched = if called {
            self.registry
                .reregister(&mut stream, token(number), both_ways())
        } else {
            self.registry
                .register(&mut stream, token(number), both_ways())
        };
        if watched.is_err() {
            return None;
        }
        // Where this fails, small pieces may wait a while.
        let _ = stream.set_nodelay(true);
        watch_over(&stream);
        let connection = Connection::new(self.alloc, number, called, stream, self.watch.now());
        let count = self.connections.len().saturating_add(BESIDE + 1);
        if self.turns.reserve(count).is_err()
            || self.connections.insert(number, connection).is_err()
        {
            return None;
        }
        self.last = number;
        Some(Event::Opened(number))
    }

    /// The next number that no connection has, from 1 to 2^32-2 and then from 1 again.
    fn free_number(&self) -> u32 {
        let mut number = self.last;
        for _ in 0..self.connections.len().saturating_add(1) {
            number = match number.checked_add(1) {
                Some(next) if next < CALL => next,
                _ => 1,
            };
            if !self.connections.contains_key(&number) {
                break;
            }
        }
        number
    }

    /// Reads once on a connection.
    fn read(&mut self, number: u32) -> Option<Event>
        ensures sized { IfSome result IsSizedEvent }
    {
        let now = self.watch.now();
        let connection = self.connections.get_mut(&number)?;
        let event = connection.turn(self.alloc, now);
        let more = connection.more;
        if connection.is_over() {
            self.connections.remove(&number);
        } else if more {
            self.queue(number);
        }
        self.grow(PIECE_LIMIT);
        event
    }

    /// Sends the piece, where the connection is open.
    pub(crate) fn send(&mut self, number: u32, piece: &[u8]) {
        let now = self.watch.now();
        let is_broken = match self.connections.get_mut(&number) {
            Some(connection) if connection.is_open() => {
                connection.send(piece, now);
                connection.is_broken()
            }
            _ => return,
        };
        if is_broken {
            self.queue(number);
        }
        self.grow(piece.len());
    }

    /// The connections may hold so many bytes more. While they hold too much, the one that holds most is broken
    /// off.
    fn grow(&mut self, bytes: usize) {
        self.grown = self.grown.saturating_add(bytes);
        if self.grown < GROWTH {
            return;
        }
        self.grown = 0;
        for _ in 0..self.connections.len() {
            match largest_one(&self.connections) {
                Some(number) => self.break_off(number),
                None => break,
            }
        }
    }

    /// Breaks off a connection. That it is shut is told at its turn.
    fn break_off(&mut self, number: u32) {
        if let Some(connection) = self.connections.get_mut(&number) {
            connection.break_off();
        }
        self.queue(number);
    }

    /// Shuts the connection, where it is open.
    pub(crate) fn shut(&mut self, number: u32) {
        let now = self.watch.now();
        if let Some(connection) = self.connections.get_mut(&number)
            && connection.is_open()
        {
            connection.leave(now);
        }
    }

    /// Sends what the connections take at once, and drops what comes. Whether all of them may be closed.
    pub(crate) fn part(&mut self) -> bool {
        let (alloc, now) = (self.alloc, self.watch.now());
        let mut is_done = true;
        for connection in self.connections.values_mut() {
            let may_close = connection.part(alloc, now);
            is_done = is_done && may_close;
        }
        is_done
    }
}

/// The token of what stands under this number.
pub(crate) fn token(number: u32) -> Token {
    Token(number as usize)
}

/// What a socket is watched for.
pub(crate) fn both_ways() -> Interest {
    Interest::READABLE | Interest::WRITABLE
}

/// Whether a call failed since no descriptor is left for it.
fn lacks_descriptors(error: &io::Error) -> bool {
    error.raw_os_error() == Some(libc::EMFILE)
}
