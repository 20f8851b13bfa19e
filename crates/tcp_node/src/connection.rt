//! One connection.
ghost use Rattle.std.specs.Prelude.{◌≡◌, ◌≤◌, vec_len, IfOk, IfSome};
ghost use Rattle.std.specs.Io.{ReadsAtMost};
ghost use Rattle.mld_io.specs.Wires.{piece_limit};
ghost use Rattle.tcp_node.specs.TcpWires.{IsSizedEvent};

use crate::limits::{GREETING, PARTING, STANDSTILL, UNREAD_LIMIT};
use mio::net::TcpStream;
use mld_io::{Event, Piece};
use std::alloc::{AllocError, Global};
use std::io::{self, ErrorKind, Read};
use std::net::Shutdown;
use wire_rules::{Framing, Kind, Outbox, PIECE_LIMIT};

/// How many bytes of a connection that was shut are read and dropped. One that is closed with bytes
/// unread is reset, and what was sent last on it may then be lost.
const DROP_LIMIT: usize = 1_048_576;

/// How far a connection is.
#[derive(Clone, Copy, Debug, PartialEq, Eq)]
enum Stage {
    /// Its bytes are given.
    Open,
    /// Nothing of it is given any more, and what waits is still sent.
    Leaving,
    /// The other end was told that no more comes.
    Left,
}

/// A connection, and what waits to be sent on it.
#[derive(Drop)]
pub(crate) struct Connection {
    number: u32,
    /// Whether this end called. Then it is read whatever waits, so that of two ends that both have much to
    /// send one always goes on.
    called: bool,
    /// Where its bytes come and go, until it is broken off.
    stream: Option<TcpStream>,
    pub(crate) outbox: Outbox,
    stage: Stage,
    /// How far the frame is whose bytes are given.
    framing: Framing,
    /// Whether the other end sends no more.
    ended: bool,
    /// Whether there may be more to read.
    pub(crate) more: bool,
    /// How many bytes were read and dropped.
    dropped: usize,
    /// When something last went on: it came to its stage, bytes of it went out, or bytes came behind its first
    /// frame.
    since: u64,
    /// How many microseconds the node works for an event of it, about.
    cost: u64,
}

impl Connection {
    /// A connection with this number, which is open from now on.
    pub(crate) fn new(
        alloc: Global,
        number: u32,
        called: bool,
        stream: TcpStream,
        now: u64,
    ) -> Connection {
        Connection {
            number,
            called,
            stream: Some(stream),
            outbox: Outbox::new(alloc),
            stage: Stage::Open,
            framing: Framing::new(),
            ended: false,
            more: false,
            dropped: 0,
            since: now,
            cost: 0,
        }
    }

    /// Whether its events are given.
    pub(crate) fn is_open(&self) -> bool {
        self.stage == Stage::Open
    }

    /// Whether it was broken off, which its next turn tells.
    pub(crate) fn is_broken(&self) -> bool {
        self.stream.is_none()
    }

    /// Whether there is nothing left to do on it.
    pub(crate) fn is_over(&self) -> bool {
        !self.is_open() && (self.dropped >= DROP_LIMIT || self.ended && self.outbox.is_empty())
    }

    /// How many bytes are held for it: what waits to be sent, and what came of a frame or a message that is
    /// under way. The latter doesn't count on one that was called.
    pub(crate) fn held(&self) -> usize {
        if self.called || !self.is_open() {
            return self.outbox.held();
        }
        self.outbox.held().saturating_add(self.framing.kept())
    }

    /// Its place among those that may go for another one, and since when: one that was shut, one without a
    /// whole frame, or any other. One that was called never goes.
    pub(crate) fn place(&self) -> Option<(u8, u64)> {
        if self.called || self.is_broken() {
            return None;
        }
        let kind = match self.stage {
            Stage::Leaving | Stage::Left => 0,
            Stage::Open if !self.framing.has_begun() => 1,
            Stage::Open => 2,
        };
        Some((kind, self.since))
    }

    /// Of which kind it is among those that wait for their turn. One that was called is taken to ask for little, and
    /// one whose frame is long for much. One that was broken off asks for nothing.
    pub(crate) fn kind(&self) -> Kind {
        if self.called {
            Kind::Little
        } else if self.is_broken() || self.framing.is_blank() {
            Kind::New
        } else if !self.framing.is_short() {
            Kind::Much
        } else if !self.framing.has_begun() {
            Kind::First
        } else {
            Kind::of_cost(self.cost)
        }
    }

    /// The node worked so many microseconds for an event of it. So it is taken to do for the next one, and for
    /// less and less with each that costs less.
    pub(crate) fn note_cost(&mut self, spent: u64) {
        let less = (self.cost / 8).saturating_add(1);
        self.cost = self.cost.saturating_sub(less).max(spent);
    }

    /// Whether nothing went on for as long as the other end has time.
    pub(crate) fn is_late(&self, now: u64) -> bool {
        let time = match self.stage {
            Stage::Left => PARTING,
            Stage::Leaving => STANDSTILL,
            Stage::Open if !self.framing.has_begun() => GREETING,
            Stage::Open if self.framing.kept() == 0 && self.outbox.is_empty() => return false,
            Stage::Open => STANDSTILL,
        };
        !self.is_broken() && now.saturating_sub(self.since) >= time
    }

    /// Sends what waits, and reads once, no further than to the end of a frame's head or payload: what
    /// one frame asks for may be much, and others wait meanwhile. While much waits on one that was accepted
    /// nothing is read. Where memory is wanting it is broken off.
    pub(crate) fn turn(&mut self, alloc: Global, now: u64) -> Option<Event>
        ensures sized { IfSome result IsSizedEvent }
    {
        self.more = false;
        self.flush(now);
        let is_unread = !self.called && self.is_open() && self.outbox.held() > UNREAD_LIMIT;
        if self.ended || is_unread {
            return None;
        }
        match zeros(alloc, self.wanted()) {
            Ok(mut bytes) => {
                let count = read_of(&mut self.stream, &mut bytes);
                self.after_read(bytes, count, now)
            }
            Err(_) => {
                self.break_off();
                self.end(now)
            }
        }
    }

    /// How many bytes may be read at once.
    fn wanted(&self) -> usize
        ensures { result ≤ piece_limit }
    {
        if self.is_open() {
            self.framing.wanted()
        } else {
            PIECE_LIMIT
        }
    }

    /// So many of these bytes were read, or none.
    fn after_read(&mut self, bytes: Vec<u8>, count: io::Result<usize>, now: u64) -> Option<Event>
        requires within { IfOk count (λ n. n ≤ vec_len bytes) }
        requires few { vec_len bytes ≤ piece_limit }
        ensures sized { IfSome result IsSizedEvent }
    {
        match count {
            Ok(0) => self.end(now),
            Ok(count) => self.take(bytes, count, now),
            Err(error) if error.kind() == ErrorKind::WouldBlock => None,
            Err(error) if error.kind() == ErrorKind::Interrupted => {
                self.more = true;
                None
            }
            Err(_) => {
                self.outbox.clear();
                self.end(now)
            }
        }
    }

    /// The first of these bytes came. Where nothing of the connection is given they are dropped.
    fn take(&mut self, mut bytes: Vec<u8>, count: usize, now: u64) -> Option<Event>
        requires some { 1 ≤ count }
        requires within { count ≤ vec_len bytes }
        requires few { vec_len bytes ≤ piece_limit }
        ensures sized { IfSome result IsSizedEvent }
    {
        self.more = true;
        if !self.is_open() {
            self.dropped = self.dropped.saturating_add(count);
            return None;
        }
        bytes.truncate(count);
        self.framing.advance(&bytes);
        if self.framing.has_begun() {
            self.since = now;
        }
        Some(Event::Bytes(self.number, Piece::from_vec(bytes)))
    }

    /// The other end sends no more.
    fn end(&mut self, now: u64) -> Option<Event>
        ensures sized { IfSome result IsSizedEvent }
    {
        self.ended = true;
        if !self.is_open() {
            return None;
        }
        self.leave(now);
        Some(Event::Shut(self.number))
    }

    /// Sends the piece, or puts it behind what waits. Where memory is wanting the connection is broken off.
    pub(crate) fn send(&mut self, piece: &[u8], now: u64) {
        if self.is_broken() {
            return;
        }
        if self.outbox.is_empty() {
            self.since = now;
        }
        if self.outbox.push(piece).is_err() {
            self.break_off();
        }
        self.flush(now);
    }

    /// Gives nothing of it any more, and shuts it once what waits is sent.
    pub(crate) fn leave(&mut self, now: u64) {
        self.stage = Stage::Leaving;
        self.flush(now);
    }

    /// Sends what the stream takes at once of what waits. Where the other end is gone what came is still given,
    /// unless much waited that it didn't read.
    fn flush(&mut self, now: u64) {
        let before = self.outbox.held();
        let written = match &mut self.stream {
            Some(stream) => self.outbox.write_to(stream),
            None => Ok(()),
        };
        if written.is_err() && before > UNREAD_LIMIT {
            self.break_off();
        } else if written.is_err() {
            self.outbox.clear();
            self.shut_stream(Shutdown::Both);
        }
        if self.outbox.held() < before {
            self.since = now;
        }
        if self.stage == Stage::Leaving && self.outbox.is_empty() {
            self.stage = Stage::Left;
            self.since = now;
            self.shut_stream(Shutdown::Write);
        }
    }

    /// Tells the other end that no more comes or is read.
    fn shut_stream(&self, how: Shutdown) {
        if let Some(stream) = &self.stream {
            // Where this fails the connection is broken, which a read tells.
            let _ = stream.shutdown(how);
        }
    }

    /// Closes it at once. What waits is dropped, and so is what came and wasn't given.
    pub(crate) fn break_off(&mut self) {
        self.outbox.clear();
        self.stream = None;
    }

    /// Sends what is taken at once, and drops what comes. Whether it may be closed: all is sent, and what the
    /// other end sends behind that won't have the system drop it.
    pub(crate) fn part(&mut self, alloc: Global, now: u64) -> bool {
        if self.is_open() {
            self.leave(now);
        }
        for _ in 0..DROP_LIMIT {
            let _dropped = self.turn(alloc, now);
            if self.is_over() || !self.more {
                break;
            }
        }
        self.outbox.is_empty() && (self.dropped == 0 || self.is_over())
    }
}

/// Reads of a stream. One that is gone is at its end.
fn read_of(stream: &mut Option<TcpStream>, bytes: &mut [u8]) -> io::Result<usize>
    ensures { ReadsAtMost result bytes.new }
{
    match stream {
        Some(stream) => stream.read(bytes),
        None => Ok(0),
    }
}

/// So many bytes 0.
fn zeros(alloc: Global, size: usize) -> Result<Vec<u8>, AllocError>
    ensures { IfOk result (λ bytes. vec_len bytes ≡ size) }
{
    Vec::from_elem(alloc, 0, size)
}
