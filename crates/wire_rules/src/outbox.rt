//! Bytes that wait to be sent.

use std::alloc::{AllocError, Global};
use std::collections::VecDeque;
use std::io::{ErrorKind, Write};

/// How many bytes a piece counts beside its own, for the room that it takes.
const PIECE_COST: usize = 64;

/// The pieces that wait to be sent on one connection, in order.
#[derive(Drop)]
pub struct Outbox {
    alloc: Global,
    pieces: VecDeque<Vec<u8>>,
    /// How many bytes of the first piece were sent.
    sent: usize,
    /// How many bytes wait.
    len: usize,
}

/// The connection takes no more bytes.
#[derive(Clone, Copy, Debug, Drop)]
pub struct Broken;

impl Outbox {
    /// Nothing waits.
    pub fn new(alloc: Global) -> Outbox {
        Outbox {
            alloc,
            pieces: VecDeque::new(alloc),
            sent: 0,
            len: 0,
        }
    }

    /// Whether nothing waits.
    pub fn is_empty(&self) -> bool {
        self.pieces.is_empty()
    }

    /// How many bytes what waits takes, about.
    pub fn held(&self) -> usize {
        let pieces = self.pieces.len().saturating_mul(PIECE_COST);
        self.len.saturating_add(pieces)
    }

    /// How many bytes wait of the piece that is being sent.
    pub fn first(&self) -> usize {
        let first = self.pieces.front().map_or(0, |piece| piece.len());
        first.saturating_sub(self.sent)
    }

    /// Puts a copy of the piece behind what waits.
    pub fn push(&mut self, piece: &[u8]) -> Result<(), AllocError> {
        if piece.is_empty() {
            return Ok(());
        }
        self.pieces.push_back(Vec::from_slice(self.alloc, piece)?)?;
        self.len = self.len.saturating_add(piece.len());
        Ok(())
    }

    /// Drops what waits.
    pub fn clear(&mut self) {
        self.pieces.clear();
        self.sent = 0;
        self.len = 0;
    }

    /// Writes as much as the stream takes at once.
    pub fn write_to<W: Write>(&mut self, stream: &mut W) -> Result<(), Broken> {
        for _ in 0..self.len.saturating_add(1) {
            let Some(rest) = self.pieces.front().and_then(|piece| piece.get(self.sent..)) else {
                return Ok(());
            };
            match stream.write(rest) {
                Ok(0) => return Err(Broken),
                Ok(count) => self.advance(count),
                Err(error) if error.kind() == ErrorKind::WouldBlock => return Ok(()),
                Err(error) if error.kind() == ErrorKind::Interrupted => {}
                Err(_) => return Err(Broken),
            }
        }
        Ok(())
    }

    /// Counts bytes of the first piece as sent.
    fn advance(&mut self, count: usize) {
        self.sent = self.sent.saturating_add(count);
        self.len = self.len.saturating_sub(count);
        if self
            .pieces
            .front()
            .is_none_or(|piece| piece.len() <= self.sent)
        {
            self.pieces.pop_front();
            self.sent = 0;
        }
    }
}
