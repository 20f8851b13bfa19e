//! The edges of a run whose lines are in memory: where they come from, and where their replies go. Neither fails.
ghost use Rattle.std.specs.Prelude.{◌≡◌, ◌++◌, Some, None, min, take, drop, length};

use mld_io::{Failed, IoFault, Sink, Source};
use std::marker::Model;

/// A source over a text in memory, which contracts see as what is left of it.
#[derive(Drop)]
pub struct TextSource {
    text: Vec<u8>,
    at: usize,
}

impl Model for TextSource {
    ghost use Rattle.std.specs.Prelude.{◌≤◌, ℕ, List, drop, vec_len};

    ghost Value = { List ℕ };

    ghost view = { λ s. drop s.at s.text.items };

    ghost invariant = { λ s. s.at ≤ vec_len s.text };
}

impl TextSource {
    /// A source of this text.
    pub fn new(text: Vec<u8>) -> TextSource
        ensures { result ≡ text.items }
    {
        TextSource { text, at: 0 }
    }
}

impl Source for TextSource {
    ghost left = { λ s. Some s };

    ghost faults = { λ _. 0 };

    /// Reads as much as is left and has room.
    fn read(&mut self, out: &mut [u8]) -> Result<usize, Failed> {
        let count = copy_front(&self.text[self.at..], out);
        self.at += count;
        Ok(count)
    }
}

/// Copies as many bytes as there are and have room, and answers how many.
fn copy_front(from: &[u8], to: &mut [u8]) -> usize
    ensures count { result ≡ min (length to.old) (length from.now) }
    ensures copied { to.new ≡ take result from.now ++ drop result to.old }
{
    let count = to.len().min(from.len());
    to[..count].copy_from_slice(&from[..count]);
    count
}

/// A sink that lets go what it gets, and tells nothing of it.
#[derive(Drop)]
pub struct NoSink;

impl Sink for NoSink {
    ghost held = { λ _. None };

    ghost faults = { λ _. 0 };

    /// Takes the whole piece.
    fn write(&mut self, piece: &[u8]) -> Result<usize, IoFault> {
        Ok(piece.len())
    }
}
