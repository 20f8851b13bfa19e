//! Sources and sinks in memory, for tries of what stands above them.
ghost use Rattle.std.specs.Prelude.{◌≡◌, ◌↔◌, ◌<◌, [], ◌++◌, min, take, drop, length, Some, Contains, IsErr, IsErrOf, IfOk};
ghost use Rattle.std.specs.Io.{ReadsAtMost, WritesAtMost};
ghost use Rattle.std.specs.Io.KnownBytes.{ReadConsumes, WriteAppends};
ghost use Rattle.mld_io.specs.Faults.{HasCause, HasSinkCause};
ghost use Rattle.mld_io.specs.Memory.{SourceMoves, SinkMoves};

use crate::faults::{Failed, IoFault};
use crate::sinks::Sink;
use crate::sources::Source;
use std::alloc::{AllocError, Global};
use std::marker::Model;

/// A source in memory, of which chosen calls fail.
#[derive(Debug, Drop)]
pub struct MemorySource {
    bytes: Vec<u8>,
    at: usize,
    faults: u64,
    calls: u64,
    fails: Vec<u64>,
}

impl Model for MemorySource {
    ghost use Rattle.std.specs.Prelude.{◌≤◌, drop, vec_len};
    ghost use Rattle.mld_io.specs.Memory.{SourceValue};

    ghost Value = { SourceValue };

    ghost view = { λ s. record { left = drop s.at s.bytes.items; faults = s.faults; calls = s.calls; fails = s.fails.items } };

    ghost invariant = { λ s. s.at ≤ vec_len s.bytes };
}

impl MemorySource {
    /// A source of these bytes. The calls with these numbers fail, where the first call since
    /// making has number 0.
    pub fn new(alloc: Global, bytes: &[u8], fails: &[u64]) -> Result<MemorySource, AllocError>
        ensures { IfOk result (λ s. s ≡ record { left = bytes.now; faults = 0; calls = 0; fails = fails.now }) }
    {
        Ok(MemorySource {
            bytes: Vec::from_slice(alloc, bytes)?,
            at: 0,
            faults: 0,
            calls: 0,
            fails: Vec::from_slice(alloc, fails)?,
        })
    }
}

impl Source for MemorySource {
    ghost left = { λ s. Some s.left };

    ghost faults = { λ s. s.faults };

    /// Reads as much as is left and has room, or fails where the call's number says so.
    fn read(&mut self, out: &mut [u8]) -> Result<usize, Failed>
        ensures bound { ReadsAtMost result out.new }
        ensures bytes { ReadConsumes (Some self.old.left) (Some self.new.left) result out.new }
        ensures cause { HasCause self.old.faults self.new.faults result }
        ensures fails { IsErr result ↔ Contains self.old.fails self.old.calls }
        ensures moves { SourceMoves self.old (length out.old) result self.new }
    {
        let fails = self.fails.contains(&self.calls);
        self.calls = self.calls.saturating_add(1);
        if fails {
            self.faults = self.faults.saturating_add(1);
            return Err(Failed);
        }
        let count = copy_front(&self.bytes[self.at..], out);
        self.at += count;
        Ok(count)
    }
}

/// Copies as many bytes as there are and have room, and answers how many.
pub fn copy_front(from: &[u8], to: &mut [u8]) -> usize
    ensures count { result ≡ min (length to.old) (length from.now) }
    ensures copied { to.new ≡ take result from.now ++ drop result to.old }
{
    let count = to.len().min(from.len());
    to[..count].copy_from_slice(&from[..count]);
    count
}

/// A sink in memory, of which chosen calls fail.
#[derive(Debug, Drop)]
pub struct MemorySink {
    bytes: Vec<u8>,
    faults: u64,
    calls: u64,
    fails: Vec<u64>,
}

impl Model for MemorySink {
    ghost use Rattle.mld_io.specs.Memory.{SinkValue};

    ghost Value = { SinkValue };

    ghost view = { λ s. record { held = s.bytes.items; faults = s.faults; calls = s.calls; fails = s.fails.items } };
}

impl MemorySink {
    /// A sink that holds nothing. The calls with these numbers fail, where the first call since
    /// making has number 0.
    pub fn new(alloc: Global, fails: &[u64]) -> Result<MemorySink, AllocError>
        ensures { IfOk result (λ s. s ≡ record { held = []; faults = 0; calls = 0; fails = fails.now }) }
    {
        Ok(MemorySink {
            bytes: Vec::new(alloc),
            faults: 0,
            calls: 0,
            fails: Vec::from_slice(alloc, fails)?,
        })
    }

    /// The bytes written so far.
    pub fn bytes(&self) -> &[u8]
        ensures { result.now ≡ self.now.held }
    {
        self.bytes.as_slice()
    }
}

impl Sink for MemorySink {
    ghost held = { λ s. Some s.held };

    ghost faults = { λ s. s.faults };

    /// Takes the whole piece, or fails where the call's number says so.
    fn write(&mut self, piece: &[u8]) -> Result<usize, IoFault>
        ensures bound { WritesAtMost result piece.now }
        ensures some { IfOk result (λ n. 0 < length piece.now → 0 < n) }
        ensures bytes { WriteAppends (Some self.old.held) (Some self.new.held) result piece.now }
        ensures cause { HasSinkCause self.old.faults self.new.faults result }
        ensures fails { IsErrOf result IoFault.Failed ↔ Contains self.old.fails self.old.calls }
        ensures moves { SinkMoves self.old piece.now result self.new }
    {
        let fails = self.fails.contains(&self.calls);
        self.calls = self.calls.saturating_add(1);
        if fails {
            self.faults = self.faults.saturating_add(1);
            return Err(IoFault::Failed);
        }
        self.bytes.extend_from_slice(piece)?;
        Ok(piece.len())
    }
}
