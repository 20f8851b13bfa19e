//! The bytes that a source has read ahead.
ghost use Rattle.std.specs.Prelude.{◌≡◌, ◌↔◌, ◌≤◌, min, [], ◌++◌, length, take, IsTrue, OnOk};
ghost use Rattle.std.specs.Io.KnownBytes.{Keeps, IsAtEnd, prepend_known};
ghost use Rattle.mld_io.specs.Faults.{HasCause};

use crate::faults::Failed;
use crate::memory::copy_front;
use crate::standard::tell_read;
use std::io::Read;
use std::marker::Model;

/// How many bytes are asked of a reader at once.
const READ_SIZE: usize = 4096;

/// Bytes that were read and not yet given: those of `room` from `begin` up to `end`.
#[derive(Debug, Drop)]
pub struct ReadAhead {
    room: [u8; READ_SIZE],
    begin: usize,
    end: usize,
}

impl Model for ReadAhead {
    ghost use Rattle.std.specs.Prelude.{ℕ, List, ◌≤◌, length, slice_range};

    ghost Value = { List ℕ };

    ghost view = { λ a. slice_range a.room a.begin a.end };

    ghost invariant = { λ a. (a.begin ≤ a.end) × (a.end ≤ length a.room) };
}

impl ReadAhead {
    /// No bytes.
    pub fn new() -> ReadAhead
        ensures { result ≡ [] }
    {
        ReadAhead {
            room: [0; READ_SIZE],
            begin: 0,
            end: 0,
        }
    }

    /// Whether there are none.
    #[inline(always)]
    pub fn is_empty(&self) -> bool
        ensures { IsTrue result ↔ (self.now ≡ []) }
    {
        self.begin == self.end
    }

    /// Reads once, where there are none. A failed read is counted, and gives none.
    #[inline(never)]
    pub fn fill<R: Read>(&mut self, from: &mut R, faults: &mut u64) -> Result<(), Failed>
        requires { self.old ≡ [] }
        ensures bytes { Keeps (R.remaining from.old) (prepend_known self.new (R.remaining from.new)) }
        ensures end { OnOk result (self.new ≡ [] → IsAtEnd (R.remaining from.new)) }
        ensures cause { HasCause faults.old faults.new result }
    {
        self.begin = 0;
        self.end = 0;
        let answer = from.read(&mut self.room);
        self.end = tell_read(answer, faults)?;
        Ok(())
    }

    /// Gives as many bytes as there are and have room, the earliest first, and answers how many.
    #[inline(always)]
    pub fn give(&mut self, out: &mut [u8]) -> usize
        ensures bound { result ≤ length out.new }
        ensures count { result ≡ min (length out.old) (length self.old) }
        ensures bytes { self.old ≡ take result out.new ++ self.new }
    {
        if out.len() == 1 && self.begin < self.end {
            out[0] = self.room[self.begin];
            self.begin += 1;
            return 1;
        }
        let count = copy_front(&self.room[self.begin..self.end], out);
        self.begin += count;
        count
    }
}
