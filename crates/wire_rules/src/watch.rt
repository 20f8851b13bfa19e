//! The time of a wire.

use std::time::{Clock, CpuClock};

/// How many microseconds one reading counts at most, however long it was since the one before.
const STEP: u64 = 2_000_000;

/// Counts time by a clock. Between two readings no more than 2 seconds go by, however long it was: while the node
/// is at work for one connection, no other gets late.
#[derive(Clone, Copy, Debug)]
pub struct Watch {
    /// How many microseconds the clock said when it was read last.
    read: u64,
    /// How many went by until then.
    micros: u64,
}

impl Watch {
    /// A watch at 0, whose clock wasn't read yet.
    pub fn new() -> Watch {
        Watch { read: 0, micros: 0 }
    }

    /// Reads the clock. Where that fails no time goes by.
    pub fn turn<R: Clock>(&mut self, rt: &R) {
        let Ok(time) = rt.monotonic() else {
            return;
        };
        let read = u64::try_from(time.as_micros()).unwrap_or(u64::MAX);
        let step = read.saturating_sub(self.read).min(STEP);
        self.micros = self.micros.saturating_add(step);
        self.read = read;
    }

    /// How many milliseconds went by until it was read last.
    pub fn now(&self) -> u64 {
        self.micros / 1_000
    }

    /// How many microseconds went by until it was read last.
    pub fn micros(&self) -> u64 {
        self.micros
    }
}

/// How many microseconds of a processor the program had. Where that can't be read it is none.
pub fn worked<R: CpuClock>(rt: &R) -> u64 {
    match rt.process_cpu_time() {
        Ok(time) => u64::try_from(time.as_micros()).unwrap_or(u64::MAX),
        Err(_) => 0,
    }
}
