//! A wire in memory of which chosen calls find no memory.
ghost use Rattle.std.specs.Prelude.{◌≡◌, None, length};
ghost use Rattle.mld_io.specs.Wires.{taken_of};

use mld_io::{Event, IoFault, MemoryWire, Wire};
use std::marker::Model;

/// A wire in memory of which chosen calls find no memory. Its calls of `next` and `send` are counted together, from 0.
#[derive(Drop)]
pub struct ScarceWire {
    /// The wire that does the other calls.
    wire: MemoryWire,
    calls: u64,
    lacks: Vec<u64>,
}

impl Model for ScarceWire {
    ghost use Rattle.mld_io.specs.MemoryWires.{WireValue};

    ghost Value = { WireValue };

    ghost view = { λ w. w.wire };
}

impl ScarceWire {
    /// Such a wire, of which the calls with these numbers find no memory.
    pub fn new(wire: MemoryWire, lacks: Vec<u64>) -> ScarceWire
        ensures { result ≡ wire }
    {
        ScarceWire {
            wire,
            calls: 0,
            lacks,
        }
    }

    /// The wire that does the other calls.
    pub fn wire(&self) -> &MemoryWire
        ensures { result.now ≡ self.now }
    {
        &self.wire
    }
}

/// Counts a call; whether it is one of those that find no memory.
fn lacks_memory(calls: &mut u64, lacks: &[u64]) -> bool {
    let is_lacking = lacks.contains(calls);
    *calls = calls.saturating_add(1);
    is_lacking
}

impl Wire for ScarceWire {
    ghost log = { λ w. None };

    ghost taken = { λ w. length (taken_of w.log) };

    ghost faults = { λ w. w.faults };

    fn next(&mut self) -> Result<Event, IoFault> {
        if lacks_memory(&mut self.calls, self.lacks.as_slice()) {
            return Err(IoFault::NoMemory);
        }
        self.wire.next()
    }

    fn send(&mut self, conn: u32, piece: &[u8]) -> Result<(), IoFault> {
        if lacks_memory(&mut self.calls, self.lacks.as_slice()) {
            return Err(IoFault::NoMemory);
        }
        self.wire.send(conn, piece)
    }

    fn shut(&mut self, conn: u32) {
        self.wire.shut(conn);
    }
}
