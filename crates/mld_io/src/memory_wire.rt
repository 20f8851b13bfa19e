//! A wire in memory, for tries of what stands above wires.
ghost use Rattle.std.specs.Prelude.{◌≡◌, ◌↔◌, ◌+◌, ◌-◌, ◌^◌, ◌<◌, ◌≤◌, [], filter, drop, min, length, Some, Contains, IfOk, IsErrOf, IsTrue};
ghost use Rattle.mld_io.specs.Faults.{HasSinkCause};
ghost use Rattle.mld_io.specs.MemoryWires.{FailsNext, NextMoves, SendMoves, first_event};
ghost use Rattle.mld_io.specs.Wires.{CountsEvent, TakesEvent, TellsSent, is_event, sent_on, taken_of, was_closed};

use crate::events::{Event, WireCall, copy_event, is_sized};
use crate::faults::IoFault;
use crate::pieces::Piece;
use crate::wire_records::WireRecord;
use crate::wires::Wire;
use std::alloc::{AllocError, Global};
use std::marker::Model;

/// A wire in memory, of which chosen calls fail.
#[derive(Debug, Drop)]
pub struct MemoryWire {
    alloc: Global,
    events: Vec<Event>,
    at: usize,
    done: WireRecord,
    faults: u64,
    calls: u64,
    fails: Vec<u64>,
}

impl Model for MemoryWire {
    ghost use Rattle.std.specs.Prelude.{drop};
    ghost use Rattle.mld_io.specs.MemoryWires.{WireValue, AreEvents};

    ghost Value = { WireValue };

    ghost view = { λ w. record { left = drop w.at w.events.items; log = w.done; faults = w.faults; calls = w.calls; fails = w.fails.items } };

    ghost invariant = { λ w. AreEvents w.at w.events.items };
}

impl MemoryWire {
    /// A wire that gives these events, and then `End` at each call. An event whose piece is empty
    /// or longer than 65,536 bytes is left out. The calls of `next` and `send` with these numbers
    /// fail, where the first of them since making has number 0, and one that answers want of
    /// memory has no number.
    pub fn new(
        alloc: Global,
        mut events: Vec<Event>,
        fails: &[u64],
    ) -> Result<MemoryWire, AllocError>
        ensures { IfOk result (λ w. w
            ≡ record { left = filter is_event events.items; log = []; faults = 0; calls = 0; fails = fails.now }) }
    {
        let fails = Vec::from_slice(alloc, fails)?;
        events.retain(is_sized);
        Ok(MemoryWire {
            alloc,
            events,
            at: 0,
            done: WireRecord::new(alloc),
            faults: 0,
            calls: 0,
            fails,
        })
    }

    /// The bytes that were sent on a connection.
    pub fn sent(&self, alloc: Global, conn: u32) -> Result<Piece, AllocError>
        ensures { IfOk result (λ piece. piece ≡ sent_on conn self.now.log) }
    {
        Ok(Piece::from_vec(self.done.sent(alloc, conn)?))
    }

    /// Whether a connection was shut from this end.
    pub fn is_shut(&self, conn: u32) -> bool
        ensures { result ≡ was_closed conn self.now.log }
    {
        self.done.is_shut(conn)
    }

    /// Whether the next call fails, which is counted then.
    fn fails(&mut self) -> bool
        ensures fails { FailsNext self.old result self.new }
        ensures later { self.old.faults ≤ self.new.faults }
    {
        if self.fails.contains(&self.calls) {
            self.calls = self.calls.saturating_add(1);
            self.faults = self.faults.saturating_add(1);
            return true;
        }
        false
    }
}

impl Wire for MemoryWire {
    ghost log = { λ w. Some w.log };

    ghost taken = { λ w. length (taken_of w.log) };

    ghost faults = { λ w. w.faults };

    /// Gives the next of the events, or fails where the call's number says so.
    fn next(&mut self) -> Result<Event, IoFault>
        requires { length (taken_of self.old.log) < 2 ^ 64 - 1 }
        ensures log { TakesEvent self.old.log result (Some self.new.log) }
        ensures taken { CountsEvent (length (taken_of self.old.log)) result (length (taken_of self.new.log)) }
        ensures sized { IfOk result (λ event. IsTrue (is_event event)) }
        ensures no_memory { IsErrOf result IoFault.NoMemory → self.new ≡ self.old }
        ensures cause { HasSinkCause self.old.faults self.new.faults result }
        ensures fails { IsErrOf result IoFault.Failed ↔ Contains self.old.fails self.old.calls }
        ensures moves { NextMoves self.old result self.new }
    {
        if self.fails() {
            return Err(IoFault::Failed);
        }
        let event = event_at(self.alloc, &self.events, self.at)?;
        self.done
            .add(WireCall::Took(copy_event(self.alloc, &event)?))?;
        self.at = (self.at + 1).min(self.events.len());
        self.calls = self.calls.saturating_add(1);
        Ok(event)
    }

    /// Takes the whole piece, or fails where the call's number says so.
    fn send(&mut self, conn: u32, piece: &[u8]) -> Result<(), IoFault>
        ensures log { TellsSent self.old.log conn piece.now result (Some self.new.log) }
        ensures taken { length (taken_of self.new.log) ≡ length (taken_of self.old.log) }
        ensures no_memory { IsErrOf result IoFault.NoMemory → self.new ≡ self.old }
        ensures cause { HasSinkCause self.old.faults self.new.faults result }
        ensures fails { IsErrOf result IoFault.Failed ↔ Contains self.old.fails self.old.calls }
        ensures moves { SendMoves self.old conn piece.now result self.new }
    {
        if self.fails() {
            return Err(IoFault::Failed);
        }
        let piece = Piece::copy_in(self.alloc, piece)?;
        self.done.add(WireCall::Sent(conn, piece))?;
        self.calls = self.calls.saturating_add(1);
        Ok(())
    }

    fn shut(&mut self, conn: u32) {
        self.done.shut(conn);
    }
}

/// A copy of the event at this place, which is the end past the last one.
fn event_at(alloc: Global, events: &[Event], at: usize) -> Result<Event, AllocError>
    ensures { IfOk result (λ event. event ≡ first_event (drop at events.now)) }
{
    match events.get(at) {
        Some(event) => copy_event(alloc, event),
        None => Ok(Event::End),
    }
}
