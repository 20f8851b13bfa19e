//! The bytes of each side, and the writes on it that aren't synced.
ghost use Rattle.std.specs.Prelude.{◌≡◌, ◌+◌, ◌^◌, ◌<◌, ◌≤◌, true, false, [], not, ◌&&◌, ◌||◌, length, IfOk, OnOk, OnErr};
ghost use Rattle.mld_io.specs.Disk.{bytes_of, with_bytes};
ghost use Rattle.disk_model.specs.Sides.{durable, bytes_at, sides_at, is_unsynced};
ghost use Rattle.disk_model.specs.SideSteps.{write_left, same_side};

use crate::bytes::{grow, put};
use crate::unsynced::{Unsynced, covering, take_back, tear_again};
use mld_io::{Leave, Side};
use std::alloc::{AllocError, Global};
use std::marker::Model;

/// The bytes of one side: the first `size` of `seen` are what reads give. Beside them stand the
/// writes since the last sync, the oldest first, and whether there was one.
#[derive(Debug, Drop)]
pub struct SideBytes {
    alloc: Global,
    seen: Vec<u8>,
    size: usize,
    writes: Vec<Unsynced>,
    unsynced: bool,
}

impl Model for SideBytes {
    ghost use Rattle.std.specs.Prelude.{take};
    ghost use Rattle.disk_model.specs.Sides.{SideValue};
    ghost use Rattle.disk_model.specs.Covered.{lost_by, torn_by};

    ghost Value = { SideValue };

    ghost use Rattle.disk_model.specs.SideBytes.{IsSideInside};

    ghost view = { λ s. record { seen = take s.size s.seen.items; lost = lost_by s.writes.items (take s.size s.seen.items); torn = torn_by s.writes.items (lost_by s.writes.items (take s.size s.seen.items)); unsynced = s.unsynced } };

    ghost invariant = { IsSideInside };
}

impl SideBytes {
    /// A side with no bytes, which takes no memory.
    pub fn blank(alloc: Global) -> SideBytes
        ensures { result ≡ durable [] }
    {
        SideBytes {
            alloc,
            seen: Vec::new(alloc),
            size: 0,
            writes: Vec::new(alloc),
            unsynced: false,
        }
    }

    /// A side with these bytes, all of them durable.
    pub fn with_bytes(alloc: Global, bytes: &[u8]) -> Result<SideBytes, AllocError>
        ensures { IfOk result (λ side. side ≡ durable bytes.now) }
    {
        Ok(SideBytes {
            alloc,
            seen: Vec::from_slice(alloc, bytes)?,
            size: bytes.len(),
            writes: Vec::new(alloc),
            unsynced: false,
        })
    }

    /// What reads give.
    pub fn bytes(&self) -> &[u8]
        ensures { result.now ≡ self.now.seen }
    {
        &self.seen[..self.size]
    }

    /// Whether there was a write since the last sync.
    pub fn is_unsynced(&self) -> bool
        ensures { result ≡ self.now.unsynced }
    {
        self.unsynced
    }

    /// Writes the piece, so that a crash may lose, keep or tear it.
    pub fn write(&mut self, at: usize, piece: &[u8]) -> Result<(), AllocError>
        requires { at ≤ length self.old.seen }
        ensures ok { OnOk result
            ((leave : Leave) → bytes_at leave self.new ≡ write_left leave at piece.now (bytes_at leave self.old)) }
        ensures unsynced { OnOk result (self.new.unsynced ≡ true) }
        ensures err { OnErr result (self.new ≡ self.old) }
        ensures small { OnOk result (at + length piece.now < 2 ^ 64) }
    {
        let Some(end) = at.checked_add(piece.len()) else {
            return Err(AllocError);
        };
        let write = covering(self.alloc, &self.seen[..self.size], at, piece)?;
        self.writes.reserve(1)?;
        grow(&mut self.seen, end, piece)?;
        put(&mut self.seen, at, piece);
        self.size = self.size.max(end);
        self.writes.push_reserved(write);
        self.unsynced = true;
        Ok(())
    }

    /// Makes what reads give durable.
    pub fn sync(&mut self)
        ensures { self.new ≡ durable self.old.seen }
    {
        self.writes.clear();
        self.unsynced = false;
    }

    /// Loses each unsynced write.
    pub fn lose(&mut self)
        ensures { self.new ≡ durable self.old.lost }
    {
        self.size = take_back(&mut self.seen, self.size, &self.writes);
        self.writes.clear();
        self.unsynced = false;
    }

    /// Tears each unsynced write.
    pub fn tear(&mut self)
        ensures { self.new ≡ durable self.old.torn }
    {
        let _before = take_back(&mut self.seen, self.size, &self.writes);
        tear_again(&mut self.seen, self.size, &self.writes);
        self.writes.clear();
        self.unsynced = false;
    }

    /// Leaves of the unsynced writes what a crash leaves.
    pub fn cut(&mut self, leave: Leave)
        ensures left { (each : Leave) → bytes_at each self.new ≡ bytes_at leave self.old }
        ensures synced { self.new.unsynced ≡ false }
    {
        match leave {
            Leave::Lose => self.lose(),
            Leave::Keep => self.sync(),
            Leave::Torn => self.tear(),
        }
    }
}

/// Both sides.
#[derive(Debug, Drop)]
pub struct BothSides {
    a: SideBytes,
    b: SideBytes,
}

impl Model for BothSides {
    ghost use Rattle.disk_model.specs.Sides.{SidesValue};

    ghost Value = { SidesValue };

    ghost view = { λ s. record { a = s.a; b = s.b } };
}

impl BothSides {
    /// Two sides of these bytes.
    pub fn new(a: SideBytes, b: SideBytes) -> BothSides
        ensures { result ≡ record { a = a; b = b } }
    {
        BothSides { a, b }
    }

    /// What reads give of a side.
    pub fn bytes(&self, side: Side) -> &[u8]
        ensures { result.now ≡ bytes_of side (sides_at Leave.Keep self.now) }
    {
        match side {
            Side::A => self.a.bytes(),
            Side::B => self.b.bytes(),
        }
    }

    /// Whether there was a write on a side since its last sync.
    pub fn is_unsynced(&self, side: Side) -> bool
        ensures { result ≡ is_unsynced side self.now }
    {
        match side {
            Side::A => self.a.is_unsynced(),
            Side::B => self.b.is_unsynced(),
        }
    }

    /// Writes the piece on a side.
    pub fn write(&mut self, side: Side, at: usize, piece: &[u8]) -> Result<(), AllocError>
        requires { at ≤ length (bytes_of side (sides_at Leave.Keep self.old)) }
        ensures ok { OnOk result ((leave : Leave) → sides_at leave self.new
            ≡ with_bytes side (write_left leave at piece.now (bytes_of side (sides_at leave self.old)))
            (sides_at leave self.old)) }
        ensures unsynced { OnOk result
            ((each : Side) → is_unsynced each self.new ≡ (same_side side each || is_unsynced each self.old)) }
        ensures err { OnErr result (self.new ≡ self.old) }
        ensures small { OnOk result (at + length piece.now < 2 ^ 64) }
    {
        match side {
            Side::A => self.a.write(at, piece),
            Side::B => self.b.write(at, piece),
        }
    }

    /// Makes what reads give of a side durable.
    pub fn sync(&mut self, side: Side)
        ensures kept { (leave : Leave) → sides_at leave self.new
            ≡ with_bytes side (bytes_of side (sides_at Leave.Keep self.old)) (sides_at leave self.old) }
        ensures synced { (each : Side) → is_unsynced each self.new
            ≡ (not (same_side side each) && is_unsynced each self.old) }
    {
        match side {
            Side::A => self.a.sync(),
            Side::B => self.b.sync(),
        }
    }

    /// Leaves of the unsynced writes what a crash leaves.
    pub fn cut(&mut self, leave: Leave)
        ensures left { (each : Leave) → sides_at each self.new ≡ sides_at leave self.old }
        ensures synced { (each : Side) → is_unsynced each self.new ≡ false }
    {
        self.a.cut(leave);
        self.b.cut(leave);
    }
}
