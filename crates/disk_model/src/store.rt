//! What a bank in memory keeps: its sides, and the calls that made them.
ghost use Rattle.std.specs.Prelude.{◌≡◌, ◌+◌, ◌^◌, ◌<◌, ◌≤◌, [], ◌||◌, length, IfOk, OnOk, OnErr};
ghost use Rattle.mld_io.specs.Disk.{bytes_of};
ghost use Rattle.disk_model.specs.SideSteps.{left_by, AreInOrder};
ghost use Rattle.disk_model.specs.DeviceSteps.{Wrote};
ghost use Rattle.disk_model.specs.Store.{with_step, synced, cut};

use crate::sides::{BothSides, SideBytes};
use crate::steps::Trace;
use mld_io::{Leave, Piece, Side};
use std::alloc::{AllocError, Global};
use std::marker::Model;

/// The sides of a bank as they were at first and as they are, and the steps between.
#[derive(Debug, Drop)]
pub struct Store {
    first_a: Piece,
    first_b: Piece,
    sides: BothSides,
    steps: Trace,
}

impl Model for Store {
    ghost use Rattle.disk_model.specs.Store.{StoreValue};

    ghost Value = { StoreValue };

    ghost use Rattle.disk_model.specs.StoreInside.{IsStoreInside};

    ghost view = { λ s. record { first = record { a = s.first_a; b = s.first_b }; steps = s.steps.steps } };

    ghost invariant = { IsStoreInside };
}

impl Store {
    /// Two sides with no bytes, which takes no memory.
    pub fn blank(alloc: Global) -> Store
        ensures { result ≡ record { first = record { a = []; b = [] }; steps = [] } }
    {
        Store {
            first_a: Piece::from_vec(Vec::new(alloc)),
            first_b: Piece::from_vec(Vec::new(alloc)),
            sides: BothSides::new(SideBytes::blank(alloc), SideBytes::blank(alloc)),
            steps: Trace::new(alloc),
        }
    }

    /// Two sides of these bytes, all of them durable.
    pub fn with_bytes(alloc: Global, a: &[u8], b: &[u8]) -> Result<Store, AllocError>
        ensures { IfOk result (λ s. s ≡ record { first = record { a = a.now; b = b.now }; steps = [] }) }
    {
        Ok(Store {
            first_a: Piece::copy_in(alloc, a)?,
            first_b: Piece::copy_in(alloc, b)?,
            sides: BothSides::new(
                SideBytes::with_bytes(alloc, a)?,
                SideBytes::with_bytes(alloc, b)?,
            ),
            steps: Trace::new(alloc),
        })
    }

    /// What reads give of a side.
    pub fn bytes(&self, side: Side) -> &[u8]
        ensures { result.now ≡ bytes_of side (left_by Leave.Keep self.now.first self.now.steps) }
    {
        self.sides.bytes(side)
    }

    /// Writes the piece on a side, and makes the room that the syncs and the revival need that may
    /// follow.
    pub fn write(&mut self, side: Side, at: usize, piece: &[u8]) -> Result<(), AllocError>
        requires { at ≤ length (bytes_of side (left_by Leave.Keep self.old.first self.old.steps)) }
        ensures ok { OnOk result (self.new ≡ with_step (Wrote side at piece.now) self.old) }
        ensures err { OnErr result (self.new ≡ self.old) }
        ensures small { OnOk result (at + length piece.now < 2 ^ 64) }
    {
        self.steps.make_room(piece)?;
        self.sides.write(side, at, piece)?;
        self.steps.wrote(side, at as u64, piece);
        Ok(())
    }

    /// Makes what reads give of a side durable. Where nothing is unsynced it adds no step.
    pub fn sync(&mut self, side: Side)
        ensures { self.new ≡ synced side self.old }
    {
        if self.sides.is_unsynced(side) {
            self.sides.sync(side);
            self.steps.synced(side);
        }
    }

    /// Leaves of the unsynced writes what a crash leaves. Where nothing is unsynced it adds no
    /// step.
    pub fn cut(&mut self, leave: Leave)
        ensures cut { self.new ≡ cut leave self.old }
        ensures in_order { AreInOrder self.old.first self.old.steps }
    {
        if self.sides.is_unsynced(Side::A) || self.sides.is_unsynced(Side::B) {
            self.sides.cut(leave);
            self.steps.cut(leave);
        }
    }
}
