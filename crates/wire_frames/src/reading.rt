//! The reader of frames.
ghost use Rattle.std.specs.Prelude.{◌≡◌, ◌≤◌, ℕ, List, length, drop, false, IfOk, OnErr, IsTrue, is_none};
ghost use Rattle.wire_frames.specs.Frames.{Feeds};
ghost use Rattle.wire_frames.specs.FrameReading.{IsFedOn};

use crate::cutting::{CutFrames, cut_frames};
use crate::kinds::Fed;
use std::alloc::{AllocError, Global};
use std::marker::Model;

/// A reader of the frames of a stream that comes in pieces. It keeps what came of the frame that is
/// under way, and no more memory than that takes.
#[derive(Drop)]
pub struct Frames {
    alloc: Global,
    place: u64,
    rest: Vec<u8>,
    good: bool,
}

impl Model for Frames {
    ghost use Rattle.wire_frames.specs.Frames.{FramesValue};

    ghost Value = { FramesValue };

    ghost view = { λ f. record { place = f.place; rest = f.rest.items; good = f.good } };
}

impl Frames {
    ghost use Rattle.std.specs.Prelude.{[], true};
    ghost use Rattle.wire_frames.specs.Frames.{Reads, FeedsOn};
    ghost use Rattle.wire_frames.specs.declared.kinds.Frame.{Frame};

    /// A reader at the start of a stream.
    pub fn new(alloc: Global) -> Frames
        ensures { result ≡ record { place = 0; rest = []; good = true } }
    {
        Frames {
            alloc,
            place: 0,
            rest: Vec::new(alloc),
            good: true,
        }
    }

    /// Whether there was neither a fault nor want of memory.
    pub fn is_good(&self) -> bool
        ensures { result ≡ self.now.good }
    {
        self.good
    }

    /// Reads a piece more, and gives the frames that end in it, up to the first fault.
    pub fn feed(&mut self, piece: &[u8]) -> Result<Fed, AllocError>
        requires { IsTrue self.old.good }
        ensures reads { (stream : List ℕ) (before : List Frame) → Reads self.old stream before
            → IfOk result (λ fed. FeedsOn stream before piece.now fed self.new) }
        ensures feeds { IfOk result (λ fed. Feeds self.old.rest piece.now fed.frames.items fed.fault self.new.rest) }
        ensures good { IfOk result (λ fed. self.new.good ≡ is_none fed.fault) }
        ensures no_memory { OnErr result (self.new.good ≡ false) }
    {
        let fed = feed_on(self.alloc, &mut self.place, &mut self.rest, piece);
        self.good = ends_well(&fed);
        fed
    }
}

/// Whether frames were read, and no fault is behind them.
fn ends_well(fed: &Result<Fed, AllocError>) -> bool
    ensures ok { IfOk fed.now (λ fed. result ≡ is_none fed.fault) }
    ensures err { OnErr fed.now (result ≡ false) }
{
    match fed {
        Ok(fed) => fed.fault.is_none(),
        Err(_) => false,
    }
}

/// Reads a piece behind the bytes of the frame that is under way, which has this place.
fn feed_on(
    alloc: Global,
    place: &mut u64,
    rest: &mut Vec<u8>,
    piece: &[u8],
) -> Result<Fed, AllocError>
    ensures { IfOk result (λ fed. IsFedOn place.old rest.old.items piece.now fed place.new rest.new.items) }
{
    rest.extend_from_slice(piece)?;
    let CutFrames { frames, end, fault } = cut_frames(alloc, rest.as_slice(), *place)?;
    drop_front(alloc, rest, end)?;
    *place = place.saturating_add(end as u64);
    Ok(Fed { frames, fault })
}

/// Drops the bytes before a place. Where there are none nothing is copied, so a frame in many pieces costs no more than
/// its bytes.
fn drop_front(alloc: Global, rest: &mut Vec<u8>, end: usize) -> Result<(), AllocError>
    requires { end ≤ length rest.old.items }
    ensures { IfOk result (λ done. rest.new.items ≡ drop end rest.old.items) }
{
    if end > 0 {
        *rest = Vec::from_slice(alloc, &rest[end..])?;
    }
    Ok(())
}
