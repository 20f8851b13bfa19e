//! What a bank in memory remembers of its calls.
ghost use Rattle.std.specs.Prelude.{◌≡◌, ℕ, ◌+◌, ◌<◌, ◌≤◌, List, [], ◌∷◌, ◌++◌, length, OnOk, IfSome, vec_len, vec_capacity};
ghost use Rattle.disk_model.specs.DeviceSteps.{Wrote, Synced, Cut};
ghost use Rattle.disk_model.specs.StepMarks.{steps_of_marks, pieces_size};

use crate::bytes::{grow, put};
use mld_io::{Leave, Side};
use std::alloc::{AllocError, Global};
use std::marker::Model;

/// How many steps a write makes room for: itself, a sync of each side, and a revival.
const ROOM: usize = 4;

/// A call that changed what reads give, or what a crash may leave; or a write with the sync behind
/// it.
#[derive(Clone, Copy, Debug)]
pub enum Mark {
    /// A piece of so many bytes was written on this side, from this place on: the side, the place
    /// and the size.
    Wrote(Side, u64, usize),
    /// Such a piece was written, and then the side was synced.
    WroteThrough(Side, u64, usize),
    /// The side was synced.
    Synced(Side),
    /// The power was cut, which left this much of the writes that were not synced.
    Cut(Leave),
}

/// The steps of a bank, the newest last. The pieces of all writes stand behind each other in the
/// first `used` bytes of `pieces`.
#[derive(Debug, Drop)]
pub struct Trace {
    marks: Vec<Mark>,
    pieces: Vec<u8>,
    used: usize,
}

impl Model for Trace {
    ghost use Rattle.std.specs.Prelude.{◌-◌, reverse, vec_capacity, vec_len};
    ghost use Rattle.disk_model.specs.DeviceSteps.{TraceValue};
    ghost use Rattle.disk_model.specs.StepMarks.{steps_of_marks};

    ghost Value = { TraceValue };

    ghost use Rattle.disk_model.specs.TraceInside.{IsTraceInside};

    ghost view = { λ s. record { steps = reverse (steps_of_marks s.marks.items s.pieces.items); room = vec_capacity s.marks - vec_len s.marks; spare = vec_len s.pieces - s.used } };

    ghost invariant = { IsTraceInside };
}

impl Trace {
    /// No step yet, which takes no memory.
    pub fn new(alloc: Global) -> Trace
        ensures { result.steps ≡ [] }
    {
        Trace {
            marks: Vec::new(alloc),
            pieces: Vec::new(alloc),
            used: 0,
        }
    }

    /// Makes the room for a write of a piece, and for the syncs and the revival that may follow.
    pub fn make_room(&mut self, piece: &[u8]) -> Result<(), AllocError>
        ensures steps { self.new.steps ≡ self.old.steps }
        ensures kept { self.old.room ≤ self.new.room }
        ensures ok { OnOk result ((4 ≤ self.new.room) × (length piece.now ≤ self.new.spare)) }
    {
        let Some(end) = self.used.checked_add(piece.len()) else {
            return Err(AllocError);
        };
        self.marks.reserve(ROOM)?;
        grow(&mut self.pieces, end, piece)
    }

    /// The piece was written on this side, from this place on.
    pub fn wrote(&mut self, side: Side, at: u64, piece: &[u8])
        requires room { 1 ≤ self.old.room }
        requires spare { length piece.now ≤ self.old.spare }
        ensures steps { self.new.steps ≡ Wrote side at piece.now ∷ self.old.steps }
        ensures room { self.old.room ≤ self.new.room + 1 }
    {
        put(&mut self.pieces, self.used, piece);
        self.used += piece.len();
        self.marks.push_reserved(Mark::Wrote(side, at, piece.len()));
    }

    /// The side was synced.
    pub fn synced(&mut self, side: Side)
        requires { 1 ≤ self.old.room }
        ensures steps { self.new.steps ≡ Synced side ∷ self.old.steps }
        ensures room { self.old.room ≤ self.new.room + 1 }
    {
        add_sync(&mut self.marks, side);
    }

    /// The power was cut, which left this much of the writes that were not synced.
    pub fn cut(&mut self, leave: Leave)
        requires { 1 ≤ self.old.room }
        ensures steps { self.new.steps ≡ Cut leave ∷ self.old.steps }
        ensures room { self.old.room ≤ self.new.room + 1 }
    {
        self.marks.push_reserved(Mark::Cut(leave));
    }
}

// Adds a sync to the marks. It takes no memory.
fn add_sync(marks: &mut Vec<Mark>, side: Side)
    requires { vec_len marks.old < vec_capacity marks.old }
    ensures steps { (bytes : List ℕ) → steps_of_marks marks.new.items bytes
        ≡ steps_of_marks marks.old.items bytes ++ Synced side ∷ [] }
    ensures size { pieces_size marks.new.items ≡ pieces_size marks.old.items }
    ensures len { vec_len marks.new ≤ vec_len marks.old + 1 }
    ensures capacity { vec_capacity marks.new ≡ vec_capacity marks.old }
{
    let Some(last) = marks.pop() else {
        marks.push_reserved(Mark::Synced(side));
        return;
    };
    match synced_through(last, side) {
        Some(both) => marks.push_reserved(both),
        None => {
            marks.push_reserved(last);
            marks.push_reserved(Mark::Synced(side));
        }
    }
}

// The mark of a write with the sync of its side behind it, where this is a mark of such a write.
fn synced_through(mark: Mark, side: Side) -> Option<Mark>
    ensures steps { IfSome result (λ both. (bytes : List ℕ) → steps_of_marks (both ∷ []) bytes
        ≡ steps_of_marks (mark ∷ []) bytes ++ Synced side ∷ []) }
    ensures size { IfSome result (λ both. pieces_size (both ∷ []) ≡ pieces_size (mark ∷ [])) }
{
    match mark {
        Mark::Wrote(written, at, size) if written == side => {
            Some(Mark::WroteThrough(side, at, size))
        }
        _ => None,
    }
}
