//! Entries that wait, in order of arrival.
ghost use Rattle.std.specs.Prelude.{◌≡◌, ◌≢◌, ◌<◌, ◌≤◌, ◌↔◌, ◌++◌, ◌∷◌, [], length, IsTrue, IsNone, IfOk, IfSome, IfNone, IsErrOf, OnOk, OnErr, Ok, MatchOption};
ghost use Rattle.std.specs.List.{AllWithin, HoldsAt};
ghost use Rattle.causal_buffer.specs.HeldEntries.{IsHeldRange, HasNoRoomFor, IsAddedTo};
ghost use Rattle.mld_ops.specs.Held.{held_limit, ranges_of};
ghost use Rattle.causal_buffer.specs.declared.faults.HeldFault.TheVariants as faults;
ghost use Rattle.causal_buffer.specs.declared.held.Kept.TheVariants as kept;
ghost use Rattle.mld_ops.specs.Entry.{EntryValue};
ghost use Rattle.mld_ops.specs.Picking.{DropsThose, HasNone, TakesFirst};
ghost use Rattle.mld_ops.specs.Ready.{IsKnownEntry, IsReadyEntry};

use crate::faults::HeldFault;
use crate::ready::{is_known, is_ready};
use mld_ops::{Entry, HELD_LIMIT};
use std::alloc::{AllocError, Global};
use std::marker::Model;
use tree_clock::{Clock, Range, Ranges};

/// What became of an entry that was to be held.
#[derive(Clone, Copy, Debug, PartialEq, Eq)]
pub enum Kept {
    /// It comes behind the others.
    Added,
    /// An entry of the same range was held, and nothing has changed.
    Already,
}

/// Entries that wait until what they rest on is known. Contracts see them as a list, in order of arrival.
#[derive(Drop)]
pub struct Held {
    entries: Vec<Entry>,
}

impl Model for Held {
    ghost use Rattle.std.specs.Prelude.{◌≤◌, List, length};
    ghost use Rattle.mld_ops.specs.Entry.{EntryValue};
    ghost use Rattle.mld_ops.specs.Held.{held_limit};

    ghost Value = { List EntryValue };

    ghost view = { λ held. held.entries.items };

    ghost invariant = { λ held. length held.entries.items ≤ held_limit };
}

impl Held {
    /// No entry.
    pub fn empty(alloc: Global) -> Held
        ensures { result ≡ [] }
    {
        Held {
            entries: Vec::new(alloc),
        }
    }

    /// The number of entries.
    pub fn len(&self) -> usize
        ensures value { result ≡ length self.now }
        ensures limit { length self.now ≤ held_limit }
    {
        self.entries.len()
    }

    /// Whether there is no entry.
    pub fn is_empty(&self) -> bool
        ensures { IsTrue result ↔ (self.now ≡ []) }
    {
        self.entries.is_empty()
    }

    /// The entries as a slice.
    pub fn as_slice(&self) -> &[Entry]
        ensures { result.now ≡ self.now }
    {
        self.entries.as_slice()
    }

    /// The ranges of the entries, in order of arrival.
    pub fn ranges(&self, alloc: Global) -> Result<Ranges, AllocError>
        ensures { IfOk result (λ ranges. ranges ≡ ranges_of self.now) }
    {
        ranges_in(alloc, &self.entries)
    }

    /// A copy.
    pub fn copy_in(&self, alloc: Global) -> Result<Held, AllocError>
        ensures { IfOk result (λ copy. copy ≡ self.now) }
    {
        Ok(Held {
            entries: copy_entries(alloc, &self.entries)?,
        })
    }

    /// Holds a copy of the entry behind the others, unless its range is held or there are too many.
    pub fn add(&mut self, alloc: Global, entry: &Entry) -> Result<Kept, HeldFault>
        ensures added { result ≡ Ok kept.Added → IsAddedTo self.old self.new entry.now }
        ensures already { (result ≡ Ok kept.Already) ↔ IsHeldRange self.old entry.now.range }
        ensures full { IsErrOf result faults.Full ↔ HasNoRoomFor self.old entry.now.range }
        ensures unchanged { result ≢ Ok kept.Added → self.new ≡ self.old }
    {
        if is_held(&self.entries, &entry.range()) {
            return Ok(Kept::Already);
        }
        if self.entries.len() == HELD_LIMIT {
            return Err(HeldFault::Full);
        }
        push_copy(alloc, &mut self.entries, entry)?;
        Ok(Kept::Added)
    }

    /// Takes the first entry out that may be taken by one who knows these dots. It takes no memory.
    pub fn take_ready(&mut self, known: &Clock) -> Option<Entry>
        ensures some { IfSome result
            (λ entry. TakesFirst (IsReadyEntry known.now.ticks) self.old entry self.new) }
        ensures none { IsNone result ↔ HasNone (IsReadyEntry known.now.ticks) self.old }
        ensures unchanged { IfNone result (self.new ≡ self.old) }
    {
        let place = first_ready(&self.entries, known)?;
        Some(self.entries.remove(place))
    }

    /// Leaves out the entries that are known. It takes no memory.
    pub fn drop_known(&mut self, known: &Clock)
        ensures { DropsThose (IsKnownEntry known.now.ticks) self.old self.new }
    {
        self.entries.retain(|entry| !is_known(known, entry));
    }

    /// Whether no entry is known, and none may be taken. It takes no memory.
    pub fn is_settled(&self, known: &Clock) -> bool
        ensures { IsTrue result
            ↔ (HasNone (IsKnownEntry known.now.ticks) self.now × HasNone (IsReadyEntry known.now.ticks) self.now) }
    {
        none_moves(&self.entries, known)
    }
}

// Whether some entry has this range.
fn is_held(entries: &[Entry], range: &Range) -> bool
    ensures { IsTrue result ↔ IsHeldRange entries.now range.now }
{
    entries.iter().any(|entry| entry.range() == *range)
}

// Puts a copy of the entry behind the others.
fn push_copy(alloc: Global, entries: &mut Vec<Entry>, entry: &Entry) -> Result<(), AllocError>
    ensures ok { OnOk result (entries.new.items ≡ entries.old.items ++ entry.now ∷ []) }
    ensures err { OnErr result (entries.new.items ≡ entries.old.items) }
{
    entries.push(entry.copy_in(alloc)?)?;
    Ok(())
}

// Where the first entry is that may be taken.
fn first_ready(entries: &[Entry], known: &Clock) -> Option<usize>
    ensures { MatchOption result
        (AllWithin (λ (entry : EntryValue). ¬ IsReadyEntry known.now.ticks entry) entries.now 0 (length entries.now))
        (λ place. (place < length entries.now) × HoldsAt (IsReadyEntry known.now.ticks) entries.now place
        × AllWithin (λ (entry : EntryValue). ¬ IsReadyEntry known.now.ticks entry) entries.now 0 place) }
{
    entries.iter().position(|entry| is_ready(known, entry))
}

// Whether no entry is known, and none may be taken.
fn none_moves(entries: &[Entry], known: &Clock) -> bool
    ensures { IsTrue result
        ↔ (HasNone (IsKnownEntry known.now.ticks) entries.now × HasNone (IsReadyEntry known.now.ticks) entries.now) }
{
    for entry in entries {
        if is_known(known, entry) || is_ready(known, entry) {
            return false;
        }
    }
    true
}

// The ranges of the entries, in their order.
fn ranges_in(alloc: Global, entries: &[Entry]) -> Result<Ranges, AllocError>
    ensures { IfOk result (λ ranges. ranges ≡ ranges_of entries.now) }
{
    let mut ranges = Ranges::new(alloc);
    for entry in entries {
        ranges.push(entry.range())?;
    }
    Ok(ranges)
}

// A copy of the entries.
fn copy_entries(alloc: Global, entries: &[Entry]) -> Result<Vec<Entry>, AllocError>
    ensures { IfOk result (λ copy. copy.items ≡ entries.now) }
{
    let mut copy = Vec::with_capacity(alloc, entries.len())?;
    for entry in entries {
        copy.push(entry.copy_in(alloc)?)?;
    }
    Ok(copy)
}
