//! The reading of records up to the first closed gate.
ghost use Rattle.std.specs.Prelude.{◌≡◌, ℕ, ◌+◌, ◌≤◌, ◌<◌, ◌++◌, ◌∷◌, [], List, length, drop, IfOk, OnOk, MatchResult};
ghost use Rattle.op_codec.specs.Agreement.{IsRefused};
ghost use Rattle.mld_ops.specs.Ready.{last_dot};
ghost use Rattle.tree_clock.specs.Clock.{ticks_of};
ghost use Rattle.journal_sides.specs.RecordsRead.{Shows, TakesRecord, HasGate, HasNoGate, FindsRecords};
ghost use Rattle.journal_sides.specs.Heads.{HeadValue};
ghost use Rattle.journal_sides.specs.RecordBytes.{RecordValue, EntryRecord, raised_to, read_entry_record, read_record, read_records};

use causal_buffer::is_ready;
use mld_ops::Entry;
use op_codec::{CodecFault, read_entry, read_u8};
use std::alloc::{AllocError, Global};
use tree_clock::{Clock, Dot, PATH_LIMIT, Path, Range};

/// An open gate.
pub(crate) const OPEN_GATE: u8 = 1;

/// The kind of a record that carries an entry.
pub(crate) const ENTRY_KIND: u8 = 1;

/// The kind of a fork.
pub(crate) const FORK_KIND: u8 = 2;

/// What the records that were read so far leave.
#[derive(Drop)]
pub(crate) struct Progress {
    /// Their entries.
    pub entries: Vec<Entry>,
    /// The path of the clone.
    pub path: Path,
    /// The dots that are known behind them.
    pub known: Clock,
}

/// Raises a clock to the last tick of a range.
fn raise_to(clock: &mut Clock, range: &Range) -> Result<(), AllocError>
    ensures { OnOk result ((path : List ℕ) → ticks_of clock.new.ticks path
        ≡ ticks_of (raised_to clock.old.ticks (last_dot range.now)) path) }
{
    let last = Dot {
        path: range.path,
        tick: range.last,
    };
    clock.reserve(&range.path)?;
    clock.raise(&last);
    Ok(())
}

/// Adds an entry that is ready.
fn add_entry(progress: &mut Progress, entry: Entry) -> Result<(), AllocError>
    ensures { (head : HeadValue) (records : List RecordValue)
        → Shows head records progress.old.entries.items progress.old.path progress.old.known.ticks
        → OnOk result (Shows head (records ++ EntryRecord entry ∷ [])
        progress.new.entries.items progress.new.path progress.new.known.ticks) }
{
    raise_to(&mut progress.known, &entry.range())?;
    progress.entries.push(entry)?;
    Ok(())
}

/// Reads an entry behind the records before it, and gives the place behind it.
fn take_entry(
    alloc: Global,
    input: &[u8],
    at: usize,
    progress: &mut Progress,
) -> Result<usize, CodecFault>
    requires { at ≤ length input.now }
    ensures further { IfOk result (λ next. at ≤ next) }
    ensures within { IfOk result (λ next. next ≤ length input.now) }
    ensures agrees { (head : HeadValue) (records : List RecordValue)
        → Shows head records progress.old.entries.items progress.old.path progress.old.known.ticks
        → MatchResult result
        (TakesRecord head records (read_entry_record head records at (drop at input.now)) input.now
        progress.new.entries.items progress.new.path progress.new.known.ticks)
        (IsRefused (read_entry_record head records at (drop at input.now))) }
{
    let (entry, end) = read_entry(alloc, input, at)?;
    if !is_ready(&progress.known, &entry) {
        return Err(CodecFault::NotInGrammar { place: at });
    }
    add_entry(progress, entry)?;
    Ok(end)
}

/// Reads a record behind the ones before it, and gives the place behind it.
fn take_record(
    alloc: Global,
    input: &[u8],
    at: usize,
    progress: &mut Progress,
) -> Result<usize, CodecFault>
    requires { at ≤ length input.now }
    ensures further { IfOk result (λ next. at ≤ next) }
    ensures within { IfOk result (λ next. next ≤ length input.now) }
    ensures agrees { (head : HeadValue) (records : List RecordValue)
        → Shows head records progress.old.entries.items progress.old.path progress.old.known.ticks
        → MatchResult result
        (TakesRecord head records (read_record head records at (drop at input.now)) input.now
        progress.new.entries.items progress.new.path progress.new.known.ticks)
        (IsRefused (read_record head records at (drop at input.now))) }
{
    let (kind, next) = read_u8(input, at)?;
    if kind == ENTRY_KIND {
        return take_entry(alloc, input, next, progress);
    }
    if kind != FORK_KIND {
        return Err(CodecFault::NotInGrammar { place: at });
    }
    if progress.path.len() == PATH_LIMIT {
        return Err(CodecFault::NotInGrammar { place: at });
    }
    progress.path = progress.path.child(false);
    Ok(next)
}

/// Whether the gate at a place is open. There is none at the end of the input.
fn is_open(input: &[u8], at: usize) -> Result<bool, CodecFault>
    requires { at ≤ length input.now }
    ensures { MatchResult result (HasGate input.now at) (HasNoGate input.now at) }
{
    let (gate, _) = read_u8(input, at)?;
    Ok(gate == OPEN_GATE)
}

/// Reads records up to the first closed gate, and gives its place.
pub(crate) fn take_records(
    alloc: Global,
    input: &[u8],
    at: usize,
    progress: &mut Progress,
) -> Result<usize, CodecFault>
    requires { at ≤ length input.now }
    ensures below { IfOk result (λ stop. stop < length input.now) }
    ensures agrees { (head : HeadValue) (steps : ℕ)
        → Shows head [] progress.old.entries.items progress.old.path progress.old.known.ticks
        → length input.now < at + steps
        → MatchResult result
        (FindsRecords head (read_records steps head [] at (drop at input.now)) input.now
        progress.new.entries.items progress.new.path)
        (IsRefused (read_records steps head [] at (drop at input.now))) }
{
    let mut place = at;
    while is_open(input, place)? {
        place = take_record(alloc, input, place + 1, progress)?;
    }
    Ok(place)
}
