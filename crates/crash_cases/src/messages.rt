//! The messages that clones are handed. Ranges are of the path `1`, and each tick inserts a triple of its own.
ghost use Rattle.std.specs.Prelude.{IfOk};
ghost use Rattle.mld_ops.specs.Messages.{message_value, snapshot_value, IsGoodMessage, IsGoodSnapshot};

use crate::faults::{Fault, Tried};
use mld_ops::{Entry, Give, Given, Message, PairList, Snapshot, Tagged};
use rdf_terms::{Triple, read_triple};
use std::alloc::{AllocError, Global};
use std::fmt::Display;
use tree_clock::{Clock, Dot, Path, Range};
use uuid::Uuid;

/// The id of who asks for a leaf.
pub fn second() -> Uuid {
    Uuid::from_u128(2)
}

/// The path `1`.
fn right() -> Path {
    Path::root().child(true)
}

/// The triple of a name, or that which a tick inserts.
pub fn triple_of<T: Display>(alloc: Global, name: &T) -> Tried<Triple> {
    let text = format!(in alloc; "<http://d/{name}> <http://d/p> <http://d/o> .")?;
    match read_triple(alloc, text.as_str()) {
        Ok(triple) => Ok(triple),
        Err(_fault) => Err(Fault::Amiss),
    }
}

/// The clock of so many ticks of a path.
fn clock_of(alloc: Global, path: Path, tick: u32) -> Result<Clock, AllocError> {
    let mut clock = Clock::empty(alloc);
    clock.reserve(&path)?;
    clock.raise(&Dot { path, tick });
    Ok(clock)
}

/// The triples that these ticks insert.
fn inserts_of(alloc: Global, first: u32, last: u32) -> Tried<Vec<(Triple, u32)>> {
    let mut inserts = Vec::new(alloc);
    for tick in first..=last {
        inserts.push((triple_of(alloc, &tick)?, tick))?;
    }
    Ok(inserts)
}

/// The range of these ticks.
pub fn range(alloc: Global, first: u32, last: u32) -> Tried<Box<Message>>
    ensures { IfOk result (λ message. IsGoodMessage (message_value message.value)) }
{
    let entry = entry_of(alloc, first, last)?;
    Ok(Box::new(alloc, Message::Range(entry))?)
}

/// The entry of these ticks.
fn entry_of(alloc: Global, first: u32, last: u32) -> Tried<Entry> {
    let path = right();
    let range = Range { path, first, last };
    let time = clock_of(alloc, path, last)?;
    let inserts = inserts_of(alloc, first, last)?;
    match Entry::new(range, time, Vec::new(alloc), inserts) {
        Some(entry) => Ok(entry),
        None => Err(Fault::Amiss),
    }
}

/// What one has who knows so many ticks of a path, of which the triple of the last is left.
fn snapshot_of(alloc: Global, path: Path, tick: u32) -> Tried<Snapshot>
    ensures { IfOk result (λ snapshot. IsGoodSnapshot (snapshot_value snapshot)) }
{
    let dot = Dot { path, tick };
    let clock = clock_of(alloc, path, tick)?;
    if !clock.covers(&dot) {
        return Err(Fault::Amiss);
    }
    let triple = triple_of(alloc, &tick)?;
    let mut list = Vec::new(alloc);
    list.push(Tagged { triple, dot })?;
    let tagged = PairList::from_list(alloc, &clock, list)?;
    Ok(Snapshot { clock, tagged })
}

/// The snapshot of one who knows so many ticks, of which the triple of the last is left.
pub fn snapshot(alloc: Global, tick: u32) -> Tried<Box<Message>>
    ensures { IfOk result (λ message. IsGoodMessage (message_value message.value)) }
{
    let snapshot = snapshot_of(alloc, right(), tick)?;
    Ok(Box::new(alloc, Message::Snapshot(snapshot))?)
}

/// The leaf `1`, given to who asks by one who knows so many ticks of the path `0`, of which the triple of the last is left.
pub fn leaf(alloc: Global, tick: u32) -> Tried<Box<Message>>
    ensures { IfOk result (λ message. IsGoodMessage (message_value message.value)) }
{
    let give = Give {
        id: second(),
        path: right(),
        snapshot: snapshot_of(alloc, Path::root().child(false), tick)?,
    };
    let given = Given::new(alloc, give)?;
    Ok(Box::new(alloc, Message::JoinGive(given))?)
}
