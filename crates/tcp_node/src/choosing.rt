//! Which connection has to go.

use crate::connection::Connection;
use crate::limits::HELD_LIMIT;
use std::collections::BTreeMap;
use wire_rules::Turns;

/// The first connection that is late, and doesn't wait for its turn.
pub(crate) fn late_one(
    connections: &BTreeMap<u32, Connection>,
    turns: &Turns,
    now: u64,
) -> Option<u32> {
    for (number, connection) in connections {
        if connection.is_late(now) && !turns.contains(*number) {
            return Some(*number);
        }
    }
    None
}

/// The connection that goes where there is no place for another one. First go those that were shut, then those
/// that never sent a whole frame, then the others; and of each kind the one on which nothing went on for longest.
pub(crate) fn idlest_one(connections: &BTreeMap<u32, Connection>) -> Option<u32> {
    let mut idlest: Option<(u32, (u8, u64))> = None;
    for (number, connection) in connections {
        if let Some(place) = connection.place()
            && idlest.is_none_or(|(_, before)| place < before)
        {
            idlest = Some((*number, place));
        }
    }
    idlest.map(|(number, _)| number)
}

/// The connection that holds most, where all of them hold too much. The longest of the pieces that are being
/// sent doesn't count, so one of any length may be sent.
pub(crate) fn largest_one(connections: &BTreeMap<u32, Connection>) -> Option<u32> {
    let mut spared = (0, 0);
    for (number, connection) in connections {
        let first = connection.outbox.first();
        if first > spared.1 {
            spared = (*number, first);
        }
    }
    let mut all = 0usize;
    let mut largest = None;
    let mut most = 0;
    for (number, connection) in connections {
        let mut held = connection.held();
        if *number == spared.0 {
            held = held.saturating_sub(spared.1);
        }
        all = all.saturating_add(held);
        if held > most {
            most = held;
            largest = Some(*number);
        }
    }
    if all > HELD_LIMIT { largest } else { None }
}
