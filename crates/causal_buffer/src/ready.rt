//! Whether an entry is known, and whether it may be taken.
ghost use Rattle.std.specs.Prelude.{◌↔◌, IsTrue};
ghost use Rattle.mld_ops.specs.Ready.{IsKnownEntry, IsReadyEntry};

use mld_ops::Entry;
use tree_clock::{Clock, Dot};

/// Whether the last dot of the entry's range is known.
pub fn is_known(known: &Clock, entry: &Entry) -> bool
    ensures { IsTrue result ↔ IsKnownEntry known.now.ticks entry.now }
{
    let range = entry.range();
    let last = Dot {
        path: range.path,
        tick: range.last,
    };
    known.covers(&last)
}

/// Whether the entry may be taken: it isn't known, and what comes before its range is. It takes no memory.
pub fn is_ready(known: &Clock, entry: &Entry) -> bool
    ensures { IsTrue result ↔ IsReadyEntry known.now.ticks entry.now }
{
    let range = entry.range();
    let had = known.ticks(&range.path);
    had < range.last && range.first <= had + 1 && entry.time().leq_elsewhere(known, &range.path)
}
