//! Entries that are fused, compacted and cut.
use crate::entries::{Row, clock, entry, read_entries};
use crate::made::{boxed, pair, pairs};
use mld_ops::{Cut, Entry, Tagged, Tags};
use op_fusion::{FuseFault, compact_entries, cut, fuse, has_neighbours};
use rdf_terms::Triple;
use std::alloc::{AllocError, Global};
use std::test::Fail;
use tree_clock::Range;

const T: &str = "<http://d/s> <http://d/p> <http://d/t> .";

const U: &str = "<http://d/s> <http://d/p> <http://d/u> .";

const V: &str = "<http://d/s> <http://d/p> <http://d/v> .";

const W: &str = "<http://d/s> <http://d/p> <http://d/w> .";

// Tick 3 inserts V, and tick 4 inserts T, U and V. Tick 5 deletes W of tick 1, V of tick 3 and U of tick 4, and inserts T. Tick 6
// deletes T of tick 4 and inserts U, and tick 8 inserts U.
const ENTRIES: &[Row] = &[
    Row {
        first: 3,
        last: 4,
        deletes: &[],
        inserts: &[(T, 4), (U, 4), (V, 3), (V, 4)],
    },
    Row {
        first: 4,
        last: 5,
        deletes: &[(V, 3), (W, 1)],
        inserts: &[(T, 4), (T, 5), (V, 4)],
    },
    Row {
        first: 6,
        last: 6,
        deletes: &[(T, 4)],
        inserts: &[(U, 6)],
    },
    Row {
        first: 8,
        last: 8,
        deletes: &[],
        inserts: &[(U, 8)],
    },
];

// What the first two are fused to.
const BOTH: &Row = &Row {
    first: 3,
    last: 5,
    deletes: &[(W, 1)],
    inserts: &[(T, 4), (T, 5), (V, 4)],
};

// What they all are compacted to: a run, and one that is alone.
const RUN: &Row = &Row {
    first: 3,
    last: 6,
    deletes: &[(W, 1)],
    inserts: &[(T, 5), (U, 6), (V, 4)],
};

const ALONE: &Row = &Row {
    first: 8,
    last: 8,
    deletes: &[],
    inserts: &[(U, 8)],
};

fn are_same_pairs(pairs: &[Tagged], others: &[Tagged]) -> bool {
    pairs.len() == others.len()
        && pairs
            .iter()
            .zip(others)
            .all(|(pair, other)| pair.cmp(other).is_eq())
}

fn are_same_inserts(inserts: &[(Triple, u32)], others: &[(Triple, u32)]) -> bool {
    inserts.len() == others.len()
        && inserts.iter().zip(others).all(|(insert, other)| insert.0.cmp(&other.0).is_eq()
            && insert.1 == other.1)
}

// Whether both have the same range, deletes, inserts and ticks of their path.
fn are_alike(entry: &Entry, other: &Entry) -> bool {
    let range = entry.range();
    range == other.range()
        && are_same_pairs(entry.deletes(), other.deletes())
        && are_same_inserts(entry.inserts(), other.inserts())
        && entry.time().ticks(&range.path) == other.time().ticks(&range.path)
}

// Whether an entry is that of a row.
fn is_of(alloc: Global, given: &Entry, row: &Row) -> Result<bool, Fail> {
    let wanted = entry(alloc, row)?;
    Ok(are_alike(given, &wanted))
}

fn fuses_to(alloc: Global, first: &Entry, second: &Entry, both: &Row) -> Result<bool, Fail> {
    let fused = boxed(alloc, fuse(alloc, first, second)?)?;
    is_of(alloc, &fused, both)
}

fn are_refused(alloc: Global, first: &Entry, second: &Entry) -> bool {
    matches!(&fuse(alloc, first, second), Err(FuseFault::NotAdjacent))
}

// Whether these are the entries of two rows.
fn are_of(alloc: Global, entries: &[Entry], first: &Row, second: &Row) -> Result<bool, Fail> {
    let [run, alone] = entries else {
        return Ok(false);
    };
    Ok(is_of(alloc, run, first)? && is_of(alloc, alone, second)?)
}

// Whether the entries have neighbours, and are compacted to those of two rows, which are none.
fn compact_to(alloc: Global, entries: &[Entry], first: &Row, second: &Row) -> Result<bool, Fail> {
    let runs = boxed(alloc, compact_entries(alloc, entries)?)?;
    let fewer = has_neighbours(entries) && !has_neighbours(&runs);
    Ok(fewer && are_of(alloc, &runs, first, second)?)
}

// Whether the entries are fused and compacted as wanted.
fn are_fused(alloc: Global, entries: &[Entry]) -> Result<bool, Fail> {
    let [first, second, _, last] = entries else {
        return Ok(false);
    };
    Ok(
        fuses_to(alloc, first, second, BOTH)?
            && are_refused(alloc, first, last)
            && compact_to(alloc, entries, RUN, ALONE)?,
    )
}

#[test]
fn a_run_becomes_one_and_what_is_alone_stays(rt: HostRuntime) -> Result<(), Fail> {
    let alloc = rt.alloc();
    let mut given = boxed(alloc, Vec::new(alloc))?;
    read_entries(alloc, &mut given, ENTRIES)?;
    assert!(rt; are_fused(alloc, &given)?);
    Ok(())
}

// A set of one pair.
#[derive(Drop)]
struct Single {
    pair: Tagged,
}

impl Tags for Single {
    ghost use Rattle.std.specs.Prelude.{[], ◌∷◌};

    ghost pairs = { λ single. single.pair ∷ [] };

    fn has(&self, pair: &Tagged) -> bool {
        self.pair.cmp(pair).is_eq()
    }

    fn of_range(&self, alloc: Global, range: &Range) -> Result<Vec<Tagged>, AllocError> {
        let mut found = Vec::new(alloc);
        if range.contains(&self.pair.dot) {
            found.push(self.pair.share()?)?;
        }
        Ok(found)
    }
}

// Whether a change drops the pair of a set, and adds these.
fn is_cut(cut: &Cut, state: &Single, adds: &[Tagged]) -> bool {
    match cut.drops.as_slice() {
        [drop] => state.has(drop) && are_same_pairs(&cut.adds, adds),
        _ => false,
    }
}

// What the entry of a row changes in a set, where the ticks up to this one are known.
fn cut_of(alloc: Global, row: &Row, tick: u32, state: &Single) -> Result<Box<Cut>, Fail> {
    let seen = boxed(alloc, clock(alloc, tick)?)?;
    let entry = entry(alloc, row)?;
    Ok(boxed(alloc, cut(alloc, &entry, &seen, state)?)?)
}

// Whether the entry of a row drops the pair of a set, where the ticks up to this one are known, and adds all that the row inserts.
fn cuts_to(alloc: Global, row: &Row, tick: u32, state: &Single) -> Result<bool, Fail> {
    let cut = cut_of(alloc, row, tick, state)?;
    let adds = pairs(alloc, row.inserts)?;
    Ok(is_cut(&cut, state, &adds))
}

// A set of the pair of a row.
fn set_of(alloc: Global, row: (&str, u32)) -> Result<Box<Single>, Fail> {
    let pair = pair(alloc, row)?;
    Ok(boxed(alloc, Single { pair })?)
}

// The entry of ticks 3 to 6 is taken by one who has V of tick 3, and knows the ticks up to that.
#[test]
fn an_entry_seen_in_part_drops_what_its_end_deleted(rt: HostRuntime) -> Result<(), Fail> {
    let alloc = rt.alloc();
    let state = set_of(alloc, (V, 3))?;
    assert!(rt; cuts_to(alloc, RUN, 3, &state)?);
    Ok(())
}
