//! Entries of the root, as the tests write them.
use crate::made::{boxed, pairs, push};
use mld_ops::Entry;
use rdf_terms::{Triple, read_triple};
use std::alloc::{AllocError, Global};
use std::test::Fail;
use tree_clock::{Clock, Dot, Path, Range};

/// The ticks from `first` to `last`.
pub(crate) fn range(first: u32, last: u32) -> Range {
    Range {
        path: Path::root(),
        first,
        last,
    }
}

/// The clock of one who knows the ticks up to this one.
pub(crate) fn clock(alloc: Global, tick: u32) -> Result<Clock, AllocError> {
    let path = Path::root();
    let mut clock = Clock::empty(alloc);
    clock.reserve(&path)?;
    clock.raise(&Dot { path, tick });
    Ok(clock)
}

// Puts the inserts of rows behind these.
fn read(alloc: Global, inserts: &mut Vec<(Triple, u32)>, rows: &[(&str, u32)]) -> Result<(), Fail> {
    for (line, tick) in rows {
        push(inserts, (read_triple(alloc, line)?, *tick))?;
    }
    Ok(())
}

fn inserts(alloc: Global, rows: &[(&str, u32)]) -> Result<Vec<(Triple, u32)>, Fail> {
    let mut inserts = Vec::new(alloc);
    read(alloc, &mut inserts, rows)?;
    Ok(inserts)
}

/// An entry, as a test writes it: its pairs by rows, each the line of a triple and a tick.
#[derive(Clone, Copy)]
pub(crate) struct Row<'a> {
    pub(crate) first: u32,
    pub(crate) last: u32,
    pub(crate) deletes: &'a [(&'a str, u32)],
    pub(crate) inserts: &'a [(&'a str, u32)],
}

/// The entry of a row.
pub(crate) fn entry(alloc: Global, row: &Row) -> Result<Box<Entry>, Fail> {
    let time = clock(alloc, row.last)?;
    let deletes = pairs(alloc, row.deletes)?;
    let inserts = inserts(alloc, row.inserts)?;
    match Entry::new(range(row.first, row.last), time, deletes, inserts) {
        Some(entry) => Ok(boxed(alloc, entry)?),
        None => Err("no entry".into()),
    }
}

/// Puts the entries of rows behind these.
pub(crate) fn read_entries(
    alloc: Global,
    entries: &mut Vec<Entry>,
    rows: &[Row],
) -> Result<(), Fail> {
    for row in rows {
        let entry = entry(alloc, row)?;
        push(entries, Box::into_inner(entry))?;
    }
    Ok(())
}
