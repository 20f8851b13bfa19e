//! The parts of a run.
ghost use Rattle.std.specs.Prelude.{IfOk};
ghost use Rattle.journal_sides.specs.Heads.{head_value};
ghost use Rattle.journal_sides.specs.StoredVolumes.{IsGoodHead};

use crate::faults::CostFault;
use crate::parts::Parts;
use crate::plain_banks::PlainBanks;
use disk_model::MemoryBanks;
use journal_store::{Head, Journal, JournalMounted};
use mld_io::Banks;
use mld_ops::Entry;
use op_codec::is_short_entry;
use rdf_terms::{Triple, read_triple};
use std::alloc::{AllocError, Global};
use tree_clock::{Clock, Dot, Path, Range, TICK_LIMIT};

/// The triple of each entry that is appended.
const TRIPLE: &str = "<http://d/a> <http://d/#p> \"x\" .";

/// What stands on banks that are mounted.
#[derive(Drop)]
pub struct OnBanks {
    pub journal: Journal<PlainBanks>,
    pub head: Head,
    pub entries: Vec<Entry>,
}

/// Mounts banks, and gives what stands on them.
pub fn find(alloc: Global, banks: PlainBanks) -> Result<OnBanks, CostFault>
    ensures { IfOk result (λ found. IsGoodHead (head_value found.head)) }
{
    match Journal::mount(alloc, banks) {
        JournalMounted::Found(journal, head, entries) => Ok(OnBanks {
            journal,
            head,
            entries,
        }),
        JournalMounted::Empty(_blank) => Err(CostFault::Closed),
        JournalMounted::Refused(fault, _banks) => Err(CostFault::NotMounted(fault)),
    }
}

/// Does the parts but a second mount.
pub fn do_parts(alloc: Global, parts: Parts, found: &mut OnBanks) -> Result<(), CostFault>
    requires { IsGoodHead (head_value found.old.head) }
{
    if parts.creates {
        create(alloc, PlainBanks::new(alloc, Vec::new(alloc)), &found.head)?;
    }
    if parts.models {
        create(alloc, MemoryBanks::blank(alloc), &found.head)?;
    }
    let path = found.head.path;
    let known = last_tick(found);
    append_forks(&mut found.journal, parts.forks)?;
    append_entries(alloc, &mut found.journal, path, known, parts.entries)
}

/// Mounts once more what stands on banks, if it is to be done.
pub fn find_again(alloc: Global, again: bool, found: OnBanks) -> Result<OnBanks, CostFault> {
    if !again {
        return Ok(found);
    }
    let OnBanks { journal, .. } = found;
    find(alloc, journal.into_banks())
}

/// Makes a journal of a head on banks that keep nothing.
fn create<B: Banks>(alloc: Global, banks: B, head: &Head) -> Result<(), CostFault>
    requires { IsGoodHead (head_value head.now) }
{
    match Journal::mount(alloc, banks) {
        JournalMounted::Empty(blank) => match Journal::create(alloc, blank, head) {
            Ok(_journal) => Ok(()),
            Err((fault, _banks)) => Err(CostFault::NotMade(fault)),
        },
        JournalMounted::Found(_journal, _head, _entries) => Err(CostFault::Closed),
        JournalMounted::Refused(fault, _banks) => Err(CostFault::NotMounted(fault)),
    }
}

/// Appends so many forks.
fn append_forks(journal: &mut Journal<PlainBanks>, count: u32) -> Result<(), CostFault> {
    for _done in 0..count {
        journal.append_fork()?;
    }
    Ok(())
}

/// The last tick of the head's path that is known.
fn last_tick(found: &OnBanks) -> u32 {
    match found.entries.last() {
        Some(entry) => entry.range().last,
        None => found.head.base.ticks(&found.head.path),
    }
}

/// Appends so many entries of a path, behind a tick that is known.
fn append_entries(
    alloc: Global,
    journal: &mut Journal<PlainBanks>,
    path: Path,
    known: u32,
    count: u32,
) -> Result<(), CostFault> {
    let mut last = known;
    for _done in 0..count {
        if last == TICK_LIMIT {
            return Err(CostFault::NoEntry);
        }
        last += 1;
        let entry = entry_of(alloc, Dot { path, tick: last })?;
        append_entry(alloc, journal, &entry)?;
    }
    Ok(())
}

/// The entry of a dot that inserts the triple.
fn entry_of(alloc: Global, dot: Dot) -> Result<Entry, CostFault> {
    let range = Range {
        path: dot.path,
        first: dot.tick,
        last: dot.tick,
    };
    let mut time = Clock::empty(alloc);
    time.reserve(&dot.path)?;
    time.raise(&dot);
    let inserts = one_insert(alloc, read_triple(alloc, TRIPLE)?, dot.tick)?;
    match Entry::new(range, time, Vec::new(alloc), inserts) {
        Some(entry) => Ok(entry),
        None => Err(CostFault::NoEntry),
    }
}

/// The list of one insert.
fn one_insert(alloc: Global, triple: Triple, tick: u32) -> Result<Vec<(Triple, u32)>, AllocError> {
    let mut inserts = Vec::new(alloc);
    inserts.push((triple, tick))?;
    Ok(inserts)
}

/// Appends an entry.
fn append_entry(
    alloc: Global,
    journal: &mut Journal<PlainBanks>,
    entry: &Entry,
) -> Result<(), CostFault> {
    if !is_short_entry(entry) {
        return Err(CostFault::NoEntry);
    }
    journal.append_entry(entry)?;
    Ok(())
}
