//! A clone's parts, and what it answers to a foreign use of its leaf and behind a failure of its device.
use crate::made::{Asked, NEVER, TestClone, Word, answered, are_given, first, parts, receive, set};
use clone_core::ReceiveFault;
use journal_store::Why;
use std::alloc::Global;
use std::test::Fail;
use std::thread::Threads;
use tree_clock::{Path, Range};
use uuid::Uuid;

/// The ticks of a path from a first to a last.
fn range(path: Path, first: u32, last: u32) -> Range {
    Range { path, first, last }
}

/// The right half of the root.
fn right() -> Path {
    Path::root().child(true)
}

/// Whether this is the first clone of the domain, which knows nothing.
fn is_first(clone: &TestClone) -> bool {
    clone.id() == Uuid::from_u128(7)
        && clone.domain() == "d"
        && are_given(clone.properties())
        && clone.path().is_empty()
        && clone.base().ticks(&Path::root()) == 0
        && clone.base_pairs().is_empty()
        && clone.is_closed().is_none()
        && parts(clone) == (0, 0, 0, 0)
}

/// Whether a clone adds the triple, holds the second operation of r1, and takes it once the first one comes.
fn makes_and_takes<R: Threads + Sync>(clone: &mut TestClone, rt: &R, alloc: Global) -> bool {
    set(clone, alloc, true) == Word::Made(1)
        && receive(clone, rt, alloc, range(right(), 2, 2)) == Word::Held
        && parts(clone) == (1, 1, 1, 1)
        && receive(clone, rt, alloc, range(right(), 1, 1)) == Word::Took(2)
        && receive(clone, rt, alloc, range(right(), 2, 2)) == Word::Known
        && parts(clone) == (3, 0, 1, 1)
}

/// Whether the entries of r1 are found, each by its range alone.
fn finds_entries(clone: &TestClone) -> bool {
    let second = range(right(), 2, 2);
    matches!(clone.entry_of(&second), Some(entry) if entry.range() == second)
        && clone.entry_of(&range(right(), 1, 2)).is_none()
        && clone.known().ticks(&right()) == 2
}

#[test]
fn a_clone_tells_its_parts(rt: HostRuntime) -> Result<(), Fail> {
    let mut clone = first(&rt, rt.alloc(), NEVER)?;
    assert!(rt;
        is_first(&clone) && makes_and_takes(&mut clone, &rt, rt.alloc()) && finds_entries(&clone)
    );
    Ok(())
}

/// What is asked of a clone: when, what, what it answers, and why it is closed then, if it is.
type Case = (&'static str, Asked, Word, Option<Why>);

/// Why the clone is closed once its device failed.
const FAILED: Option<Why> = Some(Why::Device);

/// What it answers then.
const CLOSED: Word = Word::Closed(Why::Device);

/// What is asked of one clone at the root, one after another.
const CASES: &[Case] = &[
    ("an add", Asked::Add, Word::Made(1), None),
    // The second tick is of an operation that the clone didn't make.
    (
        "a foreign use of its leaf",
        Asked::Receive(2),
        Word::NotTaken(ReceiveFault::ForeignTick { said: 2, own: 1 }),
        None,
    ),
    ("nothing to compact", Asked::Compact, Word::Kept(1), None),
    ("nothing to truncate", Asked::Truncate, Word::Kept(1), None),
    ("a query", Asked::Query, Word::Answered, None),
    (
        "the third call of the device in an add fails",
        Asked::Add,
        Word::SetFailed,
        FAILED,
    ),
    ("closed: an add", Asked::Add, CLOSED, FAILED),
    ("closed: a range", Asked::Receive(2), CLOSED, FAILED),
    ("closed: a compaction", Asked::Compact, CLOSED, FAILED),
    ("closed: a truncation", Asked::Truncate, CLOSED, FAILED),
    ("closed: a query", Asked::Query, CLOSED, FAILED),
];

/// The call of a clone's device that fails: a mount of blank banks takes four, the making of a journal six, and an append four. So this is
/// the third one of the second append.
const FAILING: u64 = 16;

/// The first case that a clone doesn't answer so, or that leaves it with other parts than the first add did; or else no text.
fn first_amiss<R: Threads + Sync>(clone: &mut TestClone, rt: &R, alloc: Global) -> &'static str {
    for (when, asked, word, why) in CASES {
        let is_so = answered(clone, rt, alloc, *asked) == *word
            && clone.is_closed() == *why
            && parts(clone) == (1, 0, 1, 1);
        if !is_so {
            return *when;
        }
    }
    ""
}

#[test]
fn a_clone_is_closed_by_a_fault_of_its_device(rt: HostRuntime) -> Result<(), Fail> {
    let mut clone = first(&rt, rt.alloc(), FAILING)?;
    let amiss = first_amiss(&mut clone, &rt, rt.alloc());
    assert!(rt; amiss.is_empty(), "{amiss}");
    Ok(())
}
