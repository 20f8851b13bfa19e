//! What a run tells of the world that it ends with, and that want of memory leaves a front of the text.
use crate::replays::{Odd, banks, ended, replay, words};
use mld_io::{MemorySink, MemorySource};
use mld_ops::Tagged;
use mld_replay::net_world::{CloneSummary, State, Summary};
use mld_replay::run::{RunFault, run};
use std::alloc::{AllocError, Global};
use std::test::Fail;
use std::thread::Threads;
use tree_clock::{Dot, Path, Range};

/// A triple is added at both clones and removed at one, and all of that comes to the other, which adds it once more.
const REMOVED: &[u8] = b"domain d clones 2\n\
    add 0 <http://d/a> <http://d/#p> \"x\" .\n\
    add 1 <http://d/a> <http://d/#p> \"x\" .\n\
    remove 1 <http://d/a> <http://d/#p> \"x\" .\n\
    deliver 1 1\n\
    deliver 2 0\n\
    deliver 3 0\n\
    add 0 <http://d/a> <http://d/#p> \"x\" .\n";

/// The leaf of a clone of two.
fn leaf(one: bool) -> Path {
    Path::root().child(one)
}

/// The dot of a leaf with a tick.
fn dot(one: bool, tick: u32) -> Dot {
    Dot {
        path: leaf(one),
        tick,
    }
}

/// The range of one dot.
fn only(one: bool, tick: u32) -> Range {
    Range {
        path: leaf(one),
        first: tick,
        last: tick,
    }
}

/// What a live clone of two has to tell: of its pairs the dots, since they are all of one triple.
#[derive(Clone, Copy)]
struct Told<'a> {
    known: &'a [(Path, u32)],
    journal: &'a [Range],
    dots: &'a [Dot],
}

/// The pairs have these dots, in this order.
fn have_dots(pairs: &[Tagged], dots: &[Dot]) -> bool {
    for (pair, dot) in pairs.iter().zip(dots) {
        if pair.dot != *dot {
            return false;
        }
    }
    pairs.len() == dots.len()
}

/// A clone is live, has this leaf, and tells just this.
fn is_live(clone: &CloneSummary, one: bool, told: &Told<'_>) -> bool {
    clone.state == State::Live
        && clone.path == Some(leaf(one))
        && clone.known.as_slice() == told.known
        && clone.base.is_empty()
        && clone.journal.as_slice() == told.journal
        && have_dots(clone.tagged.as_slice(), told.dots)
}

/// A clone is absent, and tells nothing.
fn is_absent(clone: &CloneSummary) -> bool {
    clone.state == State::Absent
        && clone.path.is_none()
        && clone.known.is_empty()
        && clone.base.is_empty()
        && clone.journal.is_empty()
        && clone.tagged.is_empty()
}

/// There are 32 clones: the two of them that are live tell just this, and the others are absent.
fn is_told(summary: &Summary, zero: &Told<'_>, one: &Told<'_>) -> bool {
    match summary.clones.as_slice() {
        [first, second, others @ ..] => {
            is_live(first, false, zero)
                && is_live(second, true, one)
                && others.len() == 30
                && others.iter().all(is_absent)
        }
        _ => false,
    }
}

/// A schedule is read to its end, and just this is told of the world that it leads to.
fn tells<R: Threads + Sync>(
    rt: &R,
    alloc: Global,
    schedule: &[u8],
    zero: &Told<'_>,
    one: &Told<'_>,
) -> Result<bool, AllocError> {
    let words = words(alloc, &["replay"])?;
    let mut source = MemorySource::new(alloc, schedule, &[])?;
    let mut sink = MemorySink::new(alloc, &[])?;
    let banks = banks(alloc, Odd::Nothing)?;
    let ran = run(rt, alloc, &words, &mut source, &mut sink, banks);
    Ok(match &ran.world {
        Some(summary) => ran.status == 0 && is_told(summary, zero, one),
        None => false,
    })
}

#[test]
fn a_run_tells_of_its_clones(rt: HostRuntime) -> Result<(), Fail> {
    let zero = Told {
        known: &[(leaf(false), 2), (leaf(true), 2)],
        journal: &[only(false, 1), only(true, 1), only(true, 2), only(false, 2)],
        dots: &[dot(false, 1), dot(false, 2)],
    };
    let one = Told {
        known: &[(leaf(false), 1), (leaf(true), 2)],
        journal: &[only(true, 1), only(true, 2), only(false, 1)],
        dots: &[dot(false, 1)],
    };
    let is_so = tells(&rt, rt.alloc(), REMOVED, &zero, &one)?;
    assert!(rt; is_so);
    Ok(())
}

/// A triple is added, and comes to the other clone; both clones stop and open on the way.
const RESTARTED: &[u8] =
    b"domain d clones 2\nadd 0 <http://d/a> <http://d/#p> \"x\" .\nstop 0\nopen 0\ndeliver 1 1\nstop 1\nopen 1\nshow 0\nshow 1\ncompare 0 1\n";

/// What is written for that.
const RESTARTED_TEXT: &[u8] =
    b"ready 2\ndid r0.1 m1\nstopped\nopened\ntook r0.1-1\nstopped\nopened\nhas 1\nr0.1 <http://d/a> <http://d/#p> \"x\" .\nhas 1\nr0.1 <http://d/a> <http://d/#p> \"x\" .\nsame\n";

/// A run over `RESTARTED` ends well with the whole text and tells of its world, or for want of memory with a front of the text
/// and tells nothing.
fn ends_or_lacks_memory<R: Threads + Sync>(rt: &R, alloc: Global) -> Result<bool, AllocError> {
    let mut sink = MemorySink::new(alloc, &[])?;
    let end = ended(rt, alloc, replay(RESTARTED), &mut sink)?;
    Ok(match end.fault {
        None => end.status == 0 && end.tells && sink.bytes() == RESTARTED_TEXT,
        Some(RunFault::NoMemory) => {
            end.status == 5 && !end.tells && RESTARTED_TEXT.starts_with(sink.bytes())
        }
        Some(_) => false,
    })
}

/// Passes too where an allocation fails, so that each can be made to fail in turn.
#[test]
fn want_of_memory_leaves_a_front_of_the_text(rt: HostRuntime) {
    if let Ok(is_so) = ends_or_lacks_memory(&rt, rt.alloc()) {
        assert!(rt; is_so);
    }
}
