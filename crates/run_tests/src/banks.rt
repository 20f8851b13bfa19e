//! What a run leaves on the banks of its clones, and runs whose banks fail.
ghost use Rattle.std.specs.Prelude.{◌≡◌};

use crate::replays::{Given, Odd, banks, ended, replay, words};
use disk_model::MemoryBanks;
use mld_io::{MemorySink, MemorySource, Side};
use mld_replay::run::{RunFault, run};
use std::alloc::{AllocError, Global};
use std::test::Fail;
use std::thread::Threads;

/// What side A of a clone alone has once it added a triple, worked out by `docs/FORMATS.md`. The head: an open gate, its mark, the
/// generation, the id of clone 0, the domain's name, no properties, the root's path, a clock without paths, no pairs. The record: an open
/// gate, its kind, the range from tick 1 to tick 1 of the root, that tick as its time, no deletes, an insert with its triple and tick. A
/// closed gate.
const ADDED: &[u8] = b"\x01mld1\0\0\0\0\0\0\0\x01\0\0\0\0\0\0\0\0\0\0\0\0\0\0\0\0\
    \0\0\0\x01d\0\0\0\0\0\0\0\0\0\0\0\0\0\
    \x01\x01\0\0\0\0\x01\0\0\0\x01\0\0\0\x01\0\0\0\0\x01\0\0\0\0\
    \0\0\0\x01\0\0\0\x20<http://d/a> <http://d/#p> \"x\" .\0\0\0\x01\0";

/// What side B has once that journal was truncated to nothing. The head is of generation 2: its clock has the root's tick 1, and its only
/// pair is the triple with that dot. A closed gate.
const TRUNCATED: &[u8] = b"\x01mld1\0\0\0\0\0\0\0\x02\0\0\0\0\0\0\0\0\0\0\0\0\0\0\0\0\
    \0\0\0\x01d\0\0\0\0\0\0\0\0\x01\0\0\0\0\x01\
    \0\0\0\x01\0\0\0\x20<http://d/a> <http://d/#p> \"x\" .\0\0\0\0\x01\0";

/// What side A has of a clone that gave the half of its leaf away: the head, and the record of a fork.
const FORKED: &[u8] = b"\x01mld1\0\0\0\0\0\0\0\x01\0\0\0\0\0\0\0\0\0\0\0\0\0\0\0\0\
    \0\0\0\x01d\0\0\0\0\0\0\0\0\0\0\0\0\0\x01\x02\0";

/// Whether the first of the banks have just these bytes.
fn have_first(banks: &[MemoryBanks], a: &[u8], b: &[u8]) -> bool {
    match banks.first() {
        Some(first) => first.bytes(Side::A) == a && first.bytes(Side::B) == b,
        None => false,
    }
}

/// Whether a schedule is replayed to its end, and leaves these bytes on the first of the banks.
fn leaves<R: Threads + Sync>(
    rt: &R,
    alloc: Global,
    schedule: &[u8],
    a: &[u8],
    b: &[u8],
) -> Result<bool, AllocError> {
    let words = words(alloc, &["replay"])?;
    let mut source = MemorySource::new(alloc, schedule, &[])?;
    let mut sink = MemorySink::new(alloc, &[])?;
    let banks = banks(alloc, Odd::Nothing)?;
    let ran = run(rt, alloc, &words, &mut source, &mut sink, banks);
    Ok(ran.status == 0 && have_first(&ran.banks, a, b))
}

/// A schedule, and the bytes that it leaves on both sides of the first of the banks.
type Replayed = (&'static [u8], &'static [u8], &'static [u8]);

const SCHEDULES: &[Replayed] = &[
    (
        b"domain d clones 1\nadd 0 <http://d/a> <http://d/#p> \"x\" .\n",
        ADDED,
        b"",
    ),
    (
        b"domain d clones 1\nadd 0 <http://d/a> <http://d/#p> \"x\" .\ntruncate 0 0\n",
        ADDED,
        TRUNCATED,
    ),
    (b"domain d clones 2\n", FORKED, b""),
];

#[test]
fn a_side_has_the_bytes_of_its_format(rt: HostRuntime) -> Result<(), Fail> {
    for (schedule, a, b) in SCHEDULES {
        let is_so = leaves(&rt, rt.alloc(), schedule, a, b)?;
        assert!(rt; is_so, "{schedule:?}");
    }
    Ok(())
}

/// A clone alone adds a triple, stops, and opens with it.
const REOPENED: &[u8] =
    b"domain d clones 1\nadd 0 <http://d/a> <http://d/#p> \"x\" .\nstop 0\nopen 0\nshow 0\n";

/// What is written for that.
const REOPENED_TEXT: &[u8] =
    b"ready 1\ndid r.1 m1\nstopped\nopened\nhas 1\nr.1 <http://d/a> <http://d/#p> \"x\" .\n";

/// A run whose call of this number to the banks of clone 0 fails ends by that, with a front of the whole text; where that call isn't
/// made it ends well, with the whole text.
fn ends_at<R: Threads + Sync>(
    rt: &R,
    alloc: Global,
    call: u64,
    is_made: bool,
) -> Result<bool, AllocError> {
    let mut sink = MemorySink::new(alloc, &[])?;
    let given = Given {
        odd: Odd::Fails(0, call),
        ..replay(REOPENED)
    };
    let end = ended(rt, alloc, given, &mut sink)?;
    Ok(if is_made {
        end.status == 6
            && end.fault == Some(RunFault::Device(0))
            && REOPENED_TEXT.starts_with(sink.bytes())
    } else {
        end.status == 0 && end.fault.is_none() && sink.bytes() == REOPENED_TEXT
    })
}

#[test]
fn each_call_that_fails_ends_the_run(rt: HostRuntime) -> Result<(), Fail> {
    // Looking at both sides takes 2 calls, mounting them 4, making the journal 6, the append 4, and the mount of `open` 6.
    for call in 0..=22 {
        let is_so = ends_at(&rt, rt.alloc(), call, call < 22)?;
        assert!(rt; is_so, "{call}");
    }
    Ok(())
}
