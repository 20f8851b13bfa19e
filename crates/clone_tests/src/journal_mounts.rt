//! What a mount answers to given bytes: damage and its place, which side counts, and a device that fails.
use crate::journals::SIDE;
use crate::made::NEVER;
use disk_model::MemoryBanks;
use journal_store::{Journal, JournalMounted, MountFault};
use mld_io::Side;
use std::alloc::{AllocError, Global};
use std::test::Fail;

/// Where the fields of `SIDE` begin.
const STARTS: &[u64] = &[
    0, 1, 5, 13, 29, 33, 34, 38, 39, 43, 47, 48, 49, 50, 54, 58, 62, 63, 67, 71, 75, 79, 111, 115,
];

/// What a mount answers.
#[derive(Clone, Copy, PartialEq, Eq)]
enum Answer {
    /// So many entries, and a path of so many letters.
    Found(usize, u8),
    Empty,
    Damaged(Side, u64),
    Device,
    NoMemory,
}

/// The answer of a mount.
fn answer_of(mounted: &JournalMounted<MemoryBanks>) -> Answer {
    match mounted {
        JournalMounted::Found(_, head, entries) => Answer::Found(entries.len(), head.path.len()),
        JournalMounted::Empty(_) => Answer::Empty,
        JournalMounted::Refused(fault, _) => answer_of_fault(*fault),
    }
}

/// The answer where a mount is refused.
fn answer_of_fault(fault: MountFault) -> Answer {
    match fault {
        MountFault::Damaged { side, place } => Answer::Damaged(side, place),
        MountFault::Device => Answer::Device,
        MountFault::NoMemory => Answer::NoMemory,
    }
}

/// What a mount of sides with these bytes answers, of which the call of this number fails.
fn mount_of(alloc: Global, a: &[u8], b: &[u8], call: u64) -> Result<Answer, AllocError> {
    let mut banks = Box::new(alloc, MemoryBanks::with_bytes(alloc, a, b)?)?;
    banks.fail_call(call)?;
    let mounted = Box::new(alloc, Journal::mount(alloc, Box::into_inner(banks)))?;
    Ok(answer_of(&mounted))
}

/// Where the last field begins of so many bytes of the side.
fn start_before(count: u64) -> u64 {
    let mut last = 0;
    for start in STARTS {
        if *start <= count {
            last = *start;
        }
    }
    last
}

#[test]
fn a_cut_side_is_damaged_where_a_field_begins(rt: HostRuntime) -> Result<(), Fail> {
    for count in 1..116 {
        let answer = mount_of(rt.alloc(), &SIDE[..count], b"", NEVER)?;
        let place = start_before(count as u64);
        assert!(rt; answer == Answer::Damaged(Side::A, place), "{count}");
    }
    Ok(())
}

/// `SIDE` with its entry once more behind it, which is known then.
const TWICE: &[u8] = b"\x01mld1\x00\x00\x00\x00\x00\x00\x00\x01\
    \x00\x00\x00\x00\x00\x00\x00\x00\x00\x00\x00\x00\x00\x00\x00\x00\
    \x00\x00\x00\x01d\x00\x00\x00\x00\x00\x00\x00\x00\x00\x00\x00\x00\x00\
    \x01\x01\x00\x00\x00\x00\x01\x00\x00\x00\x01\x00\x00\x00\x01\x00\x00\x00\x00\x01\
    \x00\x00\x00\x00\x00\x00\x00\x01\x00\x00\x00\x20\
    <http://d/a> <http://d/#p> \"x\" .\x00\x00\x00\x01\
    \x01\x01\x00\x00\x00\x00\x01\x00\x00\x00\x01\x00\x00\x00\x01\x00\x00\x00\x00\x01\
    \x00\x00\x00\x00\x00\x00\x00\x01\x00\x00\x00\x20\
    <http://d/a> <http://d/#p> \"x\" .\x00\x00\x00\x01\x00";

/// A side with two forks, and bytes behind its closed gate.
const FORKED: &[u8] = b"\x01mld1\x00\x00\x00\x00\x00\x00\x00\x01\
    \x00\x00\x00\x00\x00\x00\x00\x00\x00\x00\x00\x00\x00\x00\x00\x00\
    \x00\x00\x00\x01d\x00\x00\x00\x00\x00\x00\x00\x00\x00\x00\x00\x00\x00\
    \x01\x02\x01\x02\x00\x01\x09";

/// A side with a record of no kind.
const UNKNOWN: &[u8] = b"\x01mld1\x00\x00\x00\x00\x00\x00\x00\x01\
    \x00\x00\x00\x00\x00\x00\x00\x00\x00\x00\x00\x00\x00\x00\x00\x00\
    \x00\x00\x00\x01d\x00\x00\x00\x00\x00\x00\x00\x00\x00\x00\x00\x00\x00\
    \x01\x03\x00";

/// A side of generation 2 without records.
const LATER: &[u8] = b"\x01mld1\x00\x00\x00\x00\x00\x00\x00\x02\
    \x00\x00\x00\x00\x00\x00\x00\x00\x00\x00\x00\x00\x00\x00\x00\x00\
    \x00\x00\x00\x01d\x00\x00\x00\x00\x00\x00\x00\x00\x00\x00\x00\x00\x00\
    \x00";

/// The bytes of both sides, and what a mount of them answers.
type Sides = (&'static [u8], &'static [u8], Answer);

const MOUNTS: &[Sides] = &[
    (SIDE, b"", Answer::Found(1, 0)),
    (b"\x00\x07", SIDE, Answer::Found(1, 0)),
    (b"", b"", Answer::Empty),
    (b"\x02mld1", b"\x00", Answer::Empty),
    (TWICE, b"", Answer::Damaged(Side::A, 117)),
    (FORKED, b"", Answer::Found(0, 2)),
    (b"\x00", UNKNOWN, Answer::Damaged(Side::B, 48)),
    // Where both are open the greater generation counts, but a damaged side is told.
    (SIDE, SIDE, Answer::Damaged(Side::B, 5)),
    (SIDE, LATER, Answer::Found(0, 0)),
    (LATER, FORKED, Answer::Found(0, 0)),
    (LATER, b"\x01mld1\x00", Answer::Damaged(Side::B, 5)),
    (b"\x01mld1\x00", b"\x01", Answer::Damaged(Side::A, 5)),
];

#[test]
fn both_sides_are_read_up_to_a_closed_gate(rt: HostRuntime) -> Result<(), Fail> {
    for (a, b, wanted) in MOUNTS {
        let answer = mount_of(rt.alloc(), a, b, NEVER)?;
        assert!(rt; answer == *wanted, "{a:?} {b:?}");
    }
    Ok(())
}

#[test]
fn a_failing_device_is_told(rt: HostRuntime) -> Result<(), Fail> {
    for call in 0..6 {
        let answer = mount_of(rt.alloc(), SIDE, b"", call)?;
        assert!(rt; answer == Answer::Device, "{call}");
    }
    Ok(())
}
