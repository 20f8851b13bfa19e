//! Whose turn it is, and how far a connection is read.

use self::Step::{Add, Due, Next, Settle};
use crate::made::boxed;
use std::alloc::{AllocError, Global};
use std::test::Fail;
use wire_rules::Kind::{Little, Much, New};
use wire_rules::{Framing, Kind, Turns};

/// What is done, and what it has to answer.
#[derive(Clone, Copy)]
enum Step {
    /// One of this number and kind waits.
    Add(u32, Kind),
    /// This one has the next turn.
    Next(Option<u32>),
    /// What had it is done, and cost so many microseconds.
    Settle(u64),
    /// The next turn is in so many.
    Due(Option<u64>),
}

/// What is done at which moment, in microseconds. 1 asks for much, 2 for little, and nothing is known of 3.
const STEPS: &[(u64, Step)] = &[
    (0, Due(None)),
    (0, Next(None)),
    (0, Add(1, Much)),
    (0, Add(2, Little)),
    (0, Add(3, New)),
    (0, Add(2, Little)),
    (0, Due(Some(0))),
    // Nobody used anything: the kinds come in their order. A turn counts 10.
    (0, Next(Some(2))),
    (200, Settle(200)),
    (250, Add(2, Little)),
    // It used 210, the others nothing yet.
    (250, Next(Some(3))),
    (350, Settle(100)),
    (350, Next(Some(1))),
    (30_350, Settle(30_000)),
    (30_350, Add(1, Much)),
    (30_350, Next(Some(2))),
    (30_650, Settle(300)),
    // It used 520, and may ask again until 50,650; 1 used 30,010.
    (30_650, Due(Some(20_000))),
    (30_650, Next(None)),
    (34_650, Add(2, Little)),
    (34_650, Due(Some(0))),
    // A half of the wait counts: it used 2,520, and with its turn 2,930.
    (34_650, Next(Some(2))),
    (35_050, Settle(400)),
    (35_050, Next(None)),
    // Who comes has a turn meanwhile.
    (40_050, Add(3, New)),
    (40_050, Next(Some(3))),
    (40_150, Settle(90)),
    // 2 used 5,430, and may ask again until 55,050.
    (40_150, Due(Some(14_900))),
    (40_150, Next(None)),
    // It didn't ask again.
    (55_050, Due(Some(0))),
    (55_050, Next(Some(1))),
    (55_050, Due(None)),
    // An event that cost much more than a second counts a second ahead of the 30,010 that 1 had used.
    (2_000_000, Settle(9_000_000)),
    (2_000_000, Add(1, Much)),
    // What 2 didn't use meanwhile is lost: it begins at those 30,010.
    (2_000_000, Add(2, Little)),
    (2_000_000, Next(Some(2))),
    (2_900_000, Settle(900_000)),
    (2_900_000, Add(2, Little)),
    (2_900_000, Next(Some(2))),
    // 2 used 940,030 so far, 1 used 1,030,010; but 1 waits for a second.
    (3_000_000, Settle(10_000)),
    (3_000_000, Add(2, Little)),
    (3_000_000, Next(Some(1))),
    (3_000_000, Due(Some(0))),
    (3_000_000, Next(Some(2))),
    (3_000_000, Next(None)),
];

/// Whether a step answers what it has to.
fn is_so(turns: &mut Turns, now: u64, step: Step) -> bool {
    match step {
        Add(number, kind) => turns.add(number, kind, now),
        Settle(work) => turns.settle(work, now),
        Next(wanted) => return turns.next(now) == wanted,
        Due(wanted) => return turns.due(now) == wanted,
    }
    true
}

/// How many of the steps answer what they have to, up to the first that doesn't.
fn count_good(alloc: Global) -> Result<usize, AllocError> {
    let mut turns = boxed(alloc, Turns::new(alloc))?;
    turns.reserve(4)?;
    let mut count = 0usize;
    for (now, step) in STEPS {
        if !is_so(&mut turns, *now, *step) {
            break;
        }
        count = count.saturating_add(1);
    }
    Ok(count)
}

#[test]
fn each_kind_has_its_share(rt: HostRuntime) -> Result<(), Fail> {
    assert_eq!(rt; count_good(rt.alloc())?, STEPS.len());
    Ok(())
}

#[test]
fn a_frame_is_read_to_its_end(rt: HostRuntime) -> Result<(), Fail> {
    let mut framing = Framing::new();
    assert_eq!(rt; framing.wanted(), 5);
    // A request of three bytes, whose head comes in two pieces.
    framing.advance(b"\x03\x00");
    assert_eq!(rt; framing.wanted(), 3);
    framing.advance(b"\x00\x00\x03");
    assert_eq!(rt;
        (framing.wanted(), framing.kept(), framing.has_begun()),
        (3, 5, false)
    );
    framing.advance(b"ask");
    assert_eq!(rt;
        (framing.wanted(), framing.kept(), framing.has_begun()),
        (5, 0, true)
    );
    // The longest payload, 1,048,588 bytes, is no short one, and is read in pieces.
    framing.advance(b"\x02\x00\x10\x00\x0c");
    assert_eq!(rt; (framing.wanted(), framing.is_short()), (65_536, false));
    Ok(())
}
