//! What ends a run, with what it writes and whether it tells of its world. What good schedules write is shown by the transcripts of
//! `schedule_cases`.
use crate::replays::{End, Given, Odd, ended, replay};
use mld_io::MemorySink;
use mld_replay::run::RunFault;
use std::alloc::{AllocError, Global};
use std::test::Fail;
use std::thread::Threads;

/// A run that is given this, of which these writes fail, ends so, and this is written.
fn ends<R: Threads + Sync>(
    rt: &R,
    alloc: Global,
    given: Given<'_>,
    writes: &[u64],
    end: End,
    text: &[u8],
) -> Result<bool, AllocError> {
    let mut sink = MemorySink::new(alloc, writes)?;
    let found = ended(rt, alloc, given, &mut sink)?;
    Ok(
        found.status == end.status
            && found.fault == end.fault
            && found.tells == end.tells
            && sink.bytes() == text,
    )
}

/// A schedule, the number of its first line that is no command, what is written, and whether a world is told of.
type Refused = (&'static [u8], u64, &'static [u8], bool);

const BAD_LINES: &[Refused] = &[
    // Bytes that no transcript has.
    (b"\n# c\n\xff\n", 3, b"", false),
    (b"domain d clones 2\r\n", 1, b"", false),
    (b"domain d clones 2\nshow 1\r\n", 2, b"ready 2\n", false),
    (b"domain d clones 2\n#\xff\n", 2, b"ready 2\n", false),
    (
        b"domain d clones 2\nadd 0 <http://d/a> <http://d/#p> \"\xff\" .\n",
        2,
        b"ready 2\n",
        false,
    ),
    (
        b"domain d clones 2\nsingle <a:\xff>\n",
        2,
        b"ready 2\n",
        false,
    ),
    (
        b"domain d clones 2\nupdate 0 {\"p\":\"\xff\"}\n",
        2,
        b"ready 2\n",
        false,
    ),
    (
        b"domain d clones 2\ncrash 0 keep add 0 <http://d/a> <http://d/#p> \"\xff\" .\n",
        2,
        b"ready 2\n",
        false,
    ),
    // A world is told of where a command was done.
    (
        b"domain d clones 1\n\n# c\nshow\nshow 0\n",
        4,
        b"ready 1\n",
        false,
    ),
    (
        b"domain d clones 1\nshow 0\nshow\n",
        3,
        b"ready 1\nhas 0\n",
        true,
    ),
    (b"", 1, b"", false),
    (b"single <a:b>\n", 1, b"", false),
    (
        b"domain d clones 1\ncrash 0 keep open 0\ncrash 0\n",
        3,
        b"ready 1\nlive\ncrashed\n",
        true,
    ),
];

#[test]
fn a_line_that_is_no_command_ends_the_run(rt: HostRuntime) -> Result<(), Fail> {
    for (schedule, line, text, tells) in BAD_LINES {
        let end = End {
            status: 4,
            fault: Some(RunFault::BadLine(*line)),
            tells: *tells,
        };
        let is_so = ends(&rt, rt.alloc(), replay(schedule), &[], end, text)?;
        assert!(rt; is_so, "{schedule:?}");
    }
    Ok(())
}

/// A triple is added at a clone, and comes to the other.
const DELIVERED: &[u8] = b"domain d clones 2\n\
    add 0 <http://d/a> <http://d/#p> \"x\" .\n\
    deliver 1 1\n\
    show 0\n\
    show 1\n\
    compare 0 1\n";

/// What is written for that.
const DELIVERED_TEXT: &[u8] = b"ready 2\n\
    did r0.1 m1\n\
    took r0.1-1\n\
    has 1\n\
    r0.1 <http://d/a> <http://d/#p> \"x\" .\n\
    has 1\n\
    r0.1 <http://d/a> <http://d/#p> \"x\" .\n\
    same\n";

/// What is written where no line was answered.
const NO_TEXT: &[u8] = b"";

/// What goes amiss in a run: its name, the reads and the writes that fail, and the banks that are odd; and how the run ends then.
type Amiss = (
    &'static str,
    &'static [u64],
    &'static [u64],
    Odd,
    u8,
    Option<RunFault>,
);

const FIRST_FAULTS: &[Amiss] = &[
    ("nothing", &[], &[], Odd::Nothing, 0, None),
    (
        "the first read fails",
        &[0],
        &[],
        Odd::Nothing,
        2,
        Some(RunFault::ReadFault),
    ),
    (
        "the first write fails",
        &[],
        &[0],
        Odd::Nothing,
        3,
        Some(RunFault::WriteFault),
    ),
    (
        "the first call of the banks of clone 1 fails",
        &[],
        &[],
        Odd::Fails(1, 0),
        6,
        Some(RunFault::Device(1)),
    ),
    (
        "the banks of clone 3 have a byte on side B",
        &[],
        &[],
        Odd::Filled(3),
        8,
        Some(RunFault::NotEmpty(3)),
    ),
];

/// Whether a run over `DELIVERED` ends so, with nothing written; or, where nothing goes amiss, with the whole text.
fn ends_amiss<R: Threads + Sync>(
    rt: &R,
    alloc: Global,
    (_name, reads, writes, odd, status, fault): Amiss,
) -> Result<bool, AllocError> {
    let given = Given {
        reads,
        odd,
        ..replay(DELIVERED)
    };
    let tells = fault.is_none();
    let end = End {
        status,
        fault,
        tells,
    };
    let text = if tells { DELIVERED_TEXT } else { NO_TEXT };
    ends(rt, alloc, given, writes, end, text)
}

#[test]
fn what_goes_amiss_at_first_ends_the_run(rt: HostRuntime) -> Result<(), Fail> {
    for amiss in FIRST_FAULTS {
        let name = amiss.0;
        assert!(rt; ends_amiss(&rt, rt.alloc(), *amiss)?, "{name}");
    }
    Ok(())
}

/// The ends that a run has where a read or a write fails, or none.
fn end_at(fault: Option<RunFault>, tells: bool) -> End {
    let status = match fault {
        None => 0,
        Some(RunFault::ReadFault) => 2,
        Some(_) => 3,
    };
    End {
        status,
        fault,
        tells,
    }
}

/// The reads and the writes that fail, the fault that ends the run then, what is written, and whether a world is told of.
type Failing = (
    &'static [u64],
    &'static [u64],
    Option<RunFault>,
    &'static [u8],
    bool,
);

const READ: Option<RunFault> = Some(RunFault::ReadFault);

const WRITE: Option<RunFault> = Some(RunFault::WriteFault);

const LATER_FAULTS: &[Failing] = &[
    // The lines take 18 and 7 bytes with their LF, and the last one 6: read 31 gives the end.
    (&[3], &[], READ, b"", false),
    (&[17], &[], READ, b"", false),
    (&[24], &[], READ, b"ready 2\n", false),
    (&[25], &[], READ, b"ready 2\nhas 0\n", true),
    // Where the read fails that would tell the end, the last line isn't done.
    (&[31], &[], READ, b"ready 2\nhas 0\n", true),
    (&[], &[1], WRITE, b"ready 2\n", false),
    // Nothing is read behind the end, so later failures are never met.
    (&[32, 33, 34], &[3], None, b"ready 2\nhas 0\nhas 0\n", true),
];

/// Whether a run ends so where these reads and writes fail.
fn ends_failing<R: Threads + Sync>(
    rt: &R,
    alloc: Global,
    (reads, writes, fault, text, tells): Failing,
) -> Result<bool, AllocError> {
    let given = Given {
        reads,
        ..replay(b"domain d clones 2\nshow 0\nshow 1")
    };
    ends(rt, alloc, given, writes, end_at(fault, tells), text)
}

#[test]
fn a_failed_read_or_write_ends_the_run(rt: HostRuntime) -> Result<(), Fail> {
    for failing in LATER_FAULTS {
        let reads = failing.0;
        assert!(rt; ends_failing(&rt, rt.alloc(), *failing)?, "{reads:?}");
    }
    Ok(())
}

/// Adds so many lines, each a comment of so many bytes.
fn comment(schedule: &mut Vec<u8>, lines: usize, size: usize) -> Result<(), AllocError> {
    for _ in 0..lines {
        for _ in 0..size {
            schedule.push(b'#')?;
        }
        schedule.push(b'\n')?;
    }
    Ok(())
}

/// A domain line, then so many comments of 1,048,575 bytes and one of so many, then a command: it ends so, and this is written.
fn ends_behind<R: Threads + Sync>(
    rt: &R,
    alloc: Global,
    lines: usize,
    size: usize,
    fault: Option<RunFault>,
) -> Result<bool, AllocError> {
    let mut schedule = Vec::from_slice(alloc, b"domain d clones 1\n")?;
    comment(&mut schedule, lines, 1_048_575)?;
    comment(&mut schedule, 1, size)?;
    let (status, text): (u8, &[u8]) = match fault {
        None => (0, b"ready 1\n"),
        Some(_) => (7, b"ready 1\n"),
    };
    let end = End {
        status,
        fault,
        tells: fault.is_none(),
    };
    ends(rt, alloc, replay(&schedule), &[], end, text)
}

/// How many whole comments there are, the size of the one behind them, and the fault that ends the run then. A line has 1,048,576 bytes at
/// most, and the input 16,777,216: 18, then 15 times 1,048,576, and 1,048,558.
const LIMITS: &[(usize, usize, Option<RunFault>)] = &[
    (0, 1_048_576, None),
    (0, 1_048_577, Some(RunFault::TooLarge(2))),
    (15, 1_048_557, None),
    (15, 1_048_558, Some(RunFault::TooLarge(17))),
];

#[test]
fn a_line_and_the_input_have_limits(rt: HostRuntime) -> Result<(), Fail> {
    for (lines, size, fault) in LIMITS {
        let is_so = ends_behind(&rt, rt.alloc(), *lines, *size, *fault)?;
        assert!(rt; is_so, "{lines} {size}");
    }
    Ok(())
}

/// Words, the banks that are odd, and how a run by them ends.
type Worded = (&'static [&'static str], Odd, u8, RunFault);

const WORDS: &[Worded] = &[
    (&[], Odd::Nothing, 1, RunFault::Usage),
    (&["gen", "0"], Odd::Nothing, 1, RunFault::Usage),
    (&["gen", "00", "1"], Odd::Nothing, 1, RunFault::Usage),
    (&["gen", "0", "10001"], Odd::Nothing, 1, RunFault::Usage),
    (&["gen", "0", "1"], Odd::Fails(1, 0), 6, RunFault::Device(1)),
    (&["replay", "x"], Odd::Nothing, 1, RunFault::Usage),
    (&["Replay"], Odd::Nothing, 1, RunFault::Usage),
];

/// Whether a run by these words ends so, and writes nothing.
fn ends_by<R: Threads + Sync>(
    rt: &R,
    alloc: Global,
    (words, odd, status, fault): Worded,
) -> Result<bool, AllocError> {
    let given = Given {
        words,
        odd,
        ..replay(DELIVERED)
    };
    let end = End {
        status,
        fault: Some(fault),
        tells: false,
    };
    ends(rt, alloc, given, &[], end, NO_TEXT)
}

#[test]
fn other_words_end_the_run_at_once(rt: HostRuntime) -> Result<(), Fail> {
    for worded in WORDS {
        let words = worded.0;
        assert!(rt; ends_by(&rt, rt.alloc(), *worded)?, "{words:?}");
    }
    Ok(())
}
