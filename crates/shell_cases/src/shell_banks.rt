//! What a run leaves on banks of which a call fails.
use crate::shell_given::{copy_of, failing_banks, folder_words, source_of};
use disk_model::MemoryBanks;
use mld_io::MemorySink;
use shell_run::run::{ShellFault, ShellRan, shell};
use std::alloc::{AllocError, Global};
use std::test::Fail;
use std::thread::Threads;

/// Lines that make a clone, append, swap to both sides, and open it again.
const LINES: &[u8] = b"create 00000000-0000-4000-8000-000000000007 d\n\
    add <http://d/a> <http://d/#p> \"x\" .\n\
    compact\n\
    add <http://d/b> <http://d/#p> \"x\" .\n\
    stop\n\
    open\n\
    compact\n\
    add <http://d/c> <http://d/#p> \"x\" .\n\
    truncate 0\n";

/// How many calls these lines make of their banks, reads counted, is at most this.
const MOST_CALLS: u64 = 200;

/// How a run ended whose banks failed at a call: whether it failed, how many updates it answered, and how many triples are there once the
/// clone opens again.
#[derive(Clone, Copy)]
struct Failed {
    fault: Option<ShellFault>,
    created: bool,
    answered: usize,
    there: usize,
}

/// How many lines of a text begin so.
fn count_of(text: &[u8], front: &[u8]) -> usize {
    text.split(|byte| *byte == b'\n')
        .filter(|line| line.starts_with(front))
        .count()
}

/// Runs the lines over banks whose call of this number fails, and shows what is there then.
fn failed_at<R: Threads + Sync>(rt: &R, alloc: Global, call: u64) -> Result<Failed, AllocError> {
    let mut sink = Box::new(alloc, MemorySink::new(alloc, &[])?)?;
    let ran = failing_run(rt, alloc, call, &mut sink)?;
    let there = shown_on(rt, alloc, &ran.banks)?;
    Ok(end_of(ran.fault, sink.bytes(), there))
}

/// How a run ended that ended so, wrote this, and left so many triples.
fn end_of(fault: Option<ShellFault>, text: &[u8], there: usize) -> Failed {
    Failed {
        fault,
        created: count_of(text, b"created") == 1,
        answered: count_of(text, b"did "),
        there,
    }
}

/// Runs the lines over banks whose call of this number fails.
fn failing_run<R: Threads + Sync>(
    rt: &R,
    alloc: Global,
    call: u64,
    sink: &mut MemorySink,
) -> Result<Box<ShellRan<MemoryBanks>>, AllocError> {
    let words = folder_words(alloc)?;
    let mut source = source_of(alloc, LINES)?;
    let banks = failing_banks(alloc, call)?;
    Ok(Box::new(alloc, shell(rt, alloc, &words, &mut *source, sink, banks))?)
}

/// How many triples a clone has that opens on what these banks keep.
fn shown_on<R: Threads + Sync>(
    rt: &R,
    alloc: Global,
    banks: &MemoryBanks,
) -> Result<usize, AllocError> {
    let mut sink = Box::new(alloc, MemorySink::new(alloc, &[])?)?;
    show(rt, alloc, banks, &mut sink)?;
    Ok(count_of(sink.bytes(), b"r."))
}

/// Opens the clone that these banks keep, and shows what it has.
fn show<R: Threads + Sync>(
    rt: &R,
    alloc: Global,
    banks: &MemoryBanks,
    sink: &mut MemorySink,
) -> Result<(), AllocError> {
    let words = folder_words(alloc)?;
    let mut source = source_of(alloc, b"open\nshow\n")?;
    let banks = copy_of(alloc, banks)?;
    Box::new(alloc, shell(rt, alloc, &words, &mut *source, sink, banks))?;
    Ok(())
}

/// The run ended by the fault of its banks, and has what was answered and at most one update more; or no call failed, and it has all.
fn is_well(failed: Failed) -> bool {
    match failed.fault {
        Some(ShellFault::Device) => {
            failed.there == failed.answered || failed.there == failed.answered.saturating_add(1)
        }
        None => failed.created && failed.answered == 3 && failed.there == 3,
        Some(_) => false,
    }
}

#[test]
fn each_call_of_the_banks_may_fail(rt: HostRuntime) -> Result<(), Fail> {
    let mut faults = 0u64;
    for call in 0..MOST_CALLS {
        let failed = failed_at(&rt, rt.alloc(), call)?;
        assert!(rt; is_well(failed), "call {call}");
        if failed.fault.is_some() {
            faults = faults.saturating_add(1);
        }
    }
    assert!(rt; 30 < faults && faults < MOST_CALLS, "{faults}");
    Ok(())
}
