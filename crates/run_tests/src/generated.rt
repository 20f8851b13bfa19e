//! Generated schedules: the lines that a seed gives, and the counts of a run of them.
use crate::replays::{Given, Odd, banks, ended, replay, words};
use mld_io::{MemorySink, MemorySource, Piece};
use mld_replay::net_world::{CloneSummary, Summary};
use mld_replay::run::run;
use schedule_generator::{generate, text_of};
use std::alloc::{AllocError, Global};
use std::test::Fail;
use std::thread::Threads;

/// The lines of seed 0, as another program worked them out from `docs/FORMATS.md`.
const OF_ZERO: &[&str] = &[
    "domain gen.example clones 4",
    "deliver 1 1",
    "deliver 2 3",
    "add 3 <http://gen.example/s14> <http://gen.example/#p4> \"3\" .",
    "add 2 <http://gen.example/s45> <http://gen.example/#p0> \"2\" .",
    "remove 2 <http://gen.example/s31> <http://gen.example/#p3> \"14\" .",
    "truncate 2 13",
    "add 1 <http://gen.example/s1> <http://gen.example/#p1> \"2\" .",
    "deliver 1 2",
    "add 1 <http://gen.example/s13> <http://gen.example/#p4> \"19\" .",
    "add 2 <http://gen.example/s16> <http://gen.example/#p4> \"17\" .",
    "deliver 2 0",
    "deliver 8 0",
    "deliver 1 3",
    "remove 1 <http://gen.example/s35> <http://gen.example/#p0> \"10\" .",
    "add 2 <http://gen.example/s9> <http://gen.example/#p4> \"18\" .",
    "add 2 <http://gen.example/s35> <http://gen.example/#p2> \"2\" .",
    "compare 2 1",
    "ask 0",
];

/// Those of seed 1.
const OF_ONE: &[&str] = &[
    "domain gen.example clones 4",
    "add 1 <http://gen.example/s46> <http://gen.example/#p0> \"14\" .",
    "remove 2 <http://gen.example/s2> <http://gen.example/#p4> \"6\" .",
    "add 2 <http://gen.example/s2> <http://gen.example/#p0> \"14\" .",
    "add 2 <http://gen.example/s45> <http://gen.example/#p2> \"5\" .",
    "deliver 3 2",
    "add 1 <http://gen.example/s28> <http://gen.example/#p4> \"12\" .",
    "add 0 <http://gen.example/s7> <http://gen.example/#p3> \"8\" .",
    "remove 2 <http://gen.example/s32> <http://gen.example/#p1> \"18\" .",
    "deliver 8 3",
    "add 2 <http://gen.example/s30> <http://gen.example/#p1> \"14\" .",
    "ask 1",
    "add 2 <http://gen.example/s22> <http://gen.example/#p4> \"16\" .",
    "add 1 <http://gen.example/s0> <http://gen.example/#p3> \"15\" .",
    "deliver 1 1",
    "add 0 <http://gen.example/s41> <http://gen.example/#p1> \"15\" .",
    "add 0 <http://gen.example/s22> <http://gen.example/#p4> \"2\" .",
    "add 1 <http://gen.example/s8> <http://gen.example/#p0> \"8\" .",
    "compact 3",
];

/// Those of the last seed.
const OF_LAST: &[&str] = &[
    "domain gen.example clones 4",
    "ask 3",
    "deliver 1 0",
    "deliver 1 3",
];

/// The lines have these texts.
fn are(lines: &[Piece], texts: &[&str]) -> bool {
    for (line, text) in lines.iter().zip(texts) {
        if line.as_slice() != text.as_bytes() {
            return false;
        }
    }
    lines.len() == texts.len()
}

/// A seed gives these lines.
fn gives(alloc: Global, seed: u64, commands: u32, texts: &[&str]) -> Result<bool, AllocError> {
    let lines = generate(alloc, seed, commands)?;
    Ok(are(&lines, texts))
}

/// A seed, how many commands it is to have, and its lines.
const SEEDS: &[(u64, u32, &[&str])] = &[(0, 18, OF_ZERO), (1, 18, OF_ONE), (u64::MAX, 3, OF_LAST)];

#[test]
fn a_seed_gives_its_lines(rt: HostRuntime) -> Result<(), Fail> {
    for (seed, commands, texts) in SEEDS {
        let is_so = gives(rt.alloc(), *seed, *commands, texts)?;
        assert!(rt; is_so, "{seed}");
    }
    Ok(())
}

/// What is written by `gen 0 1`: the one command delivers a message that there isn't.
const OF_ZERO_AND_ONE: &[u8] = b"lines 2\n\
    clone 0 ranges 0 tagged 0 known 0\n\
    clone 1 ranges 0 tagged 0 known 0\n\
    clone 2 ranges 0 tagged 0 known 0\n\
    clone 3 ranges 0 tagged 0 known 0\n";

/// A run by these words, of whose source the first read fails, ends well and writes this.
fn writes<R: Threads + Sync>(
    rt: &R,
    alloc: Global,
    words: &[&str],
    text: &[u8],
) -> Result<bool, AllocError> {
    let given = Given {
        words,
        reads: &[0],
        ..replay(b"")
    };
    let mut sink = MemorySink::new(alloc, &[])?;
    let end = ended(rt, alloc, given, &mut sink)?;
    Ok(end.status == 0 && end.tells && sink.bytes() == text)
}

#[test]
fn a_generated_schedule_is_counted(rt: HostRuntime) -> Result<(), Fail> {
    let is_so = writes(&rt, rt.alloc(), &["gen", "0", "1"], OF_ZERO_AND_ONE)?;
    assert!(rt; is_so);
    Ok(())
}

/// How many dots a clone knows.
fn known(clone: &CloneSummary) -> u64 {
    let mut dots = 0u64;
    for (_, ticks) in &clone.known {
        dots = dots.saturating_add(u64::from(*ticks));
    }
    dots
}

/// The counts of a schedule of so many lines, by what a replay tells.
fn counts(alloc: Global, lines: usize, summary: &Summary) -> Result<String, AllocError> {
    let mut text = format!(in alloc; "lines {lines}\n")?;
    for (number, clone) in summary.clones.iter().take(4).enumerate() {
        let ranges = clone.journal.len();
        let tagged = clone.tagged.len();
        let known = known(clone);
        let line = format!(in alloc;
            "clone {number} ranges {ranges} tagged {tagged} known {known}\n"
        )?;
        text.push_str(line.as_str())?;
    }
    Ok(text)
}

/// The counts of a replay of the lines of a seed.
fn replayed<R: Threads + Sync>(
    rt: &R,
    alloc: Global,
    seed: u64,
    n: u32,
) -> Result<String, AllocError> {
    let lines = generate(alloc, seed, n)?;
    let text = text_of(alloc, &lines)?;
    let words = words(alloc, &["replay"])?;
    let mut source = MemorySource::new(alloc, &text, &[])?;
    let mut sink = MemorySink::new(alloc, &[])?;
    let banks = banks(alloc, Odd::Nothing)?;
    let ran = run(rt, alloc, &words, &mut source, &mut sink, banks);
    match &ran.world {
        Some(summary) => counts(alloc, lines.len(), summary),
        None => Ok(String::new(alloc)),
    }
}

#[test]
fn a_generated_schedule_runs_as_its_replay(rt: HostRuntime) -> Result<(), Fail> {
    let text = replayed(&rt, rt.alloc(), 1, 2000)?;
    for _ in 0..2 {
        let is_so = writes(&rt, rt.alloc(), &["gen", "1", "2000"], text.as_bytes())?;
        assert!(rt; is_so);
    }
    Ok(())
}
