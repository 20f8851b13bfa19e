//! Banks in memory: calls that are done, caught and failed, and what a crash leaves.
use crate::made::{boxed, is_failed};
use disk_model::MemoryBanks;
use mld_io::{Banks, CrashBanks, Leave, Side};
use std::alloc::{AllocError, Global};
use std::test::Fail;

/// A bank whose sides have these bytes.
fn banks_of(alloc: Global, a: &[u8], b: &[u8]) -> Result<Box<MemoryBanks>, AllocError> {
    boxed(alloc, MemoryBanks::with_bytes(alloc, a, b)?)
}

/// Whether the sides have these bytes.
fn have(banks: &MemoryBanks, a: &[u8], b: &[u8]) -> bool {
    banks.bytes(Side::A) == a && banks.bytes(Side::B) == b
}

/// Where pieces are written, and which.
type Writes = &'static [(u64, &'static [u8])];

/// What a side has, what is written to it without a sync, how many of these writes are done before one is caught, how much of them the
/// crash leaves, what an arm says that comes too late, and what the side has then.
type Crash = (&'static [u8], Writes, u32, Leave, Leave, &'static [u8]);

const ONE: Writes = &[(0, b"VWXYZ")];

const TWO: Writes = &[(0, b"VWXYZ"), (2, b"12345678")];

const CRASHES: &[Crash] = &[
    (b"abcdefg", ONE, 0, Leave::Lose, Leave::Keep, b"abcdefg"),
    (b"abcdefg", ONE, 0, Leave::Keep, Leave::Torn, b"VWXYZfg"),
    (
        b"abcdefg",
        ONE,
        0,
        Leave::Torn,
        Leave::Lose,
        b"VW\xff\xff\xfffg",
    ),
    // A torn write goes past the end, and leaves a 0 nowhere.
    (b"", ONE, 0, Leave::Torn, Leave::Keep, b"VW\xff\xff\xff"),
    (
        b"\x01",
        &[(0, b"\x00")],
        0,
        Leave::Torn,
        Leave::Keep,
        b"\xff",
    ),
    // Two writes overlap, and the second goes past the end.
    (b"abcdefg", TWO, 1, Leave::Lose, Leave::Keep, b"abcdefg"),
    (b"abcdefg", TWO, 1, Leave::Keep, Leave::Torn, b"VW12345678"),
    (
        b"abcdefg",
        TWO,
        1,
        Leave::Torn,
        Leave::Lose,
        b"VW1234\xff\xff\xff\xff",
    ),
];

/// Writes each piece to side A, where that has bytes up to its place, and crashes. A second arm behind the call that is caught changes
/// nothing.
fn write_and_crash(banks: &mut MemoryBanks, (_first, writes, done, leave, late, _left): Crash) {
    banks.arm(done, leave);
    for (place, piece) in writes {
        if *place <= banks.bytes(Side::A).len() as u64 {
            let _ = banks.write_at(Side::A, *place, piece);
        }
    }
    banks.arm(3, late);
    banks.revive();
}

/// Whether a crash leaves what it should, and nothing of it on the other side.
fn is_left(alloc: Global, crash: Crash) -> Result<bool, AllocError> {
    let mut banks = banks_of(alloc, crash.0, b"other")?;
    write_and_crash(&mut banks, crash);
    Ok(have(&banks, crash.5, b"other"))
}

#[test]
fn a_crash_takes_all_unsynced_writes(rt: HostRuntime) -> Result<(), Fail> {
    for crash in CRASHES {
        let left = crash.5;
        assert!(rt; is_left(rt.alloc(), *crash)?, "{left:?}");
    }
    Ok(())
}

/// Whether an arm at 2 lets a write and a sync be done, catches the next write, and has each call fail until the revival, which leaves what
/// was synced.
fn arm_counts_changes(banks: &mut MemoryBanks) -> bool {
    banks.arm(2, Leave::Lose);
    let before = matches!(banks.len(Side::A), Ok(0))
        && banks.write_at(Side::A, 0, b"ab").is_ok()
        && banks.sync(Side::A).is_ok()
        && !banks.stopped();
    let caught = is_failed(banks.write_at(Side::A, 0, b"xyz"))
        && banks.stopped()
        && is_failed(banks.len(Side::A))
        && is_failed(banks.sync(Side::B));
    banks.revive();
    before && caught && !banks.stopped() && have(banks, b"ab", b"")
}

/// Whether call 1 alone fails, and leaves the bytes.
fn call_one_fails(banks: &mut MemoryBanks) -> bool {
    let mut out = [0u8; 2];
    if banks.bytes(Side::A).len() != 2 {
        return false;
    }
    let read = banks.read_at(Side::A, 0, &mut out).is_ok() && out == *b"ab";
    let failed = is_failed(banks.write_at(Side::A, 0, b"xy"))
        && have(banks, b"ab", b"")
        && !banks.stopped();
    read && failed && banks.write_at(Side::A, 0, b"xy").is_ok() && have(banks, b"xy", b"")
}

/// Whether calls of a blank device are done and caught as an arm says.
fn are_caught(alloc: Global) -> Result<bool, AllocError> {
    let mut banks = boxed(alloc, MemoryBanks::blank(alloc))?;
    Ok(arm_counts_changes(&mut banks))
}

/// Whether the one call of a device fails that is to fail.
fn are_failed(alloc: Global) -> Result<bool, AllocError> {
    let mut banks = banks_of(alloc, b"ab", b"")?;
    banks.fail_call(1)?;
    Ok(call_one_fails(&mut banks))
}

#[test]
fn calls_are_done_caught_and_failed(rt: HostRuntime) -> Result<(), Fail> {
    assert!(rt; are_caught(rt.alloc())?);
    assert!(rt; are_failed(rt.alloc())?);
    Ok(())
}
