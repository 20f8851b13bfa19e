//! A journal is made, appended to and swapped on a device that fails, or crashes, at each call: what is refused, and what a mount finds
//! once the device is back.
ghost use Rattle.std.specs.Prelude.{Some};
ghost use Rattle.mld_ops.specs.Ready.{IsReadyEntry};
ghost use Rattle.op_codec.specs.Stored.{IsShortEntry};
ghost use Rattle.journal_sides.specs.Heads.{head_value};
ghost use Rattle.journal_sides.specs.StoredVolumes.{IsGoodHead};
ghost use Rattle.disk_model.specs.BankSteps.{memory_log};
ghost use Rattle.journal_store.specs.Calls.{made};
ghost use Rattle.clone_tests.specs.KeptAtMost.{KeepsAtMost};

use crate::journals::{first_entry, first_head};
use crate::made::failing;
use disk_model::MemoryBanks;
use journal_store::{
    AppendFault, Blank, Head, Journal, JournalMounted, MakeFault, MountFault, SwapFault,
};
use mld_io::{CrashBanks, Leave};
use mld_ops::Entry;
use std::alloc::Global;
use std::test::Fail;

/// Which call of a journal was refused because the device failed.
#[derive(Clone, Copy, PartialEq, Eq)]
enum Refused {
    Mount,
    Create,
    Append,
    Swap,
    Nothing,
    /// One was refused for another reason.
    Amiss,
}

/// What a mount finds.
#[derive(Clone, Copy, PartialEq, Eq)]
enum Found {
    /// A journal that keeps so many entries.
    Journal(usize),
    Nothing,
    Damaged,
}

/// What was refused, and what is found then.
#[derive(Clone, Copy)]
struct Outcome {
    refused: Refused,
    found: Found,
}

/// What a mount found.
fn found_by(mounted: &JournalMounted<MemoryBanks>) -> Found {
    match mounted {
        JournalMounted::Found(_, _, entries) => Found::Journal(entries.len()),
        JournalMounted::Empty(_) => Found::Nothing,
        JournalMounted::Refused(_, _) => Found::Damaged,
    }
}

/// What is found on banks once they are back.
fn revived(alloc: Global, refused: Refused, banks: MemoryBanks) -> Outcome {
    let mut banks = banks;
    banks.revive();
    let mounted = Journal::mount(alloc, banks);
    Outcome {
        refused,
        found: found_by(&mounted),
    }
}

/// What is refused where an entry is appended to a journal that was made for a head, which is then swapped for that head alone.
fn append_and_swap(
    alloc: Global,
    journal: &mut Journal<MemoryBanks>,
    head: &Head,
    entry: &Entry,
) -> Refused
    requires good { IsGoodHead (head_value head.now) }
    requires made { KeepsAtMost (made (head_value head.now)) (Some (memory_log journal.old.banks)) journal.old.closed }
    requires ready { IsReadyEntry (head_value head.now).base.ticks entry.now }
    requires short { IsShortEntry entry.now }
{
    match journal.append_entry(entry) {
        Ok(()) => match journal.swap(alloc, head, &[]) {
            Ok(()) => Refused::Nothing,
            Err(SwapFault::Device) => Refused::Swap,
            Err(_fault) => Refused::Amiss,
        },
        Err(AppendFault::Device) => Refused::Append,
        Err(_fault) => Refused::Amiss,
    }
}

/// What comes of a journal that is made on banks that keep nothing.
fn outcome_on(alloc: Global, blank: Blank<MemoryBanks>, head: &Head, entry: &Entry) -> Outcome
    requires good { IsGoodHead (head_value head.now) }
    requires ready { IsReadyEntry (head_value head.now).base.ticks entry.now }
    requires short { IsShortEntry entry.now }
{
    match Journal::create(alloc, blank, head) {
        Ok(journal) => {
            let mut journal = journal;
            let refused = append_and_swap(alloc, &mut journal, head, entry);
            revived(alloc, refused, journal.into_banks())
        }
        Err((MakeFault::Device, banks)) => revived(alloc, Refused::Create, banks),
        Err((MakeFault::NoMemory, banks)) => revived(alloc, Refused::Amiss, banks),
    }
}

/// What comes of a journal where a mount of blank banks is followed by a crash behind so many calls.
fn crashed(alloc: Global, head: &Head, entry: &Entry, calls: u32, leave: Leave) -> Outcome
    requires good { IsGoodHead (head_value head.now) }
    requires ready { IsReadyEntry (head_value head.now).base.ticks entry.now }
    requires short { IsShortEntry entry.now }
{
    match Journal::mount(alloc, MemoryBanks::blank(alloc)) {
        JournalMounted::Empty(blank) => {
            let mut blank = blank;
            blank.arm(calls, leave);
            outcome_on(alloc, blank, head, entry)
        }
        _other => AMISS,
    }
}

/// Which call was refused where a mount was refused by a fault.
fn refused_by(fault: MountFault) -> Refused {
    match fault {
        MountFault::Device => Refused::Mount,
        MountFault::Damaged { side: _, place: _ } | MountFault::NoMemory => Refused::Amiss,
    }
}

/// What comes of a journal on blank banks, mounted with the rest, of which a call fails.
fn failed(alloc: Global, banks: Box<MemoryBanks>, head: &Head, entry: &Entry) -> Outcome
    requires good { IsGoodHead (head_value head.now) }
    requires ready { IsReadyEntry (head_value head.now).base.ticks entry.now }
    requires short { IsShortEntry entry.now }
{
    match Journal::mount(alloc, Box::into_inner(banks)) {
        JournalMounted::Empty(blank) => outcome_on(alloc, blank, head, entry),
        JournalMounted::Refused(fault, banks) => revived(alloc, refused_by(fault), banks),
        JournalMounted::Found(_journal, _head, _entries) => AMISS,
    }
}

/// The outcome where a call of the mount fails, which has four.
const UNMOUNTED: Outcome = Outcome {
    refused: Refused::Mount,
    found: Found::Nothing,
};

/// No outcome that is due.
const AMISS: Outcome = Outcome {
    refused: Refused::Amiss,
    found: Found::Damaged,
};

/// The outcome that is due where so many writes and syncs are done, and so many are found to have been: a making has 6, an append 4, a
/// swap 6, and what each of them does is found once the last is done.
fn due(done: u32, found: u32) -> Outcome {
    Outcome {
        refused: match done {
            0..6 => Refused::Create,
            6..10 => Refused::Append,
            10..16 => Refused::Swap,
            _ => Refused::Nothing,
        },
        found: match found {
            0..6 => Found::Nothing,
            6..10 => Found::Journal(0),
            10..16 => Found::Journal(1),
            _ => Found::Journal(0),
        },
    }
}

/// Whether two outcomes are the same.
fn are_same(outcome: Outcome, other: Outcome) -> bool {
    outcome.refused == other.refused && outcome.found == other.found
}

#[test]
fn a_crash_leaves_what_was_kept_before_or_after(rt: HostRuntime) -> Result<(), Fail> {
    let alloc = rt.alloc();
    let head = first_head(alloc)?;
    let entry = first_entry(alloc, &head)?;
    // Where the write is kept that is caught, a gate counts before its sync, so two calls sooner.
    for (leave, sooner) in [(Leave::Lose, 0), (Leave::Keep, 2), (Leave::Torn, 0)] {
        for calls in 0..17 {
            let outcome = crashed(alloc, &head, &entry, calls, leave);
            assert!(rt;
                are_same(outcome, due(calls, calls + sooner)),
                "{calls} {sooner}"
            );
        }
    }
    Ok(())
}

#[test]
fn a_failed_call_is_told(rt: HostRuntime) -> Result<(), Fail> {
    let alloc = rt.alloc();
    let head = first_head(alloc)?;
    let entry = first_entry(alloc, &head)?;
    for call in 0..4 {
        let outcome = failed(alloc, failing(alloc, call)?, &head, &entry);
        assert!(rt; are_same(outcome, UNMOUNTED), "{call}");
    }
    for calls in 0..16 {
        let banks = failing(alloc, 4 + u64::from(calls))?;
        let outcome = failed(alloc, banks, &head, &entry);
        assert!(rt; are_same(outcome, due(calls, calls)), "{calls}");
    }
    Ok(())
}
