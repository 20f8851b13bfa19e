//! Swaps of what a clone's banks keep, and appends behind a swap.
ghost use Rattle.std.specs.Prelude.{◌≡◌, ◌≢◌, ◌+◌, ◌*◌, ◌-◌, ◌^◌, ◌∷◌, [], true, false, None, IfErr, IsOk, IsErrOf, IsTrue, OnOk, length};
ghost use Rattle.std.specs.List.{AllByRecursion};
ghost use Rattle.mld_io.specs.Arm.{Metered};
ghost use Rattle.op_codec.specs.Stored.{IsShortEntry};
ghost use Rattle.journal_store.specs.journal_sides.Heads.{head_value};
ghost use Rattle.journal_store.specs.journal_sides.Pairs.{Kept};
ghost use Rattle.journal_store.specs.Calls.{KeptBy, swapped};
ghost use Rattle.journal_store.specs.Closing.{StaysTold, IsSwapped, LeavesRefused};
ghost use Rattle.journal_store.specs.Standing.{KeepsNow};
ghost use Rattle.clone_parts.specs.Appending.{KeepsSome, IsHeadInOrder, AreShortParts};
ghost use Rattle.clone_parts.specs.BankCalls.{append_calls, swap_calls};
ghost use Rattle.clone_parts.specs.KeptSteps.{Swapped, LeavesSteps, appends};
ghost use Rattle.clone_parts.specs.Replays.{AreReadyEntries};

use crate::appending::{append_short, are_short, is_short_head};
use journal_store::{Head, Journal, Why};
use mld_io::Banks;
use mld_ops::Entry;
use std::alloc::Global;

/// Swaps what a journal keeps, which is open and has a generation left, for a head that is in order, and entries that are
/// ready one after another behind its base, in six calls of the device.
///
/// # Errors
///
/// `Device` where the device failed, which closes the journal. `NoMemory` closes it where a call of the device was done, and
/// leaves it as it was else.
pub fn swap_kept<B: Banks>(
    alloc: Global,
    journal: &mut Journal<B>,
    head: &Head,
    entries: &[Entry],
) -> Result<(), Why>
    requires opened { journal.old.closed ≡ None }
    requires left { journal.old.generation ≢ 2 ^ 64 - 1 }
    requires head { IsHeadInOrder (head_value head.now) }
    requires ready { AreReadyEntries head.now.base.ticks entries.now }
    ensures kept { (kept : Kept) → KeptBy (B.log journal.old.banks) journal.old.closed kept
        → OnOk result (KeepsNow (swapped (head_value head.now) entries.now kept) (B.log journal.new.banks)) }
    ensures moments { LeavesSteps B.log B.meter journal.old journal.new
        (Swapped (head_value head.now) entries.now ∷ []) }
    ensures ok { OnOk result (IsSwapped B.log B.meter journal.old journal.new) }
    ensures err { IfErr result (LeavesRefused B.log B.meter false journal.old journal.new) }
    ensures told { StaysTold (B.log journal.old.banks) (B.log journal.new.banks) }
    ensures meter { Metered swap_calls (B.meter journal.old.banks) (B.meter journal.new.banks)
        (IsOk result) (IsErrOf result Why.Device) }
{
    if !are_short_parts(head, entries) {
        return Err(Why::NoMemory);
    }
    journal.swap_open(alloc, head, entries)
}

/// Swaps what a journal keeps, which is open and has a generation left, for a head that is in order, with no entries, in six
/// calls of the device, and appends entries behind it that are ready one after another behind its base, each in four.
///
/// # Errors
///
/// As those of `swap_kept`. Where an append is refused, the swap and the appends before it stand, and the journal is closed.
pub fn swap_and_append<B: Banks>(
    alloc: Global,
    journal: &mut Journal<B>,
    head: &Head,
    entries: &[Entry],
) -> Result<(), Why>
    requires keeps { KeepsSome B.log journal.old }
    requires left { journal.old.generation ≢ 2 ^ 64 - 1 }
    requires head { IsHeadInOrder (head_value head.now) }
    requires ready { AreReadyEntries head.now.base.ticks entries.now }
    ensures kept { (kept : Kept) → KeptBy (B.log journal.old.banks) journal.old.closed kept
        → OnOk result (KeepsNow (swapped (head_value head.now) entries.now kept) (B.log journal.new.banks)) }
    ensures moments { LeavesSteps B.log B.meter journal.old journal.new
        (Swapped (head_value head.now) [] ∷ appends entries.now) }
    ensures ok { OnOk result (IsSwapped B.log B.meter journal.old journal.new) }
    ensures err { IfErr result (LeavesRefused B.log B.meter true journal.old journal.new) }
    ensures told { StaysTold (B.log journal.old.banks) (B.log journal.new.banks) }
    ensures meter { Metered (swap_calls + append_calls * length entries.now) (B.meter journal.old.banks)
        (B.meter journal.new.banks)
        (IsOk result) (IsErrOf result Why.Device) }
{
    if !are_short_parts(head, entries) {
        return Err(Why::NoMemory);
    }
    journal.swap_open(alloc, head, &[])?;
    append_short(journal, true, entries)?;
    Ok(())
}

/// Whether the lists of a head and of entries have counts of four bytes.
fn are_short_parts(head: &Head, entries: &[Entry]) -> bool
    ensures head { IsTrue result → AreShortParts (head_value head.now) }
    ensures entries { IsTrue result → AllByRecursion IsShortEntry entries.now }
{
    is_short_head(head) && are_short(entries)
}
