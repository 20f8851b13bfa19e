//! Appends to the journal on a clone's banks, and the making of one.
ghost use Rattle.std.specs.Prelude.{◌≡◌, ◌*◌, ◌∷◌, [], Bool, false, true, None, Some, IfOk, IfErr, IsOk, IsErrOf, IsTrue, OnOk, length};
ghost use Rattle.std.specs.List.{AllByRecursion};
ghost use Rattle.mld_io.specs.Arm.{Metered};
ghost use Rattle.op_codec.specs.Stored.{IsShortEntry};
ghost use Rattle.journal_store.specs.journal_sides.Heads.{head_value};
ghost use Rattle.journal_store.specs.journal_sides.Pairs.{Kept, with_entry, with_fork};
ghost use Rattle.journal_store.specs.Calls.{KeptBy, made_banks, FailsToMake};
ghost use Rattle.journal_store.specs.Closing.{StaysTold, JournalStaysOpen, IsAppended, IsMade, LeavesRefused, LeavesUnmade};
ghost use Rattle.journal_store.specs.Standing.{JournalValue, KeepsNow};
ghost use Rattle.journal_store.specs.declared.faults.Why.{Why};
ghost use Rattle.clone_parts.specs.Appending.{with_entries, MayAppendAll, MayForkNow, IsHeadInOrder, AreShortParts};
ghost use Rattle.clone_parts.specs.BankCalls.{append_calls, create_calls};
ghost use Rattle.clone_parts.specs.Beginning.{ChangeBegan};
ghost use Rattle.clone_parts.specs.KeptSteps.{Appended, Forked, LeavesSteps, LeavesMade, appends};

use journal_store::{Blank, Head, Journal, MakeFault, Why};
use mld_io::Banks;
use mld_ops::Entry;
use op_codec::{is_short_clock, is_short_entry, is_short_pairs};
use std::alloc::Global;

/// Appends entries in order, each in four calls of the device, to an open journal behind whose entries they may stand.
///
/// # Errors
///
/// `Device` where the device failed, and `NoMemory`. Each closes the journal, but `NoMemory` before the first call of the
/// device, which leaves it as it was.
pub fn append_entries<B: Banks>(journal: &mut Journal<B>, entries: &[Entry]) -> Result<(), Why>
    requires { MayAppendAll B.log journal.old entries.now }
    ensures kept { (kept : Kept) → KeptBy (B.log journal.old.banks) journal.old.closed kept
        → OnOk result (KeepsNow (with_entries entries.now kept) (B.log journal.new.banks)) }
    ensures moments { LeavesSteps B.log B.meter journal.old journal.new (appends entries.now) }
    ensures ok { OnOk result (JournalStaysOpen journal.old journal.new) }
    ensures err { IfErr result (LeavesRefused B.log B.meter false journal.old journal.new) }
    ensures told { StaysTold (B.log journal.old.banks) (B.log journal.new.banks) }
    ensures meter { Metered (append_calls * length entries.now) (B.meter journal.old.banks)
        (B.meter journal.new.banks)
        (IsOk result) (IsErrOf result Why.Device) }
{
    if !are_short(entries) {
        return Err(Why::NoMemory);
    }
    append_short(journal, false, entries)
}

/// Appends entries of short lists in order, where calls of the device were done before for the same change or weren't.
pub(crate) fn append_short<B: Banks>(
    journal: &mut Journal<B>,
    done: bool,
    entries: &[Entry],
) -> Result<(), Why>
    requires follow { MayAppendAll B.log journal.old entries.now }
    requires short { AllByRecursion IsShortEntry entries.now }
    ensures kept { (kept : Kept) → KeptBy (B.log journal.old.banks) journal.old.closed kept
        → OnOk result (KeepsNow (with_entries entries.now kept) (B.log journal.new.banks)) }
    ensures moments { LeavesSteps B.log B.meter journal.old journal.new (appends entries.now) }
    ensures ok { OnOk result (JournalStaysOpen journal.old journal.new) }
    ensures err { (first : JournalValue B) (swaps : Bool) → ChangeBegan B.log B.meter swaps done first journal.old
        → IfErr result (LeavesRefused B.log B.meter swaps first journal.new) }
    ensures told { StaysTold (B.log journal.old.banks) (B.log journal.new.banks) }
    ensures meter { Metered (append_calls * length entries.now) (B.meter journal.old.banks)
        (B.meter journal.new.banks)
        (IsOk result) (IsErrOf result Why.Device) }
{
    let mut begun = done;
    for entry in entries {
        append_one(journal, begun, entry)?;
        begun = true;
    }
    Ok(())
}

/// Appends an entry of short lists, where calls of the device were done before for the same change or weren't.
fn append_one<B: Banks>(journal: &mut Journal<B>, done: bool, entry: &Entry) -> Result<(), Why>
    requires follow { MayAppendAll B.log journal.old (entry.now ∷ []) }
    requires short { IsShortEntry entry.now }
    ensures kept { (kept : Kept) → KeptBy (B.log journal.old.banks) journal.old.closed kept
        → OnOk result (KeepsNow (with_entry entry.now kept) (B.log journal.new.banks)) }
    ensures moments { LeavesSteps B.log B.meter journal.old journal.new (Appended entry.now ∷ []) }
    ensures ok { OnOk result (IsAppended B.log B.meter journal.old journal.new) }
    ensures err { (first : JournalValue B) (swaps : Bool) → ChangeBegan B.log B.meter swaps done first journal.old
        → IfErr result (LeavesRefused B.log B.meter swaps first journal.new) }
    ensures told { StaysTold (B.log journal.old.banks) (B.log journal.new.banks) }
    ensures meter { Metered append_calls (B.meter journal.old.banks) (B.meter journal.new.banks)
        (IsOk result) (IsErrOf result Why.Device) }
{
    match journal.append_entry_open(entry) {
        Ok(()) => Ok(()),
        Err(why) => {
            close_begun(journal, done, why);
            Err(why)
        }
    }
}

/// Closes a journal that is open where calls of the device were done before for a change that is refused for this.
fn close_begun<B: Banks>(journal: &mut Journal<B>, done: bool, why: Why)
    ensures banks { journal.new.banks ≡ journal.old.banks }
    ensures fresh { done ≡ false → journal.new ≡ journal.old }
    ensures closed { (earlier : Why) → journal.old.closed ≡ Some earlier → journal.new ≡ journal.old }
    ensures shut { done ≡ true → journal.old.closed ≡ None
        → journal.new ≡ record journal.old { closed = Some why } }
{
    if !done {
        return;
    }
    if journal.is_closed().is_some() {
        return;
    }
    journal.close(why);
}

/// Whether the lists of each entry have counts of four bytes.
pub(crate) fn are_short(entries: &[Entry]) -> bool
    ensures { IsTrue result → AllByRecursion IsShortEntry entries.now }
{
    for entry in entries {
        if !is_short_entry(entry) {
            return false;
        }
    }
    true
}

/// Appends a fork, in four calls of the device, to an open journal whose path has room for it. It takes no memory.
///
/// # Errors
///
/// As those of `append_entries`.
pub fn append_fork<B: Banks>(journal: &mut Journal<B>) -> Result<(), Why>
    requires { MayForkNow B.log journal.old }
    ensures kept { (kept : Kept) → KeptBy (B.log journal.old.banks) journal.old.closed kept
        → OnOk result (KeepsNow (with_fork kept) (B.log journal.new.banks)) }
    ensures moments { LeavesSteps B.log B.meter journal.old journal.new (Forked ∷ []) }
    ensures ok { OnOk result (JournalStaysOpen journal.old journal.new) }
    ensures err { IfErr result (LeavesRefused B.log B.meter false journal.old journal.new) }
    ensures told { StaysTold (B.log journal.old.banks) (B.log journal.new.banks) }
    ensures meter { Metered append_calls (B.meter journal.old.banks) (B.meter journal.new.banks)
        (IsOk result) (IsErrOf result Why.Device) }
{
    journal.append_fork_open()
}

/// Makes the journal of a head that is in order, in six calls of the device.
///
/// # Errors
///
/// `Device` where the device failed, and `NoMemory`. The banks are given back.
pub fn create<B: Banks>(
    alloc: Global,
    blank: Blank<B>,
    head: &Head,
) -> Result<Journal<B>, (MakeFault, B)>
    requires { IsHeadInOrder (head_value head.now) }
    ensures ok { IfOk result (IsMade B.log (head_value head.now) blank) }
    ensures moments { LeavesMade B.log B.meter (head_value head.now) blank (made_banks result) }
    ensures err { IfErr result (LeavesUnmade B.log B.meter (head_value head.now) blank) }
    ensures told { StaysTold (B.log blank) (B.log (made_banks result)) }
    ensures meter { Metered create_calls (B.meter blank) (B.meter (made_banks result))
        (IsOk result) (FailsToMake result) }
{
    if !is_short_head(head) {
        return Err((MakeFault::NoMemory, blank.into_banks()));
    }
    Journal::create(alloc, blank, head)
}

/// Whether the lists of a head have fewer than 2^32 items, and its texts fewer than 2^32 bytes.
pub(crate) fn is_short_head(head: &Head) -> bool
    ensures { IsTrue result → AreShortParts (head_value head.now) }
{
    u32::try_from(head.props.len()).is_ok()
        && is_short_clock(&head.base)
        && is_short_pairs(&head.tagged)
}
