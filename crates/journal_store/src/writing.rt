//! The calls that write: a journal is made, appended to, and swapped for another.
ghost use Rattle.std.specs.Prelude.{◌≡◌, ◌≢◌, ◌↔◌, ◌-◌, ◌^◌, false, Some, None, IsOk, IfOk, IfErr, OnOk, IsErrOf};
ghost use Rattle.mld_io.specs.Arm.{Metered};
ghost use Rattle.mld_io.specs.Disk.{other_side};
ghost use Rattle.op_codec.specs.Stored.{IsShortEntry};
ghost use Rattle.journal_sides.specs.Heads.{head_value};
ghost use Rattle.journal_sides.specs.Pairs.{Kept, with_entry, with_fork};
ghost use Rattle.journal_sides.specs.StoredVolumes.{IsGoodHead, AreGoodEntries};
ghost use Rattle.journal_store.specs.Calls.{KeptBy, swapped, MayAppend, MayFork, made_banks, FailsToMake};
ghost use Rattle.journal_store.specs.Closing.{LeavesChange, LeavesMaking, StaysTold, IsAppended, IsSwapped, IsMade, LeavesRefused, LeavesAppend, LeavesSwap, LeavesUnmade};
ghost use Rattle.journal_store.specs.Crashes.{first_gate, gate_behind};
ghost use Rattle.journal_store.specs.Standing.{KeepsNow};
ghost use Rattle.journal_store.specs.declared.faults.Why.{Why};

use crate::appending::{append_at, swap_at, write_side};
use crate::faults::{AppendFault, MakeFault, SwapFault, Why};
use crate::journals::{Blank, Journal};
use journal_sides::{FORK_BODY, Head, fill_entry_body};
use mld_io::{Banks, Side};
use mld_ops::Entry;
use std::alloc::Global;

/// The other side.
fn other_side(side: Side) -> Side
    ensures { result ≡ other_side side }
{
    match side {
        Side::A => Side::B,
        Side::B => Side::A,
    }
}

impl<B: Banks> Journal<B> {
    /// Makes a journal of generation 1 on side A, with a head and no entries, in six calls of the device. The properties
    /// of the head and its pairs ascend, each pair has a dot of the base, and each list has fewer than 2^32 items.
    ///
    /// # Errors
    ///
    /// `Device` where the device failed, and `NoMemory`. The banks are given back.
    pub fn create(alloc: Global, blank: Blank<B>, head: &Head) -> Result<Journal<B>, (MakeFault, B)>
        requires { IsGoodHead (head_value head.now) }
        ensures ok { IfOk result (IsMade B.log (head_value head.now) blank) }
        ensures moments { LeavesMaking B.log B.meter (head_value head.now) blank (made_banks result) }
        ensures err { IfErr result (LeavesUnmade B.log B.meter (head_value head.now) blank) }
        ensures told { StaysTold (B.log blank) (B.log (made_banks result)) }
        ensures meter { Metered 6 (B.meter blank) (B.meter (made_banks result)) (IsOk result) (FailsToMake result) }
    {
        let mut banks = blank.into_banks();
        match write_side(alloc, &mut banks, Side::A, 1, head, &[]) {
            Ok(stop) => Ok(Journal::new(alloc, banks, Side::A, 1, stop)),
            Err(stopped) => Err((MakeFault::from(stopped), banks)),
        }
    }

    /// Appends an entry, in four calls of the device. The entry is ready and not known behind those that are kept, and
    /// each of its lists has fewer than 2^32 items.
    ///
    /// # Errors
    ///
    /// `Closed` where an earlier call on this journal answered `Device`, or `NoMemory` after a call of the device was
    /// done, or where `close` closed it; nothing changes then. The others as those of `append_entry_open`.
    pub fn append_entry(&mut self, entry: &Entry) -> Result<(), AppendFault>
        requires follows { (kept : Kept) → KeptBy (B.log self.old.banks) self.old.closed kept
            → MayAppend entry.now kept }
        requires short { IsShortEntry entry.now }
        ensures kept { (kept : Kept) → KeptBy (B.log self.old.banks) self.old.closed kept
            → OnOk result (KeepsNow (with_entry entry.now kept) (B.log self.new.banks)) }
        ensures moments { LeavesChange B.log B.meter self.old self.new
            (with_entry entry.now) (gate_behind self.old.side) }
        ensures closed { (why : Why) → IsErrOf result (AppendFault.Closed why) ↔ (self.old.closed ≡ Some why) }
        ensures ok { OnOk result (IsAppended B.log B.meter self.old self.new) }
        ensures err { IfErr result (LeavesAppend B.log B.meter self.old self.new) }
        ensures told { StaysTold (B.log self.old.banks) (B.log self.new.banks) }
        ensures meter { Metered 4 (B.meter self.old.banks) (B.meter self.new.banks)
            (IsOk result) (IsErrOf result AppendFault.Device) }
    {
        if let Some(why) = self.is_closed() {
            return Err(AppendFault::Closed { why });
        }
        self.append_entry_open(entry)?;
        Ok(())
    }

    /// Appends an entry to a journal that is open, as `append_entry` does.
    ///
    /// # Errors
    ///
    /// `Device` where the device failed, which closes the journal. `NoMemory` leaves it as it was where no call of the
    /// device was done, and closes it else.
    pub fn append_entry_open(&mut self, entry: &Entry) -> Result<(), Why>
        requires opened { self.old.closed ≡ None }
        requires follows { (kept : Kept) → KeptBy (B.log self.old.banks) self.old.closed kept
            → MayAppend entry.now kept }
        requires short { IsShortEntry entry.now }
        ensures kept { (kept : Kept) → KeptBy (B.log self.old.banks) self.old.closed kept
            → OnOk result (KeepsNow (with_entry entry.now kept) (B.log self.new.banks)) }
        ensures moments { LeavesChange B.log B.meter self.old self.new
            (with_entry entry.now) (gate_behind self.old.side) }
        ensures ok { OnOk result (IsAppended B.log B.meter self.old self.new) }
        ensures err { IfErr result (LeavesRefused B.log B.meter false self.old self.new) }
        ensures told { StaysTold (B.log self.old.banks) (B.log self.new.banks) }
        ensures meter { Metered 4 (B.meter self.old.banks) (B.meter self.new.banks)
            (IsOk result) (IsErrOf result Why.Device) }
    {
        fill_entry_body(&mut self.body, entry)?;
        append_at(
            &mut self.banks,
            self.side,
            &mut self.stop,
            &mut self.closed,
            &self.body,
        )?;
        Ok(())
    }

    /// Appends a fork of the clone's leaf, in four calls of the device: the clone keeps the half of the letter `0`. The
    /// path of the clone has fewer letters than a path may have. It takes no memory.
    ///
    /// # Errors
    ///
    /// As those of `append_entry`.
    pub fn append_fork(&mut self) -> Result<(), AppendFault>
        requires { (kept : Kept) → KeptBy (B.log self.old.banks) self.old.closed kept → MayFork kept }
        ensures kept { (kept : Kept) → KeptBy (B.log self.old.banks) self.old.closed kept
            → OnOk result (KeepsNow (with_fork kept) (B.log self.new.banks)) }
        ensures moments { LeavesChange B.log B.meter self.old self.new with_fork (gate_behind self.old.side) }
        ensures closed { (why : Why) → IsErrOf result (AppendFault.Closed why) ↔ (self.old.closed ≡ Some why) }
        ensures ok { OnOk result (IsAppended B.log B.meter self.old self.new) }
        ensures err { IfErr result (LeavesAppend B.log B.meter self.old self.new) }
        ensures told { StaysTold (B.log self.old.banks) (B.log self.new.banks) }
        ensures meter { Metered 4 (B.meter self.old.banks) (B.meter self.new.banks)
            (IsOk result) (IsErrOf result AppendFault.Device) }
    {
        if let Some(why) = self.is_closed() {
            return Err(AppendFault::Closed { why });
        }
        self.append_fork_open()?;
        Ok(())
    }

    /// Appends a fork to a journal that is open, as `append_fork` does.
    ///
    /// # Errors
    ///
    /// As those of `append_entry_open`.
    pub fn append_fork_open(&mut self) -> Result<(), Why>
        requires opened { self.old.closed ≡ None }
        requires room { (kept : Kept) → KeptBy (B.log self.old.banks) self.old.closed kept → MayFork kept }
        ensures kept { (kept : Kept) → KeptBy (B.log self.old.banks) self.old.closed kept
            → OnOk result (KeepsNow (with_fork kept) (B.log self.new.banks)) }
        ensures moments { LeavesChange B.log B.meter self.old self.new with_fork (gate_behind self.old.side) }
        ensures ok { OnOk result (IsAppended B.log B.meter self.old self.new) }
        ensures err { IfErr result (LeavesRefused B.log B.meter false self.old self.new) }
        ensures told { StaysTold (B.log self.old.banks) (B.log self.new.banks) }
        ensures meter { Metered 4 (B.meter self.old.banks) (B.meter self.new.banks)
            (IsOk result) (IsErrOf result Why.Device) }
    {
        append_at(
            &mut self.banks,
            self.side,
            &mut self.stop,
            &mut self.closed,
            &FORK_BODY,
        )?;
        Ok(())
    }

    /// Swaps what is kept for a head and entries, on the other side and of the next generation, in six calls of the
    /// device. The head is as that of `create`; each entry is ready and not known behind the head and the entries before
    /// it, and has lists of fewer than 2^32 items.
    ///
    /// # Errors
    ///
    /// `GenerationsSpent` where the generation is 2^64 - 1; the others as those of `append_entry`.
    pub fn swap(&mut self, alloc: Global, head: &Head, entries: &[Entry]) -> Result<(), SwapFault>
        requires head { IsGoodHead (head_value head.now) }
        requires entries { AreGoodEntries (head_value head.now).base.ticks entries.now }
        ensures kept { (kept : Kept) → KeptBy (B.log self.old.banks) self.old.closed kept
            → OnOk result (KeepsNow (swapped (head_value head.now) entries.now kept) (B.log self.new.banks)) }
        ensures moments { LeavesChange B.log B.meter self.old self.new (swapped (head_value head.now) entries.now)
            (λ l. first_gate (other_side self.old.side)) }
        ensures closed { (why : Why) → IsErrOf result (SwapFault.Closed why) ↔ (self.old.closed ≡ Some why) }
        ensures spent { IsErrOf result SwapFault.GenerationsSpent
            ↔ ((self.old.closed ≡ None) × (self.old.generation ≡ 2 ^ 64 - 1)) }
        ensures ok { OnOk result (IsSwapped B.log B.meter self.old self.new) }
        ensures err { IfErr result (LeavesSwap B.log B.meter false self.old self.new) }
        ensures told { StaysTold (B.log self.old.banks) (B.log self.new.banks) }
        ensures meter { Metered 6 (B.meter self.old.banks) (B.meter self.new.banks)
            (IsOk result) (IsErrOf result SwapFault.Device) }
    {
        if let Some(why) = self.is_closed() {
            return Err(SwapFault::Closed { why });
        }
        if self.is_last_generation() {
            return Err(SwapFault::GenerationsSpent);
        }
        self.swap_open(alloc, head, entries)?;
        Ok(())
    }

    /// Swaps what a journal keeps that is open and has a generation left, as `swap` does.
    ///
    /// # Errors
    ///
    /// As those of `append_entry_open`.
    pub fn swap_open(&mut self, alloc: Global, head: &Head, entries: &[Entry]) -> Result<(), Why>
        requires opened { self.old.closed ≡ None }
        requires left { self.old.generation ≢ 2 ^ 64 - 1 }
        requires head { IsGoodHead (head_value head.now) }
        requires entries { AreGoodEntries (head_value head.now).base.ticks entries.now }
        ensures kept { (kept : Kept) → KeptBy (B.log self.old.banks) self.old.closed kept
            → OnOk result (KeepsNow (swapped (head_value head.now) entries.now kept) (B.log self.new.banks)) }
        ensures moments { LeavesChange B.log B.meter self.old self.new (swapped (head_value head.now) entries.now)
            (λ l. first_gate (other_side self.old.side)) }
        ensures ok { OnOk result (IsSwapped B.log B.meter self.old self.new) }
        ensures err { IfErr result (LeavesRefused B.log B.meter false self.old self.new) }
        ensures told { StaysTold (B.log self.old.banks) (B.log self.new.banks) }
        ensures meter { Metered 6 (B.meter self.old.banks) (B.meter self.new.banks)
            (IsOk result) (IsErrOf result Why.Device) }
    {
        let side = other_side(self.side);
        let generation = self.generation + 1;
        swap_at(
            alloc,
            &mut self.banks,
            side,
            &mut self.stop,
            &mut self.closed,
            generation,
            head,
            entries,
        )?;
        self.side = side;
        self.generation = generation;
        Ok(())
    }
}
