//! Journals, and banks that keep nothing.
use crate::faults::Why;
use mld_io::{Banks, CrashBanks, Leave, Side};
use std::alloc::Global;
use std::marker::Model;

/// Banks that keep nothing: neither of their first gates is open. Contracts see the banks.
#[derive(Drop)]
pub struct Blank<B: Banks> {
    pub(crate) banks: B,
}

impl<B: Banks> Model for Blank<B> {
    ghost use Rattle.journal_store.specs.Standing.{IsBlankLog};

    ghost Value = { B };

    ghost view = { λ b. b.banks };

    ghost invariant = { λ b. IsBlankLog (B.log b.banks) };
}

impl<B: Banks> Blank<B> {
    ghost use Rattle.std.specs.Prelude.{◌≡◌};
    ghost use Rattle.journal_store.specs.Standing.{IsBlankLog};

    /// Banks that keep nothing.
    pub(crate) fn new(banks: B) -> Blank<B>
        requires { IsBlankLog (B.log banks) }
        ensures { result ≡ banks }
    {
        Blank { banks }
    }

    /// The banks. It takes no memory.
    pub fn into_banks(self) -> B
        ensures banks { result ≡ self }
        ensures blank { IsBlankLog (B.log result) }
    {
        self.banks
    }
}

impl<B: CrashBanks> Blank<B> {
    ghost use Rattle.std.specs.Prelude.{◌≡◌};
    ghost use Rattle.mld_io.specs.Arm.{armed};

    /// Has so many calls of the banks that write or sync done, and catches the next one; the crash then leaves this much of
    /// the writes that aren't synced. It calls no device and takes no memory.
    pub fn arm(&mut self, calls: u32, leave: Leave)
        ensures log { B.log self.new ≡ B.log self.old }
        ensures meter { B.meter self.new ≡ armed calls leave (B.meter self.old) }
    {
        self.banks.arm(calls, leave);
    }
}

/// A journal on banks: what a clone keeps, to which entries and forks are appended.
#[derive(Drop)]
pub struct Journal<B: Banks> {
    pub(crate) banks: B,
    /// The side that counts.
    pub(crate) side: Side,
    pub(crate) generation: u64,
    /// The place of the closed gate behind the last record.
    pub(crate) stop: u64,
    /// Why an earlier call closed the journal, if one did.
    pub(crate) closed: Option<Why>,
    /// Where the record of an entry is made before it is written; its room is kept for the next one.
    pub(crate) body: Vec<u8>,
}

impl<B: Banks> Model for Journal<B> {
    ghost use Rattle.journal_store.specs.Standing.{JournalValue};

    ghost Value = { JournalValue B };

    ghost use Rattle.journal_store.specs.Standing.{IsJournal};

    ghost view = { λ j. record { banks = j.banks; side = j.side; generation = j.generation; closed = j.closed } };

    ghost invariant = { λ j. IsJournal (B.log j.banks) j.side j.generation j.stop j.closed };
}

impl<B: Banks> Journal<B> {
    ghost use Rattle.std.specs.Prelude.{◌≡◌, ◌↔◌, ◌-◌, ◌^◌, None, Some, IsTrue};
    ghost use Rattle.journal_store.specs.Standing.{IsJournal};

    /// An open journal on banks, whose records end at this place.
    pub(crate) fn new(alloc: Global, banks: B, side: Side, generation: u64, stop: u64) -> Journal<B>
        requires { IsJournal (B.log banks) side generation stop None }
        ensures { result ≡ record { banks = banks; side = side; generation = generation; closed = None } }
    {
        Journal {
            banks,
            side,
            generation,
            stop,
            closed: None,
            body: Vec::new(alloc),
        }
    }

    /// Why an earlier call closed the journal, if one did.
    pub fn is_closed(&self) -> Option<Why>
        ensures { result ≡ self.now.closed }
    {
        self.closed
    }

    /// Whether the generation is the last one, so that nothing can be swapped.
    pub fn is_last_generation(&self) -> bool
        ensures { IsTrue result ↔ (self.now.generation ≡ 2 ^ 64 - 1) }
    {
        self.generation == u64::MAX
    }

    /// Closes a journal that is open, as for a call that ended behind appends that were done. It calls no device and takes
    /// no memory.
    pub fn close(&mut self, why: Why)
        ensures { self.new ≡ record self.old { closed = Some why } }
    {
        self.closed = Some(why);
    }

    /// The banks. It takes no memory.
    pub fn into_banks(self) -> B
        ensures { result ≡ self.banks }
    {
        self.banks
    }
}

impl<B: CrashBanks> Journal<B> {
    ghost use Rattle.std.specs.Prelude.{◌≡◌};
    ghost use Rattle.mld_io.specs.Arm.{armed};

    /// Has so many calls of the banks that write or sync done, and catches the next one; the crash then leaves this much of
    /// the writes that aren't synced. It calls no device and takes no memory.
    pub fn arm(&mut self, calls: u32, leave: Leave)
        ensures log { B.log self.new.banks ≡ B.log self.old.banks }
        ensures meter { B.meter self.new.banks ≡ armed calls leave (B.meter self.old.banks) }
        ensures same { self.new ≡ record self.old { banks = self.new.banks } }
    {
        self.banks.arm(calls, leave);
    }
}
