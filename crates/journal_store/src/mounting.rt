//! The mounting of banks: what is kept on them is read.
ghost use Rattle.std.specs.Prelude.{◌≡◌, Some};
ghost use Rattle.mld_io.specs.Arm.{Metered};
ghost use Rattle.mld_io.specs.Disk.{Log, seen};
ghost use Rattle.journal_sides.specs.Pairs.{read_banks};
ghost use Rattle.journal_store.specs.Closing.{StaysTold};
ghost use Rattle.journal_store.specs.Crashes.{LeavesNothingNew};
ghost use Rattle.journal_store.specs.Mounting.{mounted_banks, TellsPair, IsOpened, FindsGood, BothSynced, FailsToMount, IsSynced};

use crate::bank_reading::find;
use crate::faults::MountFault;
use crate::journals::{Blank, Journal};
use journal_sides::Head;
use mld_io::Banks;
use mld_ops::Entry;
use std::alloc::Global;

/// What a mount finds.
#[derive(Drop)]
pub enum JournalMounted<B: Banks> {
    /// A journal, its head, whose path is that of the clone, and its entries, the oldest first.
    Found(Journal<B>, Head, Vec<Entry>),
    /// Banks that keep nothing.
    Empty(Blank<B>),
    /// The banks were not mounted.
    Refused(MountFault, B),
}

impl<B: Banks> Journal<B> {
    /// Reads what is kept on banks, once both sides are synced. Nothing is written.
    pub fn mount(alloc: Global, banks: B) -> JournalMounted<B>
        ensures tells { (l : Log) → B.log banks ≡ Some l → TellsPair result (read_banks (seen l)) }
        ensures opened { IsOpened result }
        ensures good { FindsGood result }
        ensures synced { (l : Log) → B.log banks ≡ Some l
            → IsSynced (BothSynced result) l (B.log (mounted_banks result)) }
        ensures moments { (l : Log) → B.log banks ≡ Some l → LeavesNothingNew l (B.log (mounted_banks result)) }
        ensures told { StaysTold (B.log banks) (B.log (mounted_banks result)) }
        ensures meter { Metered 2 (B.meter banks) (B.meter (mounted_banks result))
            (BothSynced result) (FailsToMount result) }
    {
        let mut banks = banks;
        match find(alloc, &mut banks) {
            Ok(Some(found)) => {
                let journal = Journal::new(alloc, banks, found.side, found.generation, found.stop);
                JournalMounted::Found(journal, found.head, found.entries)
            }
            Ok(None) => JournalMounted::Empty(Blank::new(banks)),
            Err(fault) => JournalMounted::Refused(fault, banks),
        }
    }
}
