//! Clones that run again: what banks keep is mounted.
ghost use Rattle.std.specs.Prelude.{◌≡◌, Some};
ghost use Rattle.mld_io.specs.Arm.{Metered};
ghost use Rattle.mld_io.specs.Disk.{Log, seen};
ghost use Rattle.journal_sides.specs.Pairs.{read_banks};
ghost use Rattle.journal_store.specs.Closing.{StaysTold};
ghost use Rattle.journal_store.specs.Crashes.{LeavesNothingNew};
ghost use Rattle.journal_store.specs.Mounting.{IsSynced};
ghost use Rattle.clone_core.specs.Opening.{mount_calls, TellsClone, OpensClone, banks_of_mounted, SyncsBoth, FailsToOpen};

use crate::clones::MldClone;
use clone_parts::replay;
use journal_store::{Blank, Journal, JournalMounted, MountFault};
use mld_io::Banks;
use std::alloc::{AllocError, Global};
use std::thread::Threads;
use tree_clock::Leaf;

/// What a mount of a clone's banks finds.
#[derive(Drop)]
pub enum Mounted<B: Banks> {
    /// The clone that the banks keep: it runs again, and holds nothing back.
    Live(MldClone<B>),
    /// Banks that keep nothing.
    Empty(Blank<B>),
    /// The banks were not mounted.
    Refused(MountFault, B),
}

impl<B: Banks> MldClone<B> {
    /// The clone that banks keep, which runs again. Both sides are synced, and nothing is written.
    ///
    /// # Errors
    ///
    /// `Damaged` where an open gate has something else behind it, with the place; `Device` where the device failed; `NoMemory`. The banks
    /// are given back.
    pub fn mount<R: Threads + Sync>(_rt: &R, alloc: Global, banks: B) -> Mounted<B>
        ensures tells { (l : Log) → B.log banks ≡ Some l → TellsClone result (read_banks (seen l)) }
        ensures opened { OpensClone result }
        ensures synced { (l : Log) → B.log banks ≡ Some l
            → IsSynced (SyncsBoth result) l (B.log (banks_of_mounted result)) }
        ensures moments { (l : Log) → B.log banks ≡ Some l → LeavesNothingNew l (B.log (banks_of_mounted result)) }
        ensures told { StaysTold (B.log banks) (B.log (banks_of_mounted result)) }
        ensures meter { Metered mount_calls (B.meter banks) (B.meter (banks_of_mounted result)) (SyncsBoth result)
            (FailsToOpen result) }
    {
        match Journal::mount(alloc, banks) {
            JournalMounted::Found(journal, head, entries) => {
                match replay(alloc, &head, entries) {
                    Ok(replayed) => {
                        let leaf = Leaf::at(head.path);
                        Mounted::Live(MldClone::found(alloc, head, leaf, replayed, journal))
                    }
                    Err(AllocError) => {
                        Mounted::Refused(MountFault::NoMemory, journal.into_banks())
                    }
                }
            }
            JournalMounted::Empty(blank) => Mounted::Empty(blank),
            JournalMounted::Refused(fault, banks) => Mounted::Refused(fault, banks),
        }
    }
}
