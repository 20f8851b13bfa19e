//! Compacting a clone's journal, in memory and on its banks.
use crate::clones::MldClone;
use clone_parts::{KeepFault, swap_kept};
use journal_store::Head;
use mld_io::Banks;
use mld_ops::{PairList, copy_properties};
use op_fusion::{compact_entries, has_neighbours};
use std::alloc::{AllocError, Global};
use tree_clock::Clock;

impl<B: Banks> MldClone<B> {
    ghost use Rattle.std.specs.Prelude.{◌≡◌, ◌↔◌, List, length, None, Some, IfOk, IfErr, IsOk, OnOk, IsErrOf};
    ghost use Rattle.clone_parts.specs.KeptSteps.{KeptStep};
    ghost use Rattle.journal_sides.specs.Heads.{head_value};
    ghost use Rattle.journal_store.specs.declared.faults.Why.{Why};
    ghost use Rattle.clone_core.specs.Banked.{head_over};
    ghost use Rattle.op_fusion.specs.Compacting.{HasNeighbours};
    ghost use Rattle.mld_model.specs.Local.{LocallyCompacts};
    ghost use Rattle.clone_core.specs.CloneClosing.{LeavesClone, IsSwappedOpen, keep_stop};
    ghost use Rattle.clone_core.specs.DurableCalls.{Changes, KeepSteps};
    ghost use Rattle.clone_core.specs.Due.{IsDueSwap, IsSpent};
    ghost use Rattle.clone_core.specs.Keeping.{KeepsCompacted, StaysUnclosed};
    ghost use Rattle.clone_core.specs.CallParts.{StopsClone};

    /// Compacts the journal: the entries of each run of neighbouring ranges are fused into one, and what the banks keep is swapped for
    /// that, by one swap. Where no two neighbours stand side by side, nothing changes and no device is called. Gives the number of
    /// entries that the journal has then.
    ///
    /// # Errors
    ///
    /// In this order: `Closed` where an earlier call closed the clone; `GenerationsSpent` where the generation is 2^64 - 1; `Device` where
    /// the device failed, which closes the clone. `NoMemory` leaves it as it was, or closes it where a call of the device was done. After
    /// the others it is as it was.
    pub fn compact(&mut self, alloc: Global) -> Result<u64, KeepFault>
        ensures ok { IfOk result (λ count.
            KeepsCompacted self.old self.new × (count ≡ length self.new.local.entries)) }
        ensures opened { OnOk result (StaysUnclosed self.old self.new) }
        ensures closed { (why : Why) → IsErrOf result (KeepFault.Closed why) ↔ (self.old.closed ≡ Some why) }
        ensures spent { IsErrOf result KeepFault.GenerationsSpent
            ↔ (IsSpent (HasNeighbours self.old.local.entries) self.old × ¬ IsErrOf result KeepFault.NoMemory) }
        ensures left { IfErr result (λ fault.
            LeavesClone B.log B.meter (IsDueSwap (HasNeighbours self.old.local.entries) self.old.generation) ⊥
            self.old self.new (keep_stop fault)) }
        ensures durable { (steps : List KeptStep)
            × KeepSteps (HasNeighbours self.old.local.entries)
            (LocallyCompacts self.old.local) self.new.local result steps
            × Changes B.log B.meter steps self.old self.new.banks (IsOk result) (IsErrOf result KeepFault.Device) }
    {
        if let Some(why) = self.is_closed() {
            return Err(KeepFault::Closed { why });
        }
        if !has_neighbours(self.journal()) {
            return Ok(self.journal().len() as u64);
        }
        if self.is_last_generation() {
            return Err(KeepFault::GenerationsSpent);
        }
        self.swap_compacted(alloc)?;
        Ok(self.journal().len() as u64)
    }

    // Swaps what the banks keep for the compacted journal, and then the entries.
    fn swap_compacted(&mut self, alloc: Global) -> Result<(), KeepFault>
        requires opened { self.old.closed ≡ None }
        requires due { IsDueSwap (HasNeighbours self.old.local.entries) self.old.generation }
        ensures ok { OnOk result (LocallyCompacts self.old.local self.new.local) }
        ensures opened { OnOk result (IsSwappedOpen self.old self.new) }
        ensures left { IfErr result (λ fault.
            StopsClone B.log B.meter (IsDueSwap (HasNeighbours self.old.local.entries) self.old.generation) ⊥
            self.old self.new (keep_stop fault)) }
        ensures durable { (steps : List KeptStep)
            × KeepSteps (HasNeighbours self.old.local.entries)
            (LocallyCompacts self.old.local) self.new.local result steps
            × Changes B.log B.meter steps self.old self.new.banks (IsOk result) (IsErrOf result KeepFault.Device) }
    {
        let entries = compact_entries(alloc, &self.entries)?;
        let base = self.base.copy_in(alloc)?;
        let pairs = self.base_pairs.copy_in(alloc)?;
        let head = self.head_over(alloc, base, pairs)?;
        swap_kept(alloc, &mut self.journal, &head, &entries)?;
        self.entries = entries;
        Ok(())
    }

    // What the banks have in front of the clone's entries, over a base with this clock and these pairs.
    pub(crate) fn head_over(
        &self,
        alloc: Global,
        base: Clock,
        pairs: PairList,
    ) -> Result<Head, AllocError>
        ensures { IfOk result (λ head. head_value head ≡ head_over self.now.local base.ticks pairs) }
    {
        Ok(Head {
            id: self.id,
            domain: self.domain.share()?,
            props: copy_properties(alloc, &self.properties)?,
            path: self.leaf.path(),
            base,
            tagged: pairs,
        })
    }
}
