//! Truncating a clone's journal, in memory and on its banks.
use crate::clones::MldClone;
use clone_parts::{KeepFault, drop_front, led_to, replace_base, swap_kept, tell_clock};
use mld_io::Banks;
use std::alloc::{AllocError, Global};

impl<B: Banks> MldClone<B> {
    ghost use Rattle.std.specs.Prelude.{◌≡◌, ◌<◌, ◌-◌, ◌↔◌, List, length, None, Some, IfOk, IfErr, IsOk, OnOk, IsErrOf};
    ghost use Rattle.clone_parts.specs.KeptSteps.{KeptStep};
    ghost use Rattle.journal_store.specs.declared.faults.Why.{Why};
    ghost use Rattle.mld_model.specs.Local.{LocallyTruncates};
    ghost use Rattle.clone_core.specs.CloneClosing.{LeavesClone, IsSwappedOpen, keep_stop};
    ghost use Rattle.clone_core.specs.DurableCalls.{Changes, KeepSteps};
    ghost use Rattle.clone_core.specs.Due.{IsDueSwap, IsSpent};
    ghost use Rattle.clone_core.specs.Keeping.{KeepsTruncated, StaysUnclosed};
    ghost use Rattle.clone_core.specs.CallParts.{StopsClone};

    /// Truncates the journal: its last `keep` entries stay, or all where it has fewer, and the clone's base is what the others led to. What
    /// the banks keep is swapped for that, by one swap. Texts that no pair has any more are let go. Where the journal has no more entries than that, nothing changes and no device is
    /// called. Gives the number of entries that the journal has then.
    ///
    /// # Errors
    ///
    /// In this order: `Closed` where an earlier call closed the clone; `GenerationsSpent` where the generation is 2^64 - 1; `Device` where
    /// the device failed, which closes the clone. `NoMemory` leaves it as it was, or closes it where a call of the device was done. After
    /// the others it is as it was.
    pub fn truncate(&mut self, alloc: Global, keep: u64) -> Result<u64, KeepFault>
        ensures ok { IfOk result (λ count.
            KeepsTruncated self.old keep self.new × (count ≡ length self.new.local.entries)) }
        ensures opened { OnOk result (StaysUnclosed self.old self.new) }
        ensures closed { (why : Why) → IsErrOf result (KeepFault.Closed why) ↔ (self.old.closed ≡ Some why) }
        ensures spent { IsErrOf result KeepFault.GenerationsSpent
            ↔ (IsSpent (keep < length self.old.local.entries) self.old × ¬ IsErrOf result KeepFault.NoMemory) }
        ensures left { IfErr result (λ fault.
            LeavesClone B.log B.meter (IsDueSwap (keep < length self.old.local.entries) self.old.generation) ⊥
            self.old self.new (keep_stop fault)) }
        ensures durable { (steps : List KeptStep)
            × KeepSteps (keep < length self.old.local.entries)
            (LocallyTruncates self.old.local keep) self.new.local result steps
            × Changes B.log B.meter steps self.old self.new.banks (IsOk result) (IsErrOf result KeepFault.Device) }
    {
        if let Some(why) = self.is_closed() {
            return Err(KeepFault::Closed { why });
        }
        let count = self.journal().len();
        if count as u64 <= keep {
            return Ok(count as u64);
        }
        if self.is_last_generation() {
            return Err(KeepFault::GenerationsSpent);
        }
        self.renew_and_swap(alloc, keep as usize)?;
        Ok(keep)
    }

    // The same as `swap_truncated`, and before it lets texts go that no pair has any more.
    fn renew_and_swap(&mut self, alloc: Global, keep: usize) -> Result<(), KeepFault>
        requires opened { self.old.closed ≡ None }
        requires due { IsDueSwap (keep < length self.old.local.entries) self.old.generation }
        ensures ok { OnOk result (LocallyTruncates self.old.local keep self.new.local) }
        ensures opened { OnOk result (IsSwappedOpen self.old self.new) }
        ensures left { IfErr result (λ fault.
            StopsClone B.log B.meter (IsDueSwap (keep < length self.old.local.entries) self.old.generation) ⊥
            self.old self.new (keep_stop fault)) }
        ensures durable { (steps : List KeptStep)
            × KeepSteps (keep < length self.old.local.entries)
            (LocallyTruncates self.old.local keep) self.new.local result steps
            × Changes B.log B.meter steps self.old self.new.banks (IsOk result) (IsErrOf result KeepFault.Device) }
    {
        self.renew_pairs(alloc)?;
        self.swap_truncated(alloc, keep)
    }

    // Makes the clone's graph anew, so that texts go whose pairs are gone. The clone is what it was.
    fn renew_pairs(&mut self, alloc: Global) -> Result<(), AllocError>
        ensures { self.new ≡ self.old }
    {
        self.pairs = self.pairs.renewed(alloc)?;
        Ok(())
    }

    // Swaps what the banks keep for a journal of the last entries, of which there are more, over what the others led to.
    fn swap_truncated(&mut self, alloc: Global, keep: usize) -> Result<(), KeepFault>
        requires opened { self.old.closed ≡ None }
        requires due { IsDueSwap (keep < length self.old.local.entries) self.old.generation }
        ensures ok { OnOk result (LocallyTruncates self.old.local keep self.new.local) }
        ensures opened { OnOk result (IsSwappedOpen self.old self.new) }
        ensures left { IfErr result (λ fault.
            StopsClone B.log B.meter (IsDueSwap (keep < length self.old.local.entries) self.old.generation) ⊥
            self.old self.new (keep_stop fault)) }
        ensures durable { (steps : List KeptStep)
            × KeepSteps (keep < length self.old.local.entries)
            (LocallyTruncates self.old.local keep) self.new.local result steps
            × Changes B.log B.meter steps self.old self.new.banks (IsOk result) (IsErrOf result KeepFault.Device) }
    {
        let cut = self.entries.len() - keep;
        let (base, pairs) = led_to(alloc, &self.base, &self.base_pairs, &self.entries[..cut])?;
        tell_clock(&self.clock);
        let head = self.head_over(alloc, base, pairs)?;
        swap_kept(alloc, &mut self.journal, &head, &self.entries[cut..])?;
        replace_base(&mut self.base, &mut self.base_pairs, head);
        drop_front(&mut self.entries, cut);
        Ok(())
    }
}
