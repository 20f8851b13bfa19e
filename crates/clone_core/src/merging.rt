//! Merging a snapshot into a clone, in memory and on its banks.
use crate::clones::{MldClone, replace_held};
use clone_parts::{Got, Merge, ReceiveFault, prepare_merge, replace_base, swap_and_append};
use mld_io::Banks;
use mld_ops::Snapshot;
use std::alloc::Global;

impl<B: Banks> MldClone<B> {
    ghost use Rattle.std.specs.Prelude.{◌≡◌, ◌↔◌, List, None, IfOk, IfErr, IsOk, IsErrOf};
    ghost use Rattle.clone_parts.specs.KeptSteps.{KeptStep};
    ghost use Rattle.mld_ops.specs.Messages.{snapshot_value, IsGoodSnapshot};
    ghost use Rattle.mld_ops.specs.declared.messages.Message.TheVariants as kinds;
    ghost use Rattle.mld_model.specs.Local.{IsForeignSnapshot};
    ghost use Rattle.clone_core.specs.DurableCalls.{Changes, MessageSteps};
    ghost use Rattle.clone_core.specs.Due.{IsDueSnapshot, IsDueSwap, IsSpent};
    ghost use Rattle.clone_core.specs.CloneClosing.{receive_stop};
    ghost use Rattle.clone_core.specs.Joining.{AnswersGood};
    ghost use Rattle.clone_core.specs.Merging.{ReceivesSnapshot, RefusesSnapshot, StaysOpenBy};
    ghost use Rattle.clone_core.specs.CallParts.{StopsReceiving, StopsClone};

    /// Merges a snapshot that has dots which the clone lacks.
    pub(crate) fn receive_snapshot(
        &mut self,
        alloc: Global,
        snapshot: &Snapshot,
    ) -> Result<Got, ReceiveFault>
        requires opened { self.old.closed ≡ None }
        requires good { IsGoodSnapshot (snapshot_value snapshot.now) }
        ensures ok { IfOk result (λ got. ¬ IsForeignSnapshot self.old.local (snapshot_value snapshot.now)
            × ReceivesSnapshot self.old.local (snapshot_value snapshot.now) got self.new.local) }
        ensures good { IfOk result AnswersGood }
        ensures opened { IfOk result (StaysOpenBy self.old self.new) }
        ensures err { IfErr result (RefusesSnapshot self.old.local (snapshot_value snapshot.now)) }
        ensures spent { IsErrOf result ReceiveFault.GenerationsSpent
            ↔ (IsSpent (IsDueSnapshot self.old.local (snapshot_value snapshot.now)) self.old
            × ¬ IsErrOf result ReceiveFault.NoMemory) }
        ensures left { IfErr result
            (StopsReceiving B.log B.meter
            (IsDueSwap (IsDueSnapshot self.old.local (snapshot_value snapshot.now)) self.old.generation)
            (Unit {0}) self.old self.new) }
        ensures durable { (steps : List KeptStep)
            × MessageSteps self.old.local (kinds.Snapshot snapshot.now) self.new.local result steps
            × Changes B.log B.meter steps self.old self.new.banks (IsOk result) (IsErrOf result ReceiveFault.Device) }
    {
        let path = self.path();
        let own = self.known().ticks(&path);
        let said = snapshot.clock.ticks(&path);
        if own < said {
            return Err(ReceiveFault::ForeignTick { said, own });
        }
        if snapshot.clock.leq(self.known()) {
            return Ok(Got::Known);
        }
        if self.is_last_generation() {
            return Err(ReceiveFault::GenerationsSpent);
        }
        self.merge(alloc, snapshot)
    }

    // Merges a snapshot that isn't foreign and has dots which the clone lacks. All is made in memory first; then the banks' journal is
    // swapped for an empty one over the new base, and the entries that this releases are appended.
    fn merge(&mut self, alloc: Global, snapshot: &Snapshot) -> Result<Got, ReceiveFault>
        requires opened { self.old.closed ≡ None }
        requires good { IsGoodSnapshot (snapshot_value snapshot.now) }
        requires due { IsDueSwap (IsDueSnapshot self.old.local (snapshot_value snapshot.now)) self.old.generation }
        ensures ok { IfOk result (λ got.
            ReceivesSnapshot self.old.local (snapshot_value snapshot.now) got self.new.local) }
        ensures good { IfOk result AnswersGood }
        ensures opened { IfOk result (StaysOpenBy self.old self.new) }
        ensures unspent { ¬ IsErrOf result ReceiveFault.GenerationsSpent }
        ensures left { IfErr result (λ fault.
            StopsClone B.log B.meter
            (IsDueSwap (IsDueSnapshot self.old.local (snapshot_value snapshot.now)) self.old.generation)
            (Unit {0}) self.old self.new (receive_stop fault)) }
        ensures durable { (steps : List KeptStep)
            × MessageSteps self.old.local (kinds.Snapshot snapshot.now) self.new.local result steps
            × Changes B.log B.meter steps self.old self.new.banks (IsOk result) (IsErrOf result ReceiveFault.Device) }
    {
        let Merge {
            base,
            base_pairs,
            after,
        } = prepare_merge(alloc, &self.clock, &self.pairs, &self.held, snapshot)?;
        let head = self.head_over(alloc, base, base_pairs)?;
        swap_and_append(alloc, &mut self.journal, &head, &after.entries)?;
        replace_base(&mut self.base, &mut self.base_pairs, head);
        self.clock = after.clock;
        self.pairs = after.pairs;
        self.entries = after.entries;
        replace_held(&mut self.held, after.left);
        Ok(Got::Merged(after.ranges))
    }
}
