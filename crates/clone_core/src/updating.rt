//! Updates: what a clone makes of a plan.
use crate::clones::MldClone;
use clone_parts::{Done, UpdateFault, append_entries, entry_of_effect, prepare_own};
use jrql_ast::UpdatePlan;
use jrql_eval::effect;
use mld_io::Banks;
use mld_ops::{Effect, Entry};
use single_value::breaks;
use std::alloc::Global;
use std::slice;
use tree_clock::{Dot, TICK_LIMIT};

impl<B: Banks> MldClone<B> {
    ghost use Rattle.std.specs.Prelude.{◌≡◌, ◌↔◌, List, None, Some, IfOk, IfErr, IsOk, OnOk, IsErrOf};
    ghost use Rattle.journal_store.specs.declared.faults.Why.{Why};
    ghost use Rattle.jrql_ast.specs.InForm.{IsPlanInForm};
    ghost use Rattle.mld_model.specs.Local.{next_dot};
    ghost use Rattle.clone_parts.specs.KeptSteps.{KeptStep};
    ghost use Rattle.clone_parts.specs.Making.{IsNextEntry};
    ghost use Rattle.clone_core.specs.CallParts.{StopsClone, MakeSteps, MakesDone};
    ghost use Rattle.clone_core.specs.CloneClosing.{StaysOpen, LeavesClone, update_stop};
    ghost use Rattle.clone_core.specs.DurableCalls.{Changes, EffectSteps, UpdateSteps};
    ghost use Rattle.clone_core.specs.CloneUpdates.{IsMakeable, LocallyUpdates, LocallyUpdatesBy, RefusesUpdate, IsDueUpdate};
    ghost use Rattle.tree_clock.specs.Clock.{ticks_of};
    ghost use Rattle.tree_clock.specs.Limits.{tick_limit};

    /// Makes the operation of an update, by the effect of its plan on the triples that are present, unless this changes nothing (SPARQL 1.1
    /// Update, section 3.1.3). Its entry is appended to the journal on the banks before it is handed out.
    ///
    /// # Errors
    ///
    /// In this order: `Closed` where an earlier call closed the clone; `TicksSpent` where its path has no tick left; `TooMany` where the plan
    /// has more than 1,048,576 solutions; `Single` where a subject would get a second value of a single-valued property, the first such pair;
    /// `Device` where the device failed, which closes the clone. `NoMemory` leaves it as it was, or closes it where a call of the device was
    /// done. After the others it is as it was.
    pub fn update(&mut self, alloc: Global, plan: &UpdatePlan) -> Result<Done, UpdateFault>
        requires { IsPlanInForm plan.now }
        ensures ok { IfOk result (λ done. LocallyUpdatesBy self.old.local plan.now done self.new.local) }
        ensures opened { OnOk result (StaysOpen self.old self.new) }
        ensures closed { (why : Why) → IsErrOf result (UpdateFault.Closed why) ↔ (self.old.closed ≡ Some why) }
        ensures spent { IsErrOf result UpdateFault.TicksSpent
            ↔ ((self.old.closed ≡ None) × (ticks_of self.old.local.ticks self.old.local.path ≡ tick_limit)) }
        ensures refused { IfErr result (RefusesUpdate self.old.local plan.now) }
        ensures left { IfErr result (λ fault.
            LeavesClone B.log B.meter (IsDueUpdate self.old.local plan.now) ⊥ self.old self.new (update_stop fault)) }
        ensures durable { (steps : List KeptStep) × UpdateSteps self.old.local plan.now result steps
            × Changes B.log B.meter steps self.old self.new.banks (IsOk result) (IsErrOf result UpdateFault.Device) }
    {
        if let Some(why) = self.is_closed() {
            return Err(UpdateFault::Closed { why });
        }
        let path = self.path();
        let tick = self.known().ticks(&path);
        if tick == TICK_LIMIT {
            return Err(UpdateFault::TicksSpent);
        }
        let dot = Dot {
            path,
            tick: tick + 1,
        };
        let effect = effect(alloc, self.pairs(), plan, self.domain(), &dot)?;
        if effect.is_empty() {
            return Ok(Done::Nothing);
        }
        if let Some((s, p)) = breaks(alloc, self.pairs(), &effect, self.properties())? {
            return Err(UpdateFault::Single { s, p });
        }
        self.make_by(alloc, &dot, &effect)
    }

    // Makes the operation of an effect, which may be made, at the next dot.
    fn make_by(&mut self, alloc: Global, dot: &Dot, effect: &Effect) -> Result<Done, UpdateFault>
        requires opened { self.old.closed ≡ None }
        requires dot { dot.now ≡ next_dot self.old.local }
        requires may { IsMakeable self.old.local effect.now }
        ensures ok { IfOk result (λ done. LocallyUpdates self.old.local effect.now done self.new.local) }
        ensures opened { OnOk result (StaysOpen self.old self.new) }
        ensures err { IfErr result (λ fault.
            StopsClone B.log B.meter (IsMakeable self.old.local effect.now) ⊥ self.old self.new (update_stop fault)) }
        ensures durable { (steps : List KeptStep) × EffectSteps self.old.local effect.now result steps
            × Changes B.log B.meter steps self.old self.new.banks (IsOk result) (IsErrOf result UpdateFault.Device) }
    {
        let entry = entry_of_effect(alloc, self.known(), dot, effect)?;
        self.make(alloc, dot, entry)
    }

    // Takes the entry of an operation of the clone's own, once all room is made and the entry is appended, and hands out a copy.
    fn make(&mut self, alloc: Global, dot: &Dot, entry: Entry) -> Result<Done, UpdateFault>
        requires opened { self.old.closed ≡ None }
        requires dot { dot.now ≡ next_dot self.old.local }
        requires next { IsNextEntry self.old.local.ticks dot.now entry }
        ensures ok { IfOk result (MakesDone self.old.local entry self.new.local) }
        ensures opened { OnOk result (StaysOpen self.old self.new) }
        ensures err { IfErr result (λ fault.
            StopsClone B.log B.meter (Unit {0}) ⊥ self.old self.new (update_stop fault)) }
        ensures durable { (steps : List KeptStep) × MakeSteps entry result steps
            × Changes B.log B.meter steps self.old self.new.banks (IsOk result) (IsErrOf result UpdateFault.Device) }
    {
        let made = entry.copy_in(alloc)?;
        let cut = prepare_own(
            alloc,
            &mut self.clock,
            &mut self.entries,
            &mut self.pairs,
            &entry,
        )?;
        append_entries(&mut self.journal, slice::from_ref(&entry))?;
        self.clock.raise(dot);
        self.pairs.apply(cut);
        self.entries.push_reserved(entry);
        Ok(Done::Made(made))
    }
}
