//! Founding: the first clone is made at the root, and each other one asks it for a leaf, gets one, and lives at it.
ghost use Rattle.std.specs.Prelude.{◌≡◌, ◌+◌, ◌<◌, ◌≤◌, [], None, insert, map, slice_set, vec_len, vec_capacity, IfOk, IfErr, OnOk};
ghost use Rattle.mld_ops.specs.Messages.{GiveValue};
ghost use Rattle.mld_model.specs.World.{clone_count};
ghost use Rattle.mld_model.specs.declared.CloneState.TheVariants as kinds;
ghost use Rattle.clone_core.specs.CloneClosing.{StaysOpen};
ghost use Rattle.clone_core.specs.Joining.{LocallyGives, AreGood};
ghost use Rattle.net_world.specs.Founding.{IsKeptSetup, GivesLeaf, AreFounded, AreFoundedTo, IsAbsentAt, IsMadeFirst, MayGive, LivesAtLeaf, JoinsBy, HasGiver, JoinsFirst, HasFaultsBy, StayFrom};
ghost use Rattle.net_world.specs.SettledWorlds.{AreBlank};
ghost use Rattle.world_commands.specs.WorldEnds.{KeepAll};
ghost use Rattle.net_world.specs.FoundingLeft.{LeavesKept, StopsFoundingBy, StopsGiving, StopsTaking};
ghost use Rattle.world_commands.specs.WorldBanks.{BankedState, banks_of_state, MeterGoesOn, MetersGoOn, HadNoFaults, RefusesFounding};
ghost use Rattle.schedule_text.specs.ReadLines.{setup_of};
ghost use Rattle.world_commands.specs.States.{HasState};
ghost use Rattle.world_commands.specs.OneCall.{HasFaultsAt};

use crate::settling::ask_first;
use clone_core::journal_store::{Blank, MakeFault};
use clone_core::{Adopted, Asker, Got, MldClone, ReceiveFault};
use mld_io::{Banks, CrashBanks};
use mld_model::CloneState;
use mld_ops::Messages;
use schedule_text::Setup;
use std::alloc::{AllocError, Global};
use std::thread::Threads;
use world_commands::stopping::stop_all;
use world_commands::{
    RunningClone, WorldFault, copy_named, id_of, made_fault, new_asker, put_state, take_state,
};

/// The clones of the founded world, absent ones with them, each on banks of its own. Where the device of a clone fails, all banks are
/// given back, in order; where memory runs out, none are.
pub fn found_clones<R: Threads + Sync, B: CrashBanks>(
    rt: &R,
    alloc: Global,
    setup: &Setup,
    blanks: Vec<Blank<B>>,
) -> Result<Vec<RunningClone<B>>, (WorldFault, Vec<B>)>
    requires setup { IsKeptSetup (setup_of setup.now) }
    requires count { vec_len blanks ≡ clone_count }
    ensures ok { IfOk result (λ clones. AreFounded (setup_of setup.now) clones.items) }
    ensures meters { IfOk result (λ clones. MetersGoOn B.meter blanks.items (map banks_of_state clones.items)) }
    ensures quiet { IfOk result (λ clones. HadNoFaults B.meter blanks.items (map banks_of_state clones.items)) }
    ensures err { IfErr result (λ refused. RefusesFounding B.meter blanks.items refused.0 refused.1.items) }
    ensures kept { AreBlank B.log blanks.items → IfOk result (λ clones. KeepAll B.log clones.items) }
    ensures left { IfErr result (λ refused. LeavesKept B.log (setup_of setup.now) refused.0 refused.1.items) }
{
    let Ok((mut clones, mut back)) = absent_clones(alloc, blanks) else {
        return Err((WorldFault::NoMemory, Vec::new(alloc)));
    };
    match found_each(rt, alloc, setup, &mut clones) {
        Ok(()) => {
            ask_first(clones.as_slice(), setup.clones);
            Ok(clones)
        }
        Err(WorldFault::NoMemory) => Err((WorldFault::NoMemory, Vec::new(alloc))),
        Err(WorldFault::Device { clone }) => {
            stop_all(clones, &mut back);
            Err((WorldFault::Device { clone }, back))
        }
    }
}

/// Absent clones on these banks, and room for the banks, should they be given back.
fn absent_clones<B: CrashBanks>(
    alloc: Global,
    blanks: Vec<Blank<B>>,
) -> Result<(Vec<RunningClone<B>>, Vec<B>), AllocError>
    ensures clones { IfOk result (λ made. made.0.items ≡ map (λ banks. kinds.Absent banks) blanks.items) }
    ensures back { IfOk result (λ made. made.1.items ≡ []) }
    ensures room { IfOk result (λ made. vec_len blanks ≤ vec_capacity made.1) }
{
    let back = Vec::with_capacity(alloc, blanks.len())?;
    let mut clones = Vec::with_capacity(alloc, blanks.len())?;
    for blank in blanks {
        clones.push_reserved(CloneState::Absent(blank));
    }
    Ok((clones, back))
}

/// Founds as many of the absent clones as the setup says, one after another.
fn found_each<R: Threads + Sync, B: CrashBanks>(
    rt: &R,
    alloc: Global,
    setup: &Setup,
    clones: &mut Vec<RunningClone<B>>,
) -> Result<(), WorldFault>
    requires setup { IsKeptSetup (setup_of setup.now) }
    requires absent { AreFoundedTo (setup_of setup.now) 0 clones.old.items }
    ensures ok { OnOk result (AreFoundedTo (setup_of setup.now) setup.now.clones clones.new.items) }
    ensures rest { OnOk result (StayFrom setup.now.clones clones.old.items clones.new.items) }
    ensures meters { MetersGoOn B.meter (map banks_of_state clones.old.items) (map banks_of_state clones.new.items) }
    ensures faults { HasFaultsBy B.meter
        (map banks_of_state clones.old.items) (map banks_of_state clones.new.items) result }
    ensures left { IfErr result (StopsFoundingBy B.log (setup_of setup.now) clones.new.items) }
{
    found_first(alloc, setup, clones)?;
    for number in 1..setup.clones {
        found_other(rt, alloc, setup, clones, number)?;
    }
    Ok(())
}

/// The first clone has the whole leaf.
fn found_first<B: CrashBanks>(
    alloc: Global,
    setup: &Setup,
    clones: &mut Vec<RunningClone<B>>,
) -> Result<(), WorldFault>
    requires setup { IsKeptSetup (setup_of setup.now) }
    requires absent { AreFoundedTo (setup_of setup.now) 0 clones.old.items }
    ensures ok { OnOk result (AreFoundedTo (setup_of setup.now) 1 clones.new.items) }
    ensures rest { OnOk result (StayFrom 1 clones.old.items clones.new.items) }
    ensures meters { MetersGoOn B.meter (map banks_of_state clones.old.items) (map banks_of_state clones.new.items) }
    ensures faults { HasFaultsBy B.meter
        (map banks_of_state clones.old.items) (map banks_of_state clones.new.items) result }
    ensures left { IfErr result (StopsFoundingBy B.log (setup_of setup.now) clones.new.items) }
{
    let named = copy_named(alloc, &setup.domain, setup.props.as_slice())?;
    let blank = take_blank(clones, 0);
    let genesis = MldClone::genesis(alloc, blank, id_of(0), named.domain, named.properties);
    let (state, done) = first_of(genesis);
    put_state(clones, 0, state);
    done
}

/// Takes the banks of clone `number` out, which is absent: a state has to come back (`put_state`).
fn take_blank<B: CrashBanks>(clones: &mut Vec<RunningClone<B>>, number: u8) -> Blank<B>
    requires { IsAbsentAt clones.old.items number }
    ensures was { HasState clones.old.items number (kinds.Absent result) }
    ensures back { (state : BankedState B) → insert clones.new.items number state
        ≡ slice_set clones.old.items number state }
    ensures len { vec_len clones.new + 1 ≡ vec_len clones.old }
    ensures room { vec_len clones.new < vec_capacity clones.new }
{
    let CloneState::Absent(blank) = take_state(clones, number) else {
        unreachable!()
    };
    blank
}

/// What is in the place of the first clone once that was made, or was not.
fn first_of<B: CrashBanks>(
    made: Result<MldClone<B>, (MakeFault, B)>,
) -> (RunningClone<B>, Result<(), WorldFault>)
    ensures { IsMadeFirst made result }
{
    match made {
        Ok(clone) => (CloneState::Live(clone), Ok(())),
        Err((fault, banks)) => (CloneState::Down(banks), Err(made_fault(0, fault))),
    }
}

/// A clone that isn't the first asks the first one for a leaf, and takes what that gives.
fn found_other<R: Threads + Sync, B: CrashBanks>(
    rt: &R,
    alloc: Global,
    setup: &Setup,
    clones: &mut Vec<RunningClone<B>>,
    number: u8,
) -> Result<(), WorldFault>
    requires setup { IsKeptSetup (setup_of setup.now) }
    requires some { 1 ≤ number }
    requires below { number < setup.now.clones }
    requires founded { AreFoundedTo (setup_of setup.now) number clones.old.items }
    ensures ok { OnOk result (AreFoundedTo (setup_of setup.now) (number + 1) clones.new.items) }
    ensures rest { OnOk result (StayFrom (number + 1) clones.old.items clones.new.items) }
    ensures meters { MetersGoOn B.meter (map banks_of_state clones.old.items) (map banks_of_state clones.new.items) }
    ensures faults { HasFaultsBy B.meter
        (map banks_of_state clones.old.items) (map banks_of_state clones.new.items) result }
    ensures left { IfErr result (StopsFoundingBy B.log (setup_of setup.now) clones.new.items) }
{
    let named = copy_named(alloc, &setup.domain, setup.props.as_slice())?;
    let blank = take_blank(clones, number);
    let asker = new_asker(blank, named, number);
    let (state, done) = join_first(rt, alloc, clones, number, asker);
    put_state(clones, number, state);
    done
}

/// What becomes of one who asks the first clone for a leaf.
fn join_first<R: Threads + Sync, B: CrashBanks>(
    rt: &R,
    alloc: Global,
    clones: &mut Vec<RunningClone<B>>,
    number: u8,
    asker: Asker<B>,
) -> (RunningClone<B>, Result<(), WorldFault>)
    requires { HasGiver asker.asker clones.old.items }
    ensures joins { JoinsFirst B.log B.meter number asker clones.old.items clones.new.items result }
    ensures len { vec_len clones.new ≡ vec_len clones.old }
    ensures capacity { vec_capacity clones.new ≡ vec_capacity clones.old }
{
    let CloneState::Live(first) = &mut clones[0] else {
        unreachable!()
    };
    join(rt, alloc, first, number, asker)
}

/// What becomes of one who asks a clone for a leaf.
fn join<R: Threads + Sync, B: CrashBanks>(
    rt: &R,
    alloc: Global,
    first: &mut MldClone<B>,
    number: u8,
    asker: Asker<B>,
) -> (RunningClone<B>, Result<(), WorldFault>)
    requires { MayGive asker.asker first.old }
    ensures { JoinsBy B.log B.meter number asker first.old first.new result }
{
    match given_leaf(rt, alloc, first, &asker) {
        Ok(answer) => taken_leaf(rt, alloc, number, asker, &answer),
        Err(fault) => (CloneState::Asking(asker), Err(fault)),
    }
}

/// What the first clone answers to the question of one who asks: a leaf, and all that it has.
fn given_leaf<R: Threads + Sync, B: CrashBanks>(
    rt: &R,
    alloc: Global,
    first: &mut MldClone<B>,
    asker: &Asker<B>,
) -> Result<Messages, WorldFault>
    requires { MayGive asker.now.asker first.old }
    ensures gives { IfOk result (λ messages. LocallyGives first.old.local asker.now.asker.id messages first.new.local) }
    ensures good { IfOk result (λ messages. AreGood messages) }
    ensures opened { OnOk result (StaysOpen first.old first.new) }
    ensures meter { MeterGoesOn (B.meter first.old.banks) (B.meter first.new.banks) }
    ensures faults { HasFaultsAt 0 (B.meter first.old.banks) (B.meter first.new.banks) result }
    ensures left { IfErr result (StopsGiving B.log B.meter first.old first.new.banks) }
{
    match first.receive(rt, alloc, &asker.ask()) {
        Ok(Got::Answer(messages)) => Ok(messages),
        Ok(_) => unreachable!(),
        Err(ReceiveFault::NoMemory) => Err(WorldFault::NoMemory),
        Err(ReceiveFault::Device) => Err(WorldFault::Device { clone: 0 }),
        Err(ReceiveFault::Closed { .. }) => unreachable!(),
        Err(ReceiveFault::ForeignTick { .. }) => unreachable!(),
        Err(ReceiveFault::HeldFull) => unreachable!(),
        Err(ReceiveFault::Deep) => unreachable!(),
        Err(ReceiveFault::GenerationsSpent) => unreachable!(),
    }
}

/// The clone of one who asked and takes the leaf that the one message gives.
fn taken_leaf<R: Threads + Sync, B: CrashBanks>(
    rt: &R,
    alloc: Global,
    number: u8,
    asker: Asker<B>,
    answer: &Messages,
) -> (RunningClone<B>, Result<(), WorldFault>)
    requires { (leaf : GiveValue) × GivesLeaf answer.now asker.asker leaf }
    ensures taken { OnOk result.1 ((leaf : GiveValue) → GivesLeaf answer.now asker.asker leaf
        → LivesAtLeaf asker.asker leaf result.0) }
    ensures meter { MeterGoesOn (B.meter asker.banks) (B.meter (banks_of_state result.0)) }
    ensures faults { HasFaultsAt number (B.meter asker.banks) (B.meter (banks_of_state result.0)) result.1 }
    ensures left { IfErr result.1 (λ fault. (leaf : GiveValue) → GivesLeaf answer.now asker.asker leaf
        → StopsTaking B.log B.meter number asker leaf (banks_of_state result.0) fault) }
{
    match asker.receive(rt, alloc, &answer.as_slice()[0]) {
        Adopted::Joined(clone) => (CloneState::Live(clone), Ok(())),
        Adopted::Refused(fault, banks) => {
            (CloneState::Down(banks), Err(made_fault(number, fault)))
        }
        Adopted::Ignored(_) => unreachable!(),
    }
}
