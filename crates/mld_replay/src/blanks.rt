//! The banks that a run begins with: none of them has a byte.
ghost use Rattle.std.specs.Prelude.{◌≡◌, ◌<◌, ◌+◌, ◌≤◌, ◌++◌, ◌∷◌, ◌↔◌, [], Some, IsTrue, length, vec_len, vec_capacity, OnOk, IfOk, IfErr, IfSome};
ghost use Rattle.std.specs.Result.{result_err};
ghost use Rattle.mld_io.specs.Disk.{Log, bytes_of, seen};
ghost use Rattle.mld_model.specs.World.{clone_count};
ghost use Rattle.net_world.specs.world_commands.WorldBanks.{MeterGoesOn, MetersGoOn, HadNoFault, HadFault};
ghost use Rattle.clone_core.specs.journal_store.Standing.{IsBlankLog};
ghost use Rattle.net_world.specs.SettledWorlds.{AreBlank};
ghost use Rattle.mld_replay.specs.BanksLeft.{LeavesLess, LeaveNoMore};
ghost use Rattle.mld_replay.specs.BankFaults.{ComeBackWell, BringsBack};
ghost use Rattle.mld_replay.specs.Filled.{IsFilled, LogsStay};
ghost use Rattle.mld_replay.specs.Looking.{AreEmpty, StopsLookingAt, StopsLooking, StopsBlanking};

use crate::run::RunFault;
use clone_core::journal_store::{Blank, MountFault};
use clone_core::{MldClone, Mounted};
use mld_io::{Banks, CrashBanks, IoFault, Side};
use std::alloc::{AllocError, Global};
use std::collections::VecDeque;
use std::thread::Threads;

/// Looks at each side of the banks, in order, for one that has bytes.
pub fn find_filled<B: CrashBanks>(banks: &mut Vec<B>) -> Result<(), RunFault>
    requires { vec_len banks.old ≡ clone_count }
    ensures logs { LogsStay B.log banks.old.items banks.new.items }
    ensures meters { MetersGoOn B.meter banks.old.items banks.new.items }
    ensures back { BringsBack B.meter banks.old.items banks.new.items (result_err result) }
    ensures ok { OnOk result (AreEmpty B.log banks.old.items) }
    ensures err { IfErr result (StopsLooking B.log banks.old.items) }
{
    let mut number = 0;
    while number < banks.len() {
        look_at(&mut banks[number], number as u8)?;
        number += 1;
    }
    Ok(())
}

/// Looks at both sides of the banks of a number.
fn look_at<B: CrashBanks>(banks: &mut B, number: u8) -> Result<(), RunFault>
    ensures log { B.log banks.new ≡ B.log banks.old }
    ensures empty { OnOk result (¬ IsFilled (B.log banks.old)) }
    ensures meter { MeterGoesOn (B.meter banks.old) (B.meter banks.new) }
    ensures quiet { OnOk result (HadNoFault (B.meter banks.old) (B.meter banks.new)) }
    ensures err { IfErr result (StopsLookingAt number (B.log banks.old) (B.meter banks.old) (B.meter banks.new)) }
{
    if has_bytes(banks, Side::A, number)? || has_bytes(banks, Side::B, number)? {
        return Err(RunFault::NotEmpty(number));
    }
    Ok(())
}

/// Whether a side of the banks of a number has bytes.
fn has_bytes<B: CrashBanks>(banks: &mut B, side: Side, number: u8) -> Result<bool, RunFault>
    ensures log { B.log banks.new ≡ B.log banks.old }
    ensures bytes { (l : Log) → B.log banks.old ≡ Some l
        → IfOk result (λ has. IsTrue has ↔ (0 < length (bytes_of side (seen l)))) }
    ensures meter { MeterGoesOn (B.meter banks.old) (B.meter banks.new) }
    ensures quiet { OnOk result (HadNoFault (B.meter banks.old) (B.meter banks.new)) }
    ensures err { IfErr result (StopsLookingAt number (B.log banks.old) (B.meter banks.old) (B.meter banks.new)) }
{
    match banks.len(side) {
        Ok(size) => Ok(size > 0),
        Err(IoFault::Failed) => Err(RunFault::Device(number)),
        Err(IoFault::NoMemory) => Err(RunFault::NoMemory),
    }
}

/// The banks, none of which has a byte, as ones that keep nothing. Where the device of some fails, all are given back, in order; where
/// memory runs out, none are.
pub fn blanks_of<R: Threads + Sync, B: CrashBanks>(
    rt: &R,
    alloc: Global,
    banks: Vec<B>,
) -> Result<Vec<Blank<B>>, (RunFault, Vec<B>)>
    requires empty { AreEmpty B.log banks.items }
    requires count { vec_len banks ≡ clone_count }
    ensures count { IfOk result (λ blanks. length blanks.items ≡ clone_count) }
    ensures blank { IfOk result (λ blanks. AreBlank B.log blanks.items) }
    ensures well { IfOk result (λ blanks. ComeBackWell B.meter banks.items blanks.items) }
    ensures left { IfErr result (λ refused. LeaveNoMore B.log banks.items refused.1.items) }
    ensures err { IfErr result (λ refused. StopsBlanking B.meter banks.items refused.0 refused.1.items) }
{
    let Ok((mut blanks, back)) = room_for(alloc, banks.len()) else {
        return Err((RunFault::NoMemory, Vec::new(alloc)));
    };
    let mut rest = VecDeque::from_vec(banks);
    let mut number = 0;
    while let Some(one) = rest.pop_front() {
        match blank_of(rt, alloc, one) {
            Ok(blank) => blanks.push_reserved(blank),
            Err(Some(one)) => {
                let banks = all_back(back, blanks, one, rest);
                return Err((RunFault::Device(number), banks));
            }
            Err(None) => return Err((RunFault::NoMemory, Vec::new(alloc))),
        }
        number += 1;
    }
    Ok(blanks)
}

/// Banks that have no byte, as ones that keep nothing. Where their device fails they are given back; where memory runs out they
/// are not.
fn blank_of<R: Threads + Sync, B: CrashBanks>(
    rt: &R,
    alloc: Global,
    banks: B,
) -> Result<Blank<B>, Option<B>>
    requires { ¬ IsFilled (B.log banks) }
    ensures ok { IfOk result (λ blank. MeterGoesOn (B.meter banks) (B.meter blank)) }
    ensures quiet { IfOk result (λ blank. HadNoFault (B.meter banks) (B.meter blank)) }
    ensures blank { IfOk result (λ blank. IsBlankLog (B.log blank)) }
    ensures less { IfOk result (λ blank. LeavesLess B.log banks blank) }
    ensures left { IfErr result (λ refused. IfSome refused (λ back. LeavesLess B.log banks back)) }
    ensures later { IfErr result (λ refused. IfSome refused (λ back. MeterGoesOn (B.meter banks) (B.meter back))) }
    ensures failed { IfErr result (λ refused. IfSome refused (λ back. HadFault (B.meter banks) (B.meter back))) }
{
    match MldClone::mount(rt, alloc, banks) {
        Mounted::Empty(blank) => Ok(blank),
        Mounted::Refused(MountFault::Device, banks) => Err(Some(banks)),
        Mounted::Refused(MountFault::NoMemory, _) => Err(None),
        Mounted::Refused(MountFault::Damaged { .. }, _) => unreachable!(),
        Mounted::Live(_) => unreachable!(),
    }
}

/// Room for so many blanks, and for as many banks, should they be given back.
fn room_for<B: CrashBanks>(
    alloc: Global,
    count: usize,
) -> Result<(Vec<Blank<B>>, Vec<B>), AllocError>
    ensures none { IfOk result (λ room. (room.0.items ≡ []) × (room.1.items ≡ [])) }
    ensures room { IfOk result (λ room. (count ≤ vec_capacity room.0) × (count ≤ vec_capacity room.1)) }
{
    let blanks = Vec::with_capacity(alloc, count)?;
    Ok((blanks, Vec::with_capacity(alloc, count)?))
}

/// All banks, in order: those of blanks, one more, and the rest. There is room for them.
fn all_back<B: CrashBanks>(back: Vec<B>, blanks: Vec<Blank<B>>, one: B, rest: VecDeque<B>) -> Vec<B>
    requires none { back.items ≡ [] }
    requires room { vec_len blanks + 1 + length rest.items ≤ vec_capacity back }
    ensures { result.items ≡ blanks.items ++ one ∷ rest.items }
{
    let mut back = back;
    for blank in blanks {
        back.push_reserved(blank.into_banks());
    }
    back.push_reserved(one);
    for next in rest {
        back.push_reserved(next);
    }
    back
}
