//! Replaying a schedule from memory. Banks are run on in here alone, and let go, so that a test has plain words to compare.
ghost use Rattle.std.specs.Prelude.{◌≡◌, ◌<◌, ℕ, Some, IfOk, slice_get, vec_len};
ghost use Rattle.mld_io.specs.Arm.{Unarmed};
ghost use Rattle.mld_model.specs.World.{clone_count};
ghost use Rattle.disk_model.specs.BankSteps.{BanksValue};
ghost use Rattle.disk_model.specs.CountedCalls.{meter_of};

use disk_model::{MemoryBanks, blank_banks};
use mld_io::{Banks, MemorySink, MemorySource, Side};
use mld_model::CLONE_COUNT;
use mld_replay::run::{RunFault, run};
use std::alloc::{AllocError, Global};
use std::thread::Threads;

/// What a run is given.
#[derive(Clone, Copy)]
pub struct Given<'a> {
    /// The words of the command.
    pub words: &'a [&'a str],
    /// The schedule.
    pub schedule: &'a [u8],
    /// The numbers of the reads that fail.
    pub reads: &'a [u64],
    /// The banks of one clone, where they are not as all others are.
    pub odd: Odd,
}

/// How the banks of one clone differ from blank ones.
#[derive(Clone, Copy)]
pub enum Odd {
    /// They don't.
    Nothing,
    /// The call of this number to those of this clone fails.
    Fails(u8, u64),
    /// Those of this clone have a byte on side B.
    Filled(u8),
}

/// How a run ended, in plain words.
#[derive(Clone, Copy)]
pub struct End {
    /// The status.
    pub status: u8,
    /// Why it isn't 0.
    pub fault: Option<RunFault>,
    /// Whether there was anything to tell of the world.
    pub tells: bool,
}

/// What a run of a schedule is given, on blank banks.
pub fn replay(schedule: &[u8]) -> Given<'_> {
    Given {
        words: &["replay"],
        schedule,
        reads: &[],
        odd: Odd::Nothing,
    }
}

/// Runs, and writes into a sink.
pub fn ended<R: Threads + Sync>(
    rt: &R,
    alloc: Global,
    given: Given<'_>,
    sink: &mut MemorySink,
) -> Result<End, AllocError> {
    let words = words(alloc, given.words)?;
    let mut source = MemorySource::new(alloc, given.schedule, given.reads)?;
    let banks = banks(alloc, given.odd)?;
    let ran = run(rt, alloc, &words, &mut source, sink, banks);
    Ok(End {
        status: ran.status,
        fault: ran.fault,
        tells: ran.world.is_some(),
    })
}

/// These words, each owned.
pub fn words(alloc: Global, texts: &[&str]) -> Result<Vec<String>, AllocError> {
    let mut words = Vec::new(alloc);
    for text in texts {
        words.push(String::from_str(alloc, text)?)?;
    }
    Ok(words)
}

/// Banks for each clone. None is armed.
pub fn banks(alloc: Global, odd: Odd) -> Result<Vec<MemoryBanks>, AllocError>
    ensures count { IfOk result (λ banks. vec_len banks ≡ clone_count) }
    ensures unarmed { IfOk result (λ banks. (number : ℕ) (one : BanksValue) → slice_get banks.items number ≡ Some one → (meter_of one.calls).arm ≡ Unarmed) }
{
    let mut banks = blank_banks(alloc, usize::from(CLONE_COUNT))?;
    let number = number_of(odd);
    if number < banks.len() {
        make_odd(&mut banks[number], odd)?;
    }
    Ok(banks)
}

/// The number of the clone whose banks differ, and of the first where none do.
fn number_of(odd: Odd) -> usize {
    match odd {
        Odd::Nothing => 0,
        Odd::Fails(clone, _) | Odd::Filled(clone) => usize::from(clone),
    }
}

/// Has the banks of a clone differ. They are not armed.
fn make_odd(banks: &mut MemoryBanks, odd: Odd) -> Result<(), AllocError>
    requires { (meter_of banks.old.calls).arm ≡ Unarmed }
    ensures { (meter_of banks.new.calls).arm ≡ Unarmed }
{
    match odd {
        Odd::Nothing => Ok(()),
        Odd::Fails(_, call) => banks.fail_call(call),
        Odd::Filled(_) => {
            let _written = banks.write_at(Side::B, 0, &[0]);
            Ok(())
        }
    }
}
