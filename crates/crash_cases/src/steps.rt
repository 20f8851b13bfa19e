//! The steps of a clone, each a word and what it is done with.
ghost use Rattle.std.specs.Prelude.{IfOk};
ghost use Rattle.jrql_ast.specs.InForm.{IsPlanInForm};
ghost use Rattle.mld_ops.specs.Messages.{message_value, IsGoodMessage};

use crate::faults::{Fault, Tried};
use crate::lines::cut_word;
use crate::messages::{range, second, snapshot, triple_of};
use clone_core::{Done, Got, KeepFault, MldClone, ReceiveFault, UpdateFault};
use disk_model::MemoryBanks;
use jrql_ast::UpdatePlan;
use mld_ops::Message;
use std::alloc::Global;
use std::thread::Threads;

/// A clone on banks in memory.
pub type TestClone = MldClone<MemoryBanks>;

/// Does a step.
pub fn do_step<R: Threads + Sync>(
    rt: &R,
    alloc: Global,
    clone: &mut TestClone,
    step: &str,
) -> Tried<()> {
    let (word, rest) = cut_word(step);
    match word {
        "add" => change(alloc, clone, rest, true),
        "remove" => change(alloc, clone, rest, false),
        "take" => take(rt, alloc, clone, rest),
        "merge" => merge(rt, alloc, clone, rest),
        "fork" => deliver(rt, alloc, clone, &Message::JoinAsk(second())),
        "compact" => kept(clone.compact(alloc)),
        "truncate" => kept(clone.truncate(alloc, u64::from(number(rest)?))),
        _ => Err(Fault::Amiss),
    }
}

/// The plan that inserts the triple of a name, or the one that deletes it.
fn plan_of(alloc: Global, name: &str, inserts: bool) -> Tried<UpdatePlan>
    ensures { IfOk result IsPlanInForm }
{
    let triple = triple_of(alloc, &name)?;
    if inserts {
        Ok(UpdatePlan::insertion(alloc, triple)?)
    } else {
        Ok(UpdatePlan::deletion(alloc, triple)?)
    }
}

/// Makes the update that inserts the triple of a name, or the one that deletes it.
fn change(alloc: Global, clone: &mut TestClone, name: &str, inserts: bool) -> Tried<()> {
    let plan = plan_of(alloc, name, inserts)?;
    updated(clone.update(alloc, &plan))
}

/// How an update ended.
fn updated(done: Result<Done, UpdateFault>) -> Tried<()> {
    match done {
        Ok(_done) => Ok(()),
        Err(UpdateFault::Device) => Err(Fault::Device),
        Err(_fault) => Err(Fault::Amiss),
    }
}

/// Hands a message to a clone.
fn deliver<R: Threads + Sync>(
    rt: &R,
    alloc: Global,
    clone: &mut TestClone,
    message: &Message,
) -> Tried<()>
    requires { IsGoodMessage (message_value message.now) }
{
    received(clone.receive(rt, alloc, message))
}

/// How a delivery ended.
fn received(got: Result<Got, ReceiveFault>) -> Tried<()> {
    match got {
        Ok(_got) => Ok(()),
        Err(ReceiveFault::Device) => Err(Fault::Device),
        Err(_fault) => Err(Fault::Amiss),
    }
}

/// Takes the range `TICK` or `FIRST-LAST`, or holds it back.
fn take<R: Threads + Sync>(rt: &R, alloc: Global, clone: &mut TestClone, ticks: &str) -> Tried<()> {
    let (first, last) = ticks.split_once('-').unwrap_or((ticks, ticks));
    let message = range(alloc, number(first)?, number(last)?)?;
    deliver(rt, alloc, clone, &message)
}

/// Merges the snapshot of one who knows so many ticks.
fn merge<R: Threads + Sync>(
    rt: &R,
    alloc: Global,
    clone: &mut TestClone,
    ticks: &str,
) -> Tried<()> {
    let message = snapshot(alloc, number(ticks)?)?;
    deliver(rt, alloc, clone, &message)
}

/// How a compaction or a truncation ends.
fn kept(entries: Result<u64, KeepFault>) -> Tried<()> {
    match entries {
        Ok(_count) => Ok(()),
        Err(KeepFault::Device) => Err(Fault::Device),
        Err(_fault) => Err(Fault::Amiss),
    }
}

/// The number that a text says.
pub fn number(text: &str) -> Tried<u32> {
    match text.parse() {
        Ok(number) => Ok(number),
        Err(_fault) => Err(Fault::Amiss),
    }
}
