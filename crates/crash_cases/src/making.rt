//! The making of clones: `genesis`, or `join TICKS` of one who is given a leaf; and steps behind that. Whatever becomes of a clone, its
//! banks are taken back in the end.
ghost use Rattle.std.specs.Prelude.{IfOk, IsTrue};
ghost use Rattle.mld_ops.specs.Messages.{message_value, IsGoodMessage};
ghost use Rattle.text_rules.specs.Domain.{is_domain};

use crate::faults::{Fault, Tried};
use crate::lines::{Row, cut_word};
use crate::messages::{leaf, second};
use crate::steps::{do_step, number};
use crate::telling::{Told, put_clone};
use clone_core::{Adopted, Asker, MldClone, Mounted};
use disk_model::MemoryBanks;
use journal_store::{Blank, MakeFault};
use mld_ops::Message;
use std::alloc::Global;
use std::thread::Threads;
use text_rules::{Text, is_domain};
use uuid::Uuid;

/// The steps that make nothing, and what stands then.
pub const NOTHING: &str = "nothing";

/// Blank banks.
type BlankBanks = Blank<MemoryBanks>;

/// A clone that was begun on blank banks, or the banks where it wasn't.
type Begun = Adopted<MemoryBanks>;

/// What steps made. It isn't let go: its banks are taken back.
pub struct Made {
    /// A clone that was begun, or the banks where it wasn't.
    pub begun: Begun,
    /// Whether all steps are done, or why one of them isn't.
    pub ended: Tried<()>,
}

/// How a clone begins.
#[derive(Clone, Copy)]
enum Start {
    /// As the first one of the domain.
    Genesis,
    /// As one who asks, and is given a leaf by one who knows so many ticks.
    Join(u32),
}

/// The start that a step says.
fn start_of(step: &str) -> Tried<Start> {
    let (word, ticks) = cut_word(step);
    match word {
        "genesis" => Ok(Start::Genesis),
        "join" => Ok(Start::Join(number(ticks)?)),
        _ => Err(Fault::Amiss),
    }
}

/// The banks that a mount found to be blank, or others.
fn blank_of(mounted: Mounted<MemoryBanks>) -> Result<BlankBanks, MemoryBanks> {
    match mounted {
        Mounted::Empty(blank) => Ok(blank),
        Mounted::Live(clone) => Err(clone.stop()),
        Mounted::Refused(_fault, banks) => Err(banks),
    }
}

/// What a first step makes, on a device that is armed where a row says so.
pub fn first_made<R: Threads + Sync>(
    rt: &R,
    alloc: Global,
    step: &str,
    row: Option<Row<'_>>,
) -> Made {
    let banks = MemoryBanks::blank(alloc);
    match start_of(step) {
        Ok(start) => begun_on(rt, alloc, start, row, banks),
        Err(fault) => not_begun(banks, fault),
    }
}

/// What a start makes on banks that keep nothing yet.
fn begun_on<R: Threads + Sync>(
    rt: &R,
    alloc: Global,
    start: Start,
    row: Option<Row<'_>>,
    banks: MemoryBanks,
) -> Made {
    match blank_of(MldClone::mount(rt, alloc, banks)) {
        Ok(blank) => begun_as(begin(rt, alloc, armed(blank, row), start)),
        Err(banks) => not_begun(banks, Fault::Amiss),
    }
}

/// Blank banks, which are armed where a row says so.
fn armed(blank: BlankBanks, row: Option<Row<'_>>) -> BlankBanks {
    let mut blank = blank;
    if let Some(row) = row {
        blank.arm(row.calls, row.leave);
    }
    blank
}

/// Banks on which no clone was begun.
fn not_begun(banks: MemoryBanks, fault: Fault) -> Made {
    Made {
        begun: Adopted::Refused(MakeFault::NoMemory, banks),
        ended: Err(fault),
    }
}

/// A clone that was begun, or the banks where it wasn't, and why not.
fn begun_as(begun: Begun) -> Made {
    let ended = match &begun {
        Adopted::Joined(_) => Ok(()),
        Adopted::Refused(MakeFault::Device, _) => Err(Fault::Device),
        Adopted::Refused(MakeFault::NoMemory, _) => Err(Fault::NoMemory),
        Adopted::Ignored(_) => Err(Fault::Amiss),
    };
    Made { begun, ended }
}

/// The domain of all clones.
fn domain(alloc: Global) -> Tried<Text>
    ensures { IfOk result (λ domain. IsTrue (is_domain domain)) }
{
    let domain = Text::new(alloc, "d")?;
    if !is_domain(domain.as_str()) {
        return Err(Fault::Amiss);
    }
    Ok(domain)
}

/// Begins a clone on blank banks.
fn begin<R: Threads + Sync>(rt: &R, alloc: Global, blank: BlankBanks, start: Start) -> Begun {
    match domain(alloc) {
        Ok(domain) => match start {
            Start::Genesis => genesis(alloc, blank, domain),
            Start::Join(tick) => join(rt, alloc, blank, domain, tick),
        },
        Err(_fault) => Adopted::Refused(MakeFault::NoMemory, blank.into_banks()),
    }
}

/// The first clone of a domain.
fn genesis(alloc: Global, blank: BlankBanks, domain: Text) -> Begun
    requires { IsTrue (is_domain domain) }
{
    match MldClone::genesis(alloc, blank, Uuid::from_u128(7), domain, Vec::new(alloc)) {
        Ok(clone) => Adopted::Joined(clone),
        Err((fault, banks)) => Adopted::Refused(fault, banks),
    }
}

/// One who asks for a leaf of a domain, and is given it by one who knows so many ticks.
fn join<R: Threads + Sync>(
    rt: &R,
    alloc: Global,
    blank: BlankBanks,
    domain: Text,
    tick: u32,
) -> Begun
    requires { IsTrue (is_domain domain) }
{
    match leaf(alloc, tick) {
        Ok(message) => adopted(rt, alloc, blank, domain, &message),
        Err(_fault) => Adopted::Refused(MakeFault::NoMemory, blank.into_banks()),
    }
}

/// One who asks for a leaf of a domain, and is handed a message.
fn adopted<R: Threads + Sync>(
    rt: &R,
    alloc: Global,
    blank: BlankBanks,
    domain: Text,
    message: &Message,
) -> Begun
    requires domain { IsTrue (is_domain domain) }
    requires message { IsGoodMessage (message_value message.now) }
{
    Asker::new(blank, second(), domain, Vec::new(alloc)).receive(rt, alloc, message)
}

/// The banks of a clone that was begun, which stops, or those on which it wasn't.
pub fn banks_of_begun(begun: Begun) -> MemoryBanks {
    match begun {
        Adopted::Joined(clone) => clone.stop(),
        Adopted::Ignored(asker) => asker.stop(),
        Adopted::Refused(_, banks) => banks,
    }
}

/// What steps make, on a device of which no call fails.
pub fn make<R: Threads + Sync>(rt: &R, alloc: Global, steps: &str) -> Made {
    match steps.split_once(", ") {
        None => first_made(rt, alloc, steps, None),
        Some((first, others)) => {
            let mut made = first_made(rt, alloc, first, None);
            for step in others.split(", ") {
                made.ended = do_next(rt, alloc, &mut made, step);
            }
            made
        }
    }
}

/// Does a step of a clone, where all steps before it are done.
pub fn do_next<R: Threads + Sync>(rt: &R, alloc: Global, made: &mut Made, step: &str) -> Tried<()> {
    made.ended?;
    do_on(rt, alloc, &mut made.begun, step)
}

/// Does a step of a clone that was begun.
fn do_on<R: Threads + Sync>(rt: &R, alloc: Global, begun: &mut Begun, step: &str) -> Tried<()> {
    match begun {
        Adopted::Joined(clone) => do_step(rt, alloc, clone, step),
        Adopted::Refused(_, _) | Adopted::Ignored(_) => Err(Fault::Amiss),
    }
}

/// Puts what steps make.
pub fn put_made<R: Threads + Sync>(rt: &R, alloc: Global, told: &mut Told, steps: &str) {
    if steps == NOTHING {
        told.push_str(NOTHING);
        return;
    }
    let Made { begun, ended } = make(rt, alloc, steps);
    match &begun {
        Adopted::Joined(clone) if ended.is_ok() => put_clone(told, clone),
        _ => told.push_str("no such steps"),
    }
    banks_of_begun(begun);
}
