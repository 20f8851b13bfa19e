//! The clones that tests work on, in boxes, which are let go in one step; and what they do, on loans and in plain words.
ghost use Rattle.std.specs.Prelude.{IfOk, IsTrue};
ghost use Rattle.text_rules.specs.Domain.{is_domain};
ghost use Rattle.jrql_ast.specs.InForm.{IsPlanInForm, IsQueryInForm};
ghost use Rattle.mld_ops.specs.Messages.{message_value, IsGoodMessage};

use clone_core::{
    Asker, Done, Got, KeepFault, MldClone, Mounted, QueryFault, ReceiveFault, UpdateFault,
};
use disk_model::MemoryBanks;
use journal_store::{Blank, Why};
use jrql_ast::{Answer, Group, Query, Sequence, UpdatePlan, What};
use mld_ops::{Entry, Message};
use rdf_terms::{Iri, Triple, read_triple};
use std::alloc::{AllocError, Global};
use std::test::Fail;
use std::thread::Threads;
use text_rules::{Text, is_domain};
use tree_clock::{Clock, Dot, Path, Range};
use uuid::Uuid;

/// A clone on banks in memory.
pub type TestClone = MldClone<MemoryBanks>;

/// One who asks, with banks in memory.
pub type TestAsker = Asker<MemoryBanks>;

/// The triple that is added and removed.
const TRIPLE: &str = "<http://d/s> <http://d/p> <http://d/o> .";

/// The property that has one value at most.
const PROPERTY: &str = "http://d/p";

/// The number of a call of a device that no test makes.
pub const NEVER: u64 = 100;

/// What is asked of a clone at the root.
#[derive(Clone, Copy)]
pub enum Asked {
    /// To add the triple.
    Add,
    /// To receive the range of this tick of the root, which deletes and inserts nothing.
    Receive(u32),
    /// To compact its journal.
    Compact,
    /// To truncate its journal to one entry.
    Truncate,
    /// To answer a query.
    Query,
}

/// What a clone answers, in plain words.
#[derive(Clone, Copy, PartialEq, Eq)]
pub enum Word {
    /// An operation was made, at this tick.
    Made(u32),
    /// So many ranges were taken.
    Took(usize),
    Held,
    Known,
    /// The journal has so many entries.
    Kept(u64),
    Answered,
    /// Nothing was done, since the clone is closed.
    Closed(Why),
    /// No operation was made, since no tick is left.
    SetSpent,
    /// So it was since the device failed.
    SetFailed,
    /// A message was refused for another reason.
    NotTaken(ReceiveFault),
    /// Another answer, or none, since what was to be handed to the clone could not be made.
    Other,
}

fn word_of_done(done: Result<Done, UpdateFault>) -> Word {
    match done {
        Ok(Done::Made(entry)) => Word::Made(entry.range().last),
        Ok(Done::Nothing) => Word::Other,
        Err(UpdateFault::Closed { why }) => Word::Closed(why),
        Err(UpdateFault::TicksSpent) => Word::SetSpent,
        Err(UpdateFault::Device) => Word::SetFailed,
        Err(_fault) => Word::Other,
    }
}

fn word_of_got(got: Result<Got, ReceiveFault>) -> Word {
    match got {
        Ok(Got::Took(ranges)) => Word::Took(ranges.len()),
        Ok(Got::Held) => Word::Held,
        Ok(Got::Known) => Word::Known,
        Ok(_) => Word::Other,
        Err(ReceiveFault::Closed { why }) => Word::Closed(why),
        Err(fault) => Word::NotTaken(fault),
    }
}

fn word_of_kept(kept: Result<u64, KeepFault>) -> Word {
    match kept {
        Ok(count) => Word::Kept(count),
        Err(KeepFault::Closed { why }) => Word::Closed(why),
        Err(_fault) => Word::Other,
    }
}

fn word_of_answer(answer: Result<Answer, QueryFault>) -> Word {
    match answer {
        Ok(_) => Word::Answered,
        Err(QueryFault::Closed { why }) => Word::Closed(why),
        Err(_fault) => Word::Other,
    }
}

/// What a clone answers to what is asked of it.
pub fn answered<R: Threads + Sync>(
    clone: &mut TestClone,
    rt: &R,
    alloc: Global,
    asked: Asked,
) -> Word {
    match asked {
        Asked::Add => set(clone, alloc, true),
        Asked::Receive(tick) => receive(clone, rt, alloc, of_root(tick)),
        Asked::Compact => word_of_kept(clone.compact(alloc)),
        Asked::Truncate => word_of_kept(clone.truncate(alloc, 1)),
        Asked::Query => described(clone, rt, alloc),
    }
}

/// The range of one tick of the root.
fn of_root(tick: u32) -> Range {
    Range {
        path: Path::root(),
        first: tick,
        last: tick,
    }
}

/// The query of no pattern that describes nothing.
fn plain_query(alloc: Global) -> Query
    ensures { IsQueryInForm result }
{
    Query {
        group: Group {
            names: Sequence::new(alloc),
            hidden: 0,
            patterns: Sequence::new(alloc),
            branches: Sequence::new(alloc),
            filters: Sequence::new(alloc),
        },
        what: What::Describe(Sequence::new(alloc)),
    }
}

/// What a clone answers to that query.
fn described<R: Threads + Sync>(clone: &TestClone, rt: &R, alloc: Global) -> Word {
    let query = plain_query(alloc);
    word_of_answer(clone.query(rt, alloc, &query))
}

/// What a clone answers where it is to add the triple, or to remove it.
pub fn set(clone: &mut TestClone, alloc: Global, present: bool) -> Word {
    match read_triple(alloc, TRIPLE) {
        Ok(triple) => word_of_done(set_to(clone, alloc, triple, present)),
        Err(_fault) => Word::Other,
    }
}

/// Makes the update that inserts a triple, or the one that deletes it.
fn set_to(
    clone: &mut TestClone,
    alloc: Global,
    triple: Triple,
    present: bool,
) -> Result<Done, UpdateFault> {
    let plan = plan_of(alloc, triple, present)?;
    clone.update(alloc, &plan)
}

/// The plan that inserts a triple, or the one that deletes it.
fn plan_of(alloc: Global, triple: Triple, present: bool) -> Result<UpdatePlan, AllocError>
    ensures { IfOk result IsPlanInForm }
{
    if present {
        UpdatePlan::insertion(alloc, triple)
    } else {
        UpdatePlan::deletion(alloc, triple)
    }
}

/// What a clone answers to the entry of a range that deletes and inserts nothing.
pub fn receive<R: Threads + Sync>(
    clone: &mut TestClone,
    rt: &R,
    alloc: Global,
    range: Range,
) -> Word {
    match bare_entry(alloc, range) {
        Some(entry) => word_of_got(clone.receive(rt, alloc, &Message::Range(entry))),
        None => Word::Other,
    }
}

/// The entry of a range that deletes and inserts nothing, and that rests on its own path alone.
fn bare_entry(alloc: Global, range: Range) -> Option<Entry> {
    let time = clock(alloc, &range.path, range.last).ok()?;
    Entry::new(range, time, Vec::new(alloc), Vec::new(alloc))
}

/// A clock with so many ticks of a path.
pub fn clock(alloc: Global, path: &Path, tick: u32) -> Result<Clock, AllocError> {
    let mut clock = Clock::empty(alloc);
    clock.reserve(path)?;
    clock.raise(&Dot { path: *path, tick });
    Ok(clock)
}

/// How many entries a clone took, how many it holds back, how many pairs it has, and how many ticks of its own path it knows.
pub fn parts(clone: &TestClone) -> (usize, usize, usize, u32) {
    (
        clone.journal().len(),
        clone.held().len(),
        clone.pairs().count(),
        clone.known().ticks(&clone.path()),
    )
}

/// Whether these are the properties that clones are made with.
pub fn are_given(properties: &[Iri]) -> bool {
    match properties {
        [property] => property.as_str() == PROPERTY,
        _ => false,
    }
}

/// The properties that clones are made with.
fn properties(alloc: Global) -> Result<Vec<Iri>, Fail> {
    let mut properties = Vec::new(alloc);
    properties.push(Iri::new(alloc, PROPERTY)?)?;
    Ok(properties)
}

/// The domain `d`.
pub fn domain(alloc: Global) -> Result<Text, Fail>
    ensures { IfOk result (λ domain. IsTrue (is_domain domain)) }
{
    let domain = Text::new(alloc, "d")?;
    if !is_domain(domain.as_str()) {
        return Err("no domain".into());
    }
    Ok(domain)
}

/// Blank banks, of which the call of this number fails.
pub fn failing(alloc: Global, call: u64) -> Result<Box<MemoryBanks>, AllocError> {
    let mut banks = Box::new(alloc, MemoryBanks::blank(alloc))?;
    banks.fail_call(call)?;
    Ok(banks)
}

/// Banks in memory that keep nothing, of which the call of this number fails.
fn blank<R: Threads + Sync>(rt: &R, alloc: Global, call: u64) -> Result<Blank<MemoryBanks>, Fail> {
    let banks = failing(alloc, call)?;
    match MldClone::mount(rt, alloc, Box::into_inner(banks)) {
        Mounted::Empty(blank) => Ok(blank),
        Mounted::Live(_) | Mounted::Refused(_, _) => Err("no blank".into()),
    }
}

/// The first clone of the domain `d`, with the id 7, on banks of which the call of this number fails.
pub fn first<R: Threads + Sync>(rt: &R, alloc: Global, call: u64) -> Result<Box<TestClone>, Fail> {
    founded(rt, alloc, call, properties(alloc)?)
}

/// The same, with these properties.
fn founded<R: Threads + Sync>(
    rt: &R,
    alloc: Global,
    call: u64,
    properties: Vec<Iri>,
) -> Result<Box<TestClone>, Fail> {
    let id = Uuid::from_u128(7);
    let domain = domain(alloc)?;
    match MldClone::genesis(alloc, blank(rt, alloc, call)?, id, domain, properties) {
        Ok(clone) => Ok(Box::new(alloc, clone)?),
        Err((_fault, _banks)) => Err("not founded".into()),
    }
}

/// One who asks by the id 2 for a leaf of the domain `d`.
pub fn asker<R: Threads + Sync>(rt: &R, alloc: Global) -> Result<Box<TestAsker>, Fail> {
    asking(rt, alloc, properties(alloc)?)
}

/// One who asks for a leaf of the domain `d`, with these properties.
fn asking<R: Threads + Sync>(
    rt: &R,
    alloc: Global,
    properties: Vec<Iri>,
) -> Result<Box<TestAsker>, Fail> {
    let id = Uuid::from_u128(2);
    let asker = Asker::new(blank(rt, alloc, NEVER)?, id, domain(alloc)?, properties);
    Ok(Box::new(alloc, asker)?)
}
