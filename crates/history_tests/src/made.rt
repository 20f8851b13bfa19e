//! The clones that tests work on, in boxes, and what they do, on loans and in plain words.
ghost use Rattle.std.specs.Prelude.{IfOk, IsTrue};
ghost use Rattle.text_rules.specs.Domain.{is_domain};
ghost use Rattle.jrql_ast.specs.InForm.{IsPlanInForm};
ghost use Rattle.mld_ops.specs.Messages.{message_value, IsGoodMessage};

use clone_core::{Done, Got, MldClone, Mounted, UpdateFault};
use clone_history::{PastFault, UndoFault, as_of, undo};
use disk_model::MemoryBanks;
use journal_store::Blank;
use jrql_ast::UpdatePlan;
use mld_ops::{Entry, Message, Tagged};
use rdf_terms::{Iri, Triple, cmp_triples, read_triple};
use std::alloc::{AllocError, Global};
use std::test::Fail;
use std::thread::Threads;
use text_rules::{Text, is_domain};
use tree_clock::{Clock, Dot, Path, Range};
use uuid::Uuid;

/// A clone on banks in memory.
pub type TestClone = MldClone<MemoryBanks>;

/// The triples of the tests, ascending.
const TRIPLES: &[&str] = &[
    "<http://d/s> <http://d/p> <http://d/t> .",
    "<http://d/s> <http://d/p> <http://d/u> .",
    "<http://d/s> <http://d/q> <http://d/v> .",
];

/// A dot: the letters of its path, and its tick.
pub type Place = (&'static str, u32);

/// A pair: its dot, and the number of its triple.
pub type Pair = (&'static str, u32, usize);

/// What is asked of a clone.
#[derive(Clone, Copy)]
pub enum Asked {
    /// To add a triple.
    Add(usize),
    /// To remove one.
    Remove(usize),
    /// To take back the operation of a dot.
    Undo(Place),
    /// What it was at a clock, of these last dots.
    Past(&'static [Place]),
    /// What it is now.
    Show,
    /// To compact its journal.
    Compact,
    /// To truncate its journal.
    Truncate(u64),
    /// To receive an entry of one dot that inserts a triple, and that rests on these last dots.
    Receive(Place, usize, &'static [Place]),
}

/// What it says.
#[derive(Clone, Copy)]
pub enum Said {
    /// An operation was made, at this tick of the root.
    Did(u32),
    /// There was nothing to do.
    Nothing,
    /// These pairs.
    Has(&'static [Pair]),
    /// So many entries are kept.
    Kept(u64),
    /// An entry was taken.
    Took,
    /// The dot isn't of its own path.
    NotOwn,
    /// No range is just the dot.
    NotKept,
    /// A second value of a single-valued property.
    Single,
    /// The dot isn't known.
    Unknown(Place),
    /// The base isn't a part of the clock.
    Behind,
    /// The dot is within a range.
    Split(Place),
    /// The clock lacks what the range of a path from a first to a last tick rests on.
    NotClosed(&'static str, u32, u32),
}

/// The path of these letters.
fn path_of(letters: &str) -> Path {
    let mut path = Path::root();
    for letter in letters.as_bytes() {
        if path.len() < 64 {
            path = path.child(*letter == b'1');
        }
    }
    path
}

/// The dot of a place.
fn dot_of(place: &Place) -> Dot {
    Dot {
        path: path_of(place.0),
        tick: place.1,
    }
}

/// The clock of these last dots.
fn clock_of(alloc: Global, places: &[Place]) -> Result<Clock, AllocError> {
    let mut clock = Clock::empty(alloc);
    for place in places {
        let dot = dot_of(place);
        clock.reserve(&dot.path)?;
        clock.raise(&dot);
    }
    Ok(clock)
}

/// The triple of a number.
fn triple_of(alloc: Global, number: usize) -> Option<Triple> {
    let text = TRIPLES.get(number)?;
    read_triple(alloc, text).ok()
}

/// The plan that inserts a triple, or the one that deletes it.
fn plan_of(alloc: Global, triple: Triple, present: bool) -> Result<UpdatePlan, AllocError>
    ensures { IfOk result IsPlanInForm }
{
    if present {
        UpdatePlan::insertion(alloc, triple)
    } else {
        UpdatePlan::deletion(alloc, triple)
    }
}

/// Makes the update that inserts the triple of a number, or the one that deletes it.
fn set(
    clone: &mut TestClone,
    alloc: Global,
    number: usize,
    present: bool,
) -> Result<Done, UpdateFault> {
    let Some(triple) = triple_of(alloc, number) else {
        return Err(UpdateFault::NoMemory);
    };
    let plan = plan_of(alloc, triple, present)?;
    clone.update(alloc, &plan)
}

/// Whether an operation was made at this tick of the root.
fn is_made(done: &Done, tick: u32) -> bool {
    match done {
        Done::Made(entry) => entry.range().path.is_empty() && entry.range().last == tick,
        Done::Nothing => false,
    }
}

/// Whether an update is answered so.
fn is_done(done: &Result<Done, UpdateFault>, said: &Said) -> bool {
    match (done, said) {
        (Ok(done), Said::Did(tick)) => is_made(done, *tick),
        (Ok(Done::Nothing), Said::Nothing) => true,
        (Err(UpdateFault::Single { .. }), Said::Single) => true,
        _ => false,
    }
}

/// Whether an undo is answered so.
fn is_undone(done: &Result<Done, UndoFault>, said: &Said) -> bool {
    match (done, said) {
        (Ok(done), Said::Did(tick)) => is_made(done, *tick),
        (Ok(Done::Nothing), Said::Nothing) => true,
        (Err(UndoFault::NotOwn), Said::NotOwn) => true,
        (Err(UndoFault::NotKept), Said::NotKept) => true,
        (Err(UndoFault::Update(UpdateFault::Single { .. })), Said::Single) => true,
        _ => false,
    }
}

/// Whether a pair is that of a dot and the triple of a number.
fn is_pair(alloc: Global, pair: &Tagged, wanted: &Pair) -> bool {
    let dot = dot_of(&(wanted.0, wanted.1));
    match triple_of(alloc, wanted.2) {
        Some(triple) => pair.dot == dot && cmp_triples(&pair.triple, &triple).is_eq(),
        None => false,
    }
}

/// Whether the pairs are these.
fn are_pairs(alloc: Global, pairs: &[Tagged], wanted: &[Pair]) -> bool {
    pairs.len() == wanted.len()
        && pairs
            .iter()
            .zip(wanted.iter())
            .all(|(pair, one)| is_pair(alloc, pair, one))
}

/// Whether a fault is told so.
fn is_fault(fault: &PastFault, said: &Said) -> bool {
    match (fault, said) {
        (PastFault::Unknown { dot }, Said::Unknown(place)) => *dot == dot_of(place),
        (PastFault::BehindBase, Said::Behind) => true,
        (PastFault::Split { dot }, Said::Split(place)) => *dot == dot_of(place),
        (PastFault::NotClosed { range }, Said::NotClosed(path, first, last)) => {
            range.path == path_of(path) && range.first == *first && range.last == *last
        }
        _ => false,
    }
}

/// Whether a past state is told so.
fn is_past(alloc: Global, past: &Result<Vec<Tagged>, PastFault>, said: &Said) -> bool {
    match (past, said) {
        (Ok(pairs), Said::Has(wanted)) => are_pairs(alloc, pairs.as_slice(), wanted),
        (Err(fault), _) => is_fault(fault, said),
        _ => false,
    }
}

/// What a clone was at a clock of these last dots.
fn past(clone: &TestClone, alloc: Global, places: &[Place]) -> Result<Vec<Tagged>, PastFault> {
    let clock = clock_of(alloc, places)?;
    as_of(alloc, clone, &clock)
}

/// Whether a clone has these pairs.
fn shows(clone: &TestClone, alloc: Global, said: &Said) -> bool {
    match (clone.tagged(alloc), said) {
        (Ok(pairs), Said::Has(wanted)) => are_pairs(alloc, pairs.as_slice(), wanted),
        _ => false,
    }
}

/// The entry of one dot that inserts a triple, and that rests on these last dots.
fn entry_of(alloc: Global, place: &Place, number: usize, rests: &[Place]) -> Option<Entry> {
    let dot = dot_of(place);
    let mut time = clock_of(alloc, rests).ok()?;
    time.reserve(&dot.path).ok()?;
    time.raise(&dot);
    let mut inserts = Vec::new(alloc);
    inserts.push((triple_of(alloc, number)?, dot.tick)).ok()?;
    let range = Range {
        path: dot.path,
        first: dot.tick,
        last: dot.tick,
    };
    Entry::new(range, time, Vec::new(alloc), inserts)
}

/// Whether a clone takes such an entry, and none besides.
fn takes<R: Threads + Sync>(
    clone: &mut TestClone,
    rt: &R,
    alloc: Global,
    entry: Option<Entry>,
) -> bool {
    match entry {
        Some(entry) => is_taken(&clone.receive(rt, alloc, &Message::Range(entry))),
        None => false,
    }
}

/// Whether one range was taken.
fn is_taken<E>(got: &Result<Got, E>) -> bool {
    matches!(got, Ok(Got::Took(ranges)) if ranges.len() == 1)
}

/// Whether a clone says this to what is asked of it.
pub fn says<R: Threads + Sync>(
    clone: &mut TestClone,
    rt: &R,
    alloc: Global,
    asked: &Asked,
    said: &Said,
) -> bool {
    match asked {
        Asked::Add(number) => is_done(&set(clone, alloc, *number, true), said),
        Asked::Remove(number) => is_done(&set(clone, alloc, *number, false), said),
        Asked::Undo(place) => is_undone(&undo(alloc, clone, &dot_of(place)), said),
        Asked::Past(places) => is_past(alloc, &past(clone, alloc, places), said),
        Asked::Show => shows(clone, alloc, said),
        Asked::Compact => is_kept(clone.compact(alloc).ok(), said),
        Asked::Truncate(keep) => is_kept(clone.truncate(alloc, *keep).ok(), said),
        Asked::Receive(place, number, rests) => {
            takes(clone, rt, alloc, entry_of(alloc, place, *number, rests))
        }
    }
}

/// Whether so many entries are kept.
fn is_kept(kept: Option<u64>, said: &Said) -> bool {
    match (kept, said) {
        (Some(count), Said::Kept(wanted)) => count == *wanted,
        _ => false,
    }
}

/// The number of the first line of a script that a clone answers otherwise, from 1; or 0.
pub fn first_amiss<R: Threads + Sync>(
    clone: &mut TestClone,
    rt: &R,
    alloc: Global,
    script: &[(Asked, Said)],
) -> usize {
    let mut line = 0usize;
    for (asked, said) in script {
        line = line.saturating_add(1);
        if !says(clone, rt, alloc, asked, said) {
            return line;
        }
    }
    0
}

/// The domain `d`.
fn domain(alloc: Global) -> Result<Text, Fail>
    ensures { IfOk result (λ domain. IsTrue (is_domain domain)) }
{
    let domain = Text::new(alloc, "d")?;
    if !is_domain(domain.as_str()) {
        return Err("no domain".into());
    }
    Ok(domain)
}

/// Banks in memory that keep nothing.
fn blank<R: Threads + Sync>(rt: &R, alloc: Global) -> Result<Blank<MemoryBanks>, Fail> {
    match MldClone::mount(rt, alloc, MemoryBanks::blank(alloc)) {
        Mounted::Empty(blank) => Ok(blank),
        Mounted::Live(_) | Mounted::Refused(_, _) => Err("no blank".into()),
    }
}

/// The first clone of the domain `d`, of which these properties have one value at most.
pub fn founded<R: Threads + Sync>(
    rt: &R,
    alloc: Global,
    singles: &[&str],
) -> Result<Box<TestClone>, Fail> {
    let mut properties = Vec::new(alloc);
    for single in singles {
        properties.push(Iri::new(alloc, single)?)?;
    }
    let id = Uuid::from_u128(7);
    match MldClone::genesis(alloc, blank(rt, alloc)?, id, domain(alloc)?, properties) {
        Ok(clone) => Ok(Box::new(alloc, clone)?),
        Err((_fault, _banks)) => Err("not founded".into()),
    }
}
