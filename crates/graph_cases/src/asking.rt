//! Calls of a graph, beside what a plain list has.
ghost use Rattle.std.specs.Prelude.{◌≡◌, ◌<◌};

use crate::answers::{Answer, Answers};
use crate::lists::{Both, boxed, push};
use graph_index::{Graph, LentPairs, Steps};
use mld_ops::{Tagged, Tags};
use rdf_terms::{Iri, Term};
use std::alloc::{AllocError, Global};
use std::marker::Brand;
use std::sync::ledger::{Blank, Ledger};
use tree_clock::Range;

/// A subject, a predicate and an object, where they are given.
type Parts<'a> = (Option<&'a Iri>, Option<&'a Iri>, Option<&'a Term>);

/// What each call answers to a pair and to its parts, behind what was asked of all pairs.
pub fn ask(alloc: Global, both: &Both, pair: &Tagged, all: Answer) -> Result<Answers, AllocError> {
    let s = Some(&pair.triple.s);
    let p = Some(&pair.triple.p);
    let o = Some(&pair.triple.o);
    Ok([
        all,
        has(both, pair),
        of_triple(alloc, both, pair)?,
        of_range(alloc, both, pair)?,
        scan(alloc, both, (None, None, None))?,
        scan(alloc, both, (s, None, None))?,
        scan(alloc, both, (None, p, None))?,
        scan(alloc, both, (None, None, o))?,
        scan(alloc, both, (s, p, None))?,
        scan(alloc, both, (None, p, o))?,
        scan(alloc, both, (s, None, o))?,
        scan(alloc, both, (s, p, o))?,
    ])
}

/// All pairs, their number, and whether each of them is there. A graph that is made anew of them has just these, too.
pub fn ask_all(alloc: Global, both: &Both) -> Result<Answer, AllocError> {
    let is_moved = moves(alloc, both)?;
    let pairs = both.graph.to_list(alloc)?;
    let is_so = is_moved
        && pairs.iter().eq(both.list.iter())
        && both.graph.count() == both.list.len()
        && both.list.iter().all(|pair| both.graph.has(pair));
    Ok(Answer::of(pairs.len(), is_so))
}

/// Whether all pairs move out of a graph that is made of them.
fn moves(alloc: Global, both: &Both) -> Result<bool, AllocError> {
    let again = again(alloc, &both.graph)?;
    let pairs = Box::into_inner(again).into_list(alloc)?;
    Ok(pairs.iter().eq(both.list.iter()))
}

/// A graph that is made of the pairs of another.
fn again(alloc: Global, graph: &Graph) -> Result<Box<Graph>, AllocError> {
    let pairs = graph.to_pairs(alloc)?;
    boxed(alloc, Graph::from_pairs(alloc, &pairs)?)
}

/// Whether a pair is there, and its triple.
fn has(both: &Both, pair: &Tagged) -> Answer {
    let has = both.graph.has(pair);
    let has_triple = both.graph.has_triple(&pair.triple);
    let is_so = has == both.list.binary_search(pair).is_ok()
        && has_triple == both.list.iter().any(|other| other.triple == pair.triple);
    Answer::of(usize::from(has) + usize::from(has_triple), is_so)
}

/// The pairs of a pair's triple, and their dots.
fn of_triple(alloc: Global, both: &Both, pair: &Tagged) -> Result<Answer, AllocError> {
    let pairs = both.graph.of_triple(alloc, &pair.triple)?;
    let dots = both.graph.tags_of(alloc, &pair.triple)?;
    let wanted = both.list.iter().filter(|other| other.triple == pair.triple);
    let is_so = pairs.iter().eq(wanted) && dots.iter().eq(pairs.iter().map(|pair| &pair.dot));
    Ok(Answer::of(pairs.len(), is_so))
}

/// The pairs whose dots are around that of a pair.
fn of_range(alloc: Global, both: &Both, pair: &Tagged) -> Result<Answer, AllocError> {
    let path = pair.dot.path;
    let first = pair.dot.tick / 2;
    let last = pair.dot.tick.saturating_add(first);
    let range = Range { path, first, last };
    let pairs = both.graph.of_range(alloc, &range)?;
    let wanted = both.list.iter().filter(|pair| range.contains(&pair.dot));
    Ok(Answer::of(pairs.len(), pairs.iter().eq(wanted)))
}

/// Whether a pair has the parts that are given.
fn matches(parts: Parts<'_>, pair: &Tagged) -> bool {
    let (s, p, o) = parts;
    s.is_none_or(|s| *s == pair.triple.s)
        && p.is_none_or(|p| *p == pair.triple.p)
        && o.is_none_or(|o| *o == pair.triple.o)
}

/// The pairs that have the parts that are given.
fn scan(alloc: Global, both: &Both, parts: Parts<'_>) -> Result<Answer, AllocError> {
    let found = pairs_in::<Brand>(alloc, &both.graph, parts, Blank::new(1))?;
    let mut pairs = copies(alloc, &found)?;
    pairs.sort_unstable_by(|pair, other| pair.cmp(other));
    let wanted = both.list.iter().filter(|pair| matches(parts, pair));
    Ok(Answer::of(pairs.len(), pairs.iter().eq(wanted)))
}

/// Copies of pairs that are lent.
fn copies(alloc: Global, lent: &LentPairs<'_>) -> Result<Vec<Tagged>, AllocError> {
    let mut pairs = Vec::new(alloc);
    for at in 0..lent.len() {
        if let Some(pair) = lent.get(at) {
            push(&mut pairs, pair.share()?)?;
        }
    }
    Ok(pairs)
}

/// The same, in whatever order, with steps that are counted in a ledger of their own.
fn pairs_in<'a, L: Ledger>(
    alloc: Global,
    graph: &'a Graph,
    parts: Parts<'_>,
    blank: Blank,
) -> Result<LentPairs<'a>, AllocError>
    requires name { blank.name ≡ L.name }
    requires parts { blank.parts ≡ L.parts }
    requires some { 0 < L.parts }
{
    let (s, p, o) = parts;
    let mut steps = Steps::<L>::new(blank);
    graph.scan(alloc, s, p, o, &mut steps)
}
