//! A graph that is asked, changed by a cut, and asked again; and a small set that is changed twice.
ghost use Rattle.std.specs.Prelude.{◌≡◌, ◌<◌};

use crate::made::{boxed, boxed_pair, graph, pairs};
use graph_index::{Graph, LentPairs, PairSet, Steps};
use mld_ops::{Cut, Tagged, Tags};
use rdf_terms::{Iri, Term, Triple, read_triple};
use std::alloc::{AllocError, Global};
use std::marker::Brand;
use std::sync::ledger::{Blank, Ledger};
use std::test::Fail;
use tree_clock::{Path, Range};

const XA: &str = "<urn:x> <urn:p> <urn:a> .";

const XB: &str = "<urn:x> <urn:p> <urn:b> .";

const YA: &str = "<urn:y> <urn:p> <urn:a> .";

const YB: &str = "<urn:y> <urn:p> <urn:b> .";

// A change that drops the pairs of rows, and adds those of others.
fn cut(alloc: Global, drops: &[(&str, u32)], adds: &[(&str, u32)]) -> Result<Box<Cut>, Fail> {
    let drops = pairs(alloc, drops)?;
    let adds = pairs(alloc, adds)?;
    Ok(boxed(alloc, Cut { drops, adds })?)
}

// Drops two pairs, and adds one of them again and two others.
fn change(alloc: Global, graph: &mut Graph) -> Result<(), Fail> {
    let cut = cut(alloc, &[(XA, 1), (YB, 4)], &[(XB, 5), (YA, 3), (YB, 4)])?;
    graph.prepare(alloc, &cut)?;
    graph.apply(Box::into_inner(cut));
    Ok(())
}

// Whether the pairs have these ticks, in order.
fn have_ticks(pairs: &[Tagged], ticks: &[u32]) -> bool {
    pairs.len() == ticks.len()
        && pairs
            .iter()
            .zip(ticks)
            .all(|(pair, tick)| pair.dot.tick == *tick)
}

// Whether the graph lends as many pairs as it has, and these in order.
fn lends(alloc: Global, graph: &Graph, pairs: &[Tagged]) -> Result<bool, AllocError> {
    let lent = graph.in_order(alloc)?;
    let mut same = graph.count() == lent.len();
    for (at, own) in pairs.iter().enumerate() {
        same = is_lent(&lent, at, own) && same;
    }
    Ok(same)
}

// Whether a pair is lent at a place.
fn is_lent(lent: &LentPairs<'_>, at: usize, own: &Tagged) -> bool {
    let triple = lent
        .triple(at)
        .is_some_and(|triple| own.triple.cmp(triple).is_eq());
    let dot = match lent.get(at) {
        Some(there) => own.dot == there.dot,
        None => false,
    };
    triple && dot
}

// Whether the graph has these ticks, in order.
fn has_just(alloc: Global, graph: &Graph, ticks: &[u32]) -> Result<bool, AllocError> {
    let list = graph.to_list(alloc)?;
    Ok(lends(alloc, graph, &list)? && have_ticks(&list, ticks))
}

// Whether the pairs of ticks 3 to 5 are these.
fn has_of_range<T: Tags>(alloc: Global, graph: &T, ticks: &[u32]) -> Result<bool, AllocError> {
    let range = Range {
        path: Path::root(),
        first: 3,
        last: 5,
    };
    let found = graph.of_range(alloc, &range)?;
    Ok(have_ticks(&found, ticks))
}

// Whether the graph has a pair, and has the triple of that, as is wanted.
fn has(alloc: Global, graph: &Graph, row: (&str, u32), wanted: (bool, bool)) -> Result<bool, Fail> {
    let pair = boxed_pair(alloc, row)?;
    Ok(graph.has(&pair) == wanted.0 && graph.has_triple(&pair.triple) == wanted.1)
}

// The triple of a line, in a box.
fn boxed_triple(alloc: Global, line: &str) -> Result<Box<Triple>, Fail> {
    Ok(boxed(alloc, read_triple(alloc, line)?)?)
}

// Whether the pairs of the first triple, and their dots, have ticks 2 and 7.
fn has_tags(alloc: Global, graph: &Graph) -> Result<bool, Fail> {
    let triple = boxed_triple(alloc, XA)?;
    let pairs = graph.of_triple(alloc, &triple)?;
    let dots = graph.tags_of(alloc, &triple)?;
    Ok(have_ticks(&pairs, &[2, 7]) && dots.len() == 2 && dots[0].tick == 2 && dots[1].tick == 7)
}

fn scanned_in<L: Ledger>(
    alloc: Global,
    graph: &Graph,
    s: Option<&Iri>,
    p: Option<&Iri>,
    o: Option<&Term>,
    blank: Blank,
) -> u32
    requires name { blank.name ≡ L.name }
    requires parts { blank.parts ≡ L.parts }
    requires some { 0 < L.parts }
{
    let mut steps = Steps::<L>::new(blank);
    steps.tick();
    match graph.scan(alloc, s, p, o, &mut steps) {
        Ok(found) => sum_of_ticks(&found),
        Err(_) => 0,
    }
}

fn sum_of_ticks(found: &LentPairs<'_>) -> u32 {
    let mut sum = 0_u32;
    for at in 0..found.len() {
        if let Some(pair) = found.get(at) {
            sum = sum.wrapping_add(pair.dot.tick);
        }
    }
    sum
}

// The ticks of the pairs that match, summed up.
fn scanned(
    alloc: Global,
    graph: &Graph,
    s: Option<&Iri>,
    p: Option<&Iri>,
    o: Option<&Term>,
) -> u32 {
    scanned_in::<Brand>(alloc, graph, s, p, o, Blank::new(1))
}

// A line, which of its parts are given, and the sum of the ticks of the pairs that have them.
type Scan = (&'static str, bool, bool, bool, u32);

// A part, where it is given.
fn part<T>(given: bool, part: &T) -> Option<&T> {
    if given { Some(part) } else { None }
}

// Whether a scan finds pairs with that sum.
fn is_scanned(alloc: Global, graph: &Graph, case: Scan) -> Result<bool, Fail> {
    let triple = boxed_triple(alloc, case.0)?;
    let s = part(case.1, &triple.s);
    let p = part(case.2, &triple.p);
    let o = part(case.3, &triple.o);
    Ok(scanned(alloc, graph, s, p, o) == case.4)
}

// Eight pairs, each with a tick of its own power of two, so that a sum tells which they are. Subjects ascend by their texts with the
// closing mark: `urn:w`, `urn:x#`, `urn:x`, `urn:xa`, `urn:y`.
const TO_SCAN: &[(&str, u32)] = &[
    ("<urn:w> <urn:p> <urn:a> .", 1),
    (XA, 2),
    (XA, 4),
    (XB, 8),
    ("<urn:x> <urn:q> <urn:a> .", 16),
    ("<urn:x#> <urn:p> <urn:a> .", 32),
    ("<urn:xa> <urn:p> <urn:a> .", 64),
    (YA, 128),
];

const SCANS: &[Scan] = &[
    (XA, true, false, false, 30),
    (XA, true, true, false, 14),
    (XA, true, true, true, 6),
    (XA, true, false, true, 22),
    (XA, false, true, false, 239),
    (XA, false, true, true, 231),
    (XA, false, false, true, 247),
    (XA, false, false, false, 255),
    ("<urn:w> <urn:p> <urn:a> .", true, false, false, 1),
    (YA, true, true, false, 128),
    ("<urn:x#> <urn:q> <urn:a> .", true, true, false, 0),
    ("<urn:v> <urn:p> <urn:a> .", true, false, true, 0),
    ("<urn:z> <urn:p> <urn:a> .", true, false, false, 0),
];

#[test]
fn a_scan_finds_what_has_the_given_parts(rt: HostRuntime) -> Result<(), Fail> {
    let alloc = rt.alloc();
    let graph = graph(alloc, TO_SCAN)?;
    for case in SCANS {
        assert!(rt; is_scanned(alloc, &graph, *case)?);
    }
    Ok(())
}

const BEGUN: &[(&str, u32)] = &[(XA, 1), (XA, 2), (XA, 7), (YB, 4)];

// Whether the graph has what it began with.
fn is_begun(alloc: Global, graph: &Graph) -> Result<bool, Fail> {
    Ok(has_just(alloc, graph, &[1, 2, 7, 4])? && has_of_range(alloc, graph, &[4])?)
}

// Whether the graph has what the change left.
fn is_changed(alloc: Global, graph: &Graph) -> Result<bool, Fail> {
    Ok(
        has_just(alloc, graph, &[2, 7, 5, 3, 4])?
            && has_of_range(alloc, graph, &[5, 3, 4])?
            && has(alloc, graph, (XA, 1), (false, true))?
            && has(alloc, graph, (YB, 4), (true, true))?
            && has_tags(alloc, graph)?
            && is_scanned(alloc, graph, (XB, true, false, false, 14))?,
    )
}

// Whether the graph has what it should, before the change and behind it.
fn drops_and_adds(alloc: Global, graph: &mut Graph) -> Result<bool, Fail> {
    if !is_begun(alloc, graph)? {
        return Ok(false);
    }
    change(alloc, graph)?;
    is_changed(alloc, graph)
}

#[test]
fn a_cut_drops_before_it_adds(rt: HostRuntime) -> Result<(), Fail> {
    let alloc = rt.alloc();
    let mut graph = graph(alloc, BEGUN)?;
    assert!(rt; drops_and_adds(alloc, &mut graph)?);
    Ok(())
}

// Has a set lose the pairs of rows, and gain those of others.
fn change_set(
    alloc: Global,
    set: &mut PairSet,
    drops: &[(&str, u32)],
    adds: &[(&str, u32)],
) -> Result<(), Fail> {
    let cut = cut(alloc, drops, adds)?;
    set.change(alloc, Box::into_inner(cut))?;
    Ok(())
}

// Whether the set has these ticks, in order.
fn lists(alloc: Global, set: &PairSet, ticks: &[u32]) -> Result<bool, AllocError> {
    let list = set.to_list(alloc)?;
    Ok(have_ticks(&list, ticks))
}

// Whether the set has the pair of a row.
fn contains(alloc: Global, set: &PairSet, row: (&str, u32)) -> Result<bool, Fail> {
    let pair = boxed_pair(alloc, row)?;
    Ok(set.has(&pair))
}

// Whether the set has what the changes left.
fn is_left(alloc: Global, set: &PairSet) -> Result<bool, Fail> {
    Ok(
        lists(alloc, set, &[7, 5, 4])?
            && has_of_range(alloc, set, &[5, 4])?
            && contains(alloc, set, (YB, 4))?
            && !contains(alloc, set, (XA, 1))?,
    )
}

// Has a set gain three pairs, and then lose two, one of which it gains again with another. Whether it has what is left then.
fn loses_and_gains(alloc: Global, set: &mut PairSet) -> Result<bool, Fail> {
    change_set(alloc, set, &[], &[(XA, 1), (XA, 7), (YB, 4)])?;
    change_set(alloc, set, &[(XA, 1), (YB, 4)], &[(XB, 5), (YB, 4)])?;
    is_left(alloc, set)
}

#[test]
fn a_small_set_loses_before_it_gains(rt: HostRuntime) -> Result<(), Fail> {
    let alloc = rt.alloc();
    let mut set = boxed(alloc, PairSet::empty(alloc))?;
    assert!(rt; loses_and_gains(alloc, &mut set)?);
    Ok(())
}
